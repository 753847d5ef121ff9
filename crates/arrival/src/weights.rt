// What ticks past the last axis that counts come to, and the least of them that are enough.
// Of two axes, the last comes `apart` ticks after the other. A straight step from the other takes x ticks, from the last y: `past` ticks after
// the last are enough if ((apart + past) y)² + (past x)² reaches (x y)². Of three axes of equal numbers, the last comes `far` and `near` ticks after
// the others: they are enough if (far + past)² + (near + past)² + past² reaches the square of the slowness.
ghost use Rattle.std.specs.Prelude.{◌≡◌, ℕ, ◌+◌, ◌*◌, ◌/◌, ◌≤◌, ◌<◌, ltb};
ghost use Rattle.eikonal.specs.Inner.Weighed.{three_squares};
ghost use Rattle.arrival.specs.Weight.{at, over, slope, Least, Capped};
ghost use Rattle.std.proofs.Common.{arith};
ghost use Rattle.std.proofs.Math.Nat.{mul-le-mul, mul-le-mul_left};

// What so many ticks come to, and what is due. No ticks are too few.
pub trait Weight: Copy {
    ghost due: { Self → ℕ };

    ghost flat: { Self → ℕ };

    ghost half: { Self → ℕ };

    ghost curve: { Self → ℕ };

    // Enough ticks, to begin Newton's steps down with.
    fn enough(self) -> u32
        ensures { (result ≤ 4095) × (due self ≤ at (flat self) (half self) (curve self) result) };

    // Such a step, in whole ticks, from enough of them.
    fn step(self, past: u32) -> u32
        requires { (past ≤ 4095) × (due self ≤ at (flat self) (half self) (curve self) past) }
        ensures { result ≡ over (due self) (flat self) (half self) (curve self) past / slope (half self) (curve self) past };

    // Whether so many are too few.
    fn too_few(self, past: u32) -> bool
        ensures { result ≡ ltb (at (flat self) (half self) (curve self) past) (due self) };

    ghost curved: { (w : Self) → 1 ≤ curve w };

    ghost short: { (w : Self) → flat w < due w };
}

// The least ticks that are enough, by Newton's steps down. A step leaves enough, and where there is none one tick fewer is too few.
pub fn least<W: Weight>(w: W) -> u32
    ensures { Least (W.due w) (at (W.flat w) (W.half w) (W.curve w)) result }
{
    let mut past = w.enough();
    loop {
        let step = w.step(past);
        if step == 0 {
            return past;
        }
        past -= step;
    }
}

// The time of the least ticks that are enough, at most the limit. One tick before the limit is tried first, so that Newton's steps are spent only where
// they lower it.
pub fn past_the_last<W: Weight>(limit: u32, last: u32, w: W) -> u32
    ensures { Capped (W.due w) (at (W.flat w) (W.half w) (W.curve w)) last limit result }
{
    if limit <= last {
        return limit;
    }
    if w.too_few(limit - last - 1) {
        return limit;
    }
    last + least(w)
}

// Two axes of equal numbers. The slowness's square is kept beside it: LLVM would turn the difference of two squares, were it worked out in a step, into
// a product of a sum and a difference, for which each step waits longer.
#[derive(Clone, Copy)]
pub struct EqualTwo {
    pub slowness: u32,
    pub apart: u32,
    pub square: u32,
    pub ghost valid: { (apart < slowness) × (slowness ≤ 4095) × (square ≡ slowness * slowness) },
}

impl Weight for EqualTwo {
    ghost due = { λ w. w.square };

    ghost flat = { λ w. w.apart * w.apart };

    ghost half = { λ w. w.apart };

    ghost curve = { λ _. 2 };

    // Too many by at most 2 % of the slowness and a tick: with them (apart + past, past) lies past one of two lines that clear the disc whose radius is
    // the slowness, since 154² + 102² ≤ 185² and 215² + 41² ≤ 219².
    fn enough(self) -> u32 {
        let near = 185 * self.slowness - 154 * self.apart;
        let far = 219 * self.slowness - 215 * self.apart;
        (near.min(far) + 255) / 256
    }

    // Nearly always one division or none.
    fn step(self, past: u32) -> u32 {
        let whole = self.apart + past;
        let over = whole * whole + past * past - self.square + 2;
        let slope = 2 * (whole + past);
        if over < slope { 0 } else { over / slope }
    }

    // As many ticks as the slowness are enough: of fewer the squares fit.
    fn too_few(self, past: u32) -> bool {
        if past >= self.slowness {
            return false;
        }
        let whole = self.apart + past;
        whole * whole + past * past < self.square
    }

    ghost curved = { λ _. Prim.omega arith };

    ghost short = { λ w. Prim.omega (arith, mul-le-mul w.valid.0 w.valid.0, w.valid.2) };
}

// Three axes, where 0 ticks past the last are too few.
#[derive(Clone, Copy)]
pub struct EqualThree {
    pub slowness: u32,
    pub far: u32,
    pub near: u32,
    pub ghost valid: { (slowness ≤ 4095) × (three_squares far near 0 < slowness * slowness) },
}

impl Weight for EqualThree {
    ghost due = { λ w. w.slowness * w.slowness };

    ghost flat = { λ w. w.far * w.far + w.near * w.near };

    ghost half = { λ w. w.far + w.near };

    ghost curve = { λ _. 3 };

    // With them (far + past, near + past, past) lies past a plane that clears the ball, since 3 × 15² ≤ 26².
    fn enough(self) -> u32 {
        (26 * self.slowness - 15 * (self.far + self.near) + 44) / 45
    }

    // Most often two divisions at most.
    fn step(self, past: u32) -> u32 {
        let over = three_squares(self.far, self.near, past) - self.slowness * self.slowness + 3;
        let slope = 2 * (self.far + self.near + 3 * past);
        if over < slope { 0 } else { over / slope }
    }

    fn too_few(self, past: u32) -> bool {
        if past >= self.slowness {
            return false;
        }
        three_squares(self.far, self.near, past) < self.slowness * self.slowness
    }

    ghost curved = { λ _. Prim.omega arith };

    ghost short = { λ w. Prim.omega (arith, w.valid.1) };
}

// What so many ticks past the last of three axes come to.
pub fn three_squares(far: u32, near: u32, past: u32) -> u32
    requires { (far ≤ 4095) × (near ≤ 4095) × (past ≤ 4095) }
    ensures { result ≡ three_squares far near past }
{
    let first = far + past;
    let second = near + past;
    first * first + second * second + past * past
}

// Two axes of unequal numbers, in 64 bits.
#[derive(Clone, Copy)]
pub struct Unequal {
    pub x: u32,
    pub y: u32,
    pub apart: u32,
    pub ghost valid: { (apart < x) × (x ≤ 4095) × (1 ≤ y) × (y ≤ 4095) },
}

impl Weight for Unequal {
    ghost due = { λ w. w.x * w.x * (w.y * w.y) };

    ghost flat = { λ w. w.y * w.y * (w.apart * w.apart) };

    ghost half = { λ w. w.y * w.y * w.apart };

    ghost curve = { λ w. w.y * w.y + w.x * w.x };

    // One axis alone is enough.
    fn enough(self) -> u32 {
        (self.x - self.apart).min(self.y)
    }

    // One or two of them, most often.
    fn step(self, past: u32) -> u32 {
        let v = (self.y * self.y) as u64;
        let w = (self.x * self.x) as u64;
        let over = weigh(v, w, self.apart, past) - due(self.x, self.y) + (v + w);
        let slope = 2 * (v * (self.apart + past) as u64 + w * past as u64);
        if over < slope {
            return 0;
        }
        (over / slope) as u32
    }

    // As many ticks as y are enough.
    fn too_few(self, past: u32) -> bool {
        if past >= self.y {
            return false;
        }
        weigh(
            (self.y * self.y) as u64,
            (self.x * self.x) as u64,
            self.apart,
            past,
        ) < due(self.x, self.y)
    }

    ghost curved = { λ w. Prim.omega (arith, mul-le-mul w.valid.2 w.valid.2) };

    ghost short = { λ w. Prim.omega (arith, mul-le-mul_left (w.y * w.y) (mul-le-mul w.valid.0 w.valid.0), mul-le-mul w.valid.2 w.valid.2) };
}

// What so many ticks past the second come to, and what is due, in 64 bits.
fn weigh(v: u64, w: u64, apart: u32, past: u32) -> u64
    requires { (v ≤ 16769025) × (w ≤ 16769025) × (apart ≤ 4095) × (past ≤ 4095) }
    ensures { result ≡ v * ((apart + past) * (apart + past)) + w * (past * past) }
{
    let whole = (apart + past) as u64;
    let last = past as u64;
    v * (whole * whole) + w * (last * last)
}

fn due(x: u32, y: u32) -> u64
    requires { (x ≤ 4095) × (y ≤ 4095) }
    ensures { result ≡ x * x * (y * y) }
{
    let both = (x * y) as u64;
    both * both
}
