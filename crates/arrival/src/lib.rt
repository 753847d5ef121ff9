// The arrival time of a front at a cell, from the times of its six neighbours: the local rule. And from which sides it came.
// Of two axes, left or right and above or below, one comes first. Over or under is the third axis, of equal numbers alone.
#![tactic(auto)]

mod weights;

ghost use Rattle.std.specs.Prelude.{◌≡◌, ◌+◌, ◌-◌, ◌*◌, ◌≤◌, ◌<◌, min, cond, ltb, leb};
ghost use Rattle.eikonal.specs.Board.{never, earlier, local_of, local};
ghost use Rattle.eikonal.specs.Sides.{side, sides_of};
ghost use Rattle.eikonal.specs.Entry.{seen, local_refusal, LocalSays};
ghost use Rattle.eikonal.specs.Told.{told};
ghost use Rattle.eikonal.specs.Inner.Weighed.{weighed, three_squares};

use eikonal::refused::{Cause, Checked};
use eikonal::{LARGEST, LocalReply, NEVER};
use refusals::board::{is_half_wall, is_steep};
use refusals::causes::refuse_if;
use weights::{EqualThree, EqualTwo, Unequal, least, past_the_last};

// So many ticks after a time, at most never.
fn after(time: u32, ticks: u32) -> u32
    ensures { result ≡ min never (time + ticks) }
{
    time.saturating_add(ticks)
}

// The least ticks past the second of two axes that are enough, of equal numbers.
pub fn least_past(slowness: u32, apart: u32) -> u32
    requires { (apart < slowness) × (slowness ≤ 4095) }
    ensures { (1 ≤ result) × (slowness * slowness ≤ weighed 1 1 apart result) × (weighed 1 1 apart (result - 1) < slowness * slowness) }
{
    least(EqualTwo {
        slowness,
        apart,
        square: slowness * slowness,
    })
}

// The local rule of equal numbers and two axes, at most the limit, where an axis's time is the earlier of its two.
pub fn of_equal(limit: u32, slowness: u32, across: u32, down: u32) -> u32
    requires { slowness ≤ 4095 }
    ensures { result ≡ min limit (local_of slowness slowness across down never) }
{
    if slowness == 0 {
        return limit;
    }
    let first = across.min(down);
    let second = across.max(down);
    let apart = second - first;
    if apart >= slowness {
        return limit.min(after(first, slowness));
    }
    let last = EqualTwo {
        slowness,
        apart,
        square: slowness * slowness,
    };
    past_the_last(limit, second, last)
}

// Whether 0 ticks past the last of three axes are too few: as many as the slowness are enough, from whichever axis.
fn last_counts(slowness: u32, far: u32, near: u32) -> bool
    requires { slowness ≤ 4095 }
    ensures { result ≡ ltb (three_squares far near 0) (slowness * slowness) }
{
    if far.max(near) >= slowness {
        return false;
    }
    far * far + near * near < slowness * slowness
}

// As `of_equal`, of three axes. The last one counts only if 0 ticks past it are too few: else the other two are enough by then.
pub fn of_three(limit: u32, slowness: u32, across: u32, down: u32, storey: u32) -> u32
    requires { slowness ≤ 4095 }
    ensures { result ≡ min limit (local_of slowness slowness across down storey) }
{
    let low = across.min(down);
    let high = across.max(down);
    let middle = high.min(storey);
    let last = high.max(storey);
    let far = last - low;
    let near = last - middle;
    if !last_counts(slowness, far, near) {
        return of_equal(limit, slowness, low, middle);
    }
    past_the_last(
        limit,
        last,
        EqualThree {
            slowness,
            far,
            near,
        },
    )
}

// As `of_equal`, of unequal numbers, with the axis that comes first: x is its own.
fn from_first(limit: u32, x: u32, y: u32, first: u32, second: u32) -> u32
    requires { (1 ≤ x) × (x ≤ 4095) × (1 ≤ y) × (y ≤ 4095) × (first ≤ second) }
    ensures { result ≡ min limit (local_of x y first second never) }
{
    let apart = second - first;
    if apart >= x {
        return limit.min(after(first, x));
    }
    past_the_last(limit, second, Unequal { x, y, apart })
}

// The local rule of unequal numbers, at most the limit: there are two axes.
pub fn of_unequal(limit: u32, g: u32, h: u32, across: u32, down: u32) -> u32
    requires { (1 ≤ g) × (g ≤ 4095) × (1 ≤ h) × (h ≤ 4095) }
    ensures { result ≡ min limit (local_of g h across down never) }
{
    if across <= down {
        return from_first(limit, g, h, across, down);
    }
    from_first(limit, h, g, down, across)
}

// A time handed in counts as never above 300,000,000.
fn known(time: u32) -> u32
    ensures { result ≡ seen time }
{
    if time > LARGEST { NEVER } else { time }
}

// An axis's time, of the two handed in.
fn axis(one: u32, other: u32) -> u32
    ensures { result ≡ earlier (seen one) (seen other) }
{
    known(one).min(known(other))
}

// 5, 21 or 23: numbers that differ, with a time over or under.
#[tactic(auto, using(eikonal::proofs::Outcomes::outcomes), unfolding(eikonal::specs::Entry::local_refusal, eikonal::specs::Entry::local_causes))]
fn check_local(g: u32, h: u32, over: u32, under: u32) -> Checked
    ensures { told result ≡ local_refusal g h over under }
{
    let stacked = (g != h) & (axis(over, under) != NEVER);
    refuse_if(is_steep(g, h), Cause::Steep)?;
    refuse_if(is_half_wall(g, h), Cause::HalfWall)?;
    refuse_if(stacked, Cause::Stacked)
}

// The time, of numbers that are not refused.
fn local_time(
    g: u32,
    h: u32,
    left: u32,
    right: u32,
    above: u32,
    below: u32,
    over: u32,
    under: u32,
) -> u32
    requires { (local_refusal g h over under).number ≡ 0 }
    ensures { result ≡ local g h (seen left) (seen right) (seen above) (seen below) (seen over) (seen under) }
{
    let across = axis(left, right);
    let down = axis(above, below);
    if g != h {
        return of_unequal(NEVER, g, h, across, down);
    }
    let storey = axis(over, under);
    if storey == NEVER {
        return of_equal(NEVER, g, across, down);
    }
    of_three(NEVER, g, across, down, storey)
}

// On one axis: 1 for the first of two times, if it is below t and not above the second; else 2 for the second, if it is below t; else 0.
pub fn side(first: u32, second: u32, t: u32) -> u8
    ensures is { result ≡ side first second t }
    ensures most { result ≤ 2 }
{
    if (first < t) | (second < t) {
        if first <= second { 1 } else { 2 }
    } else {
        0
    }
}

// The byte, of the axes of row and column, and of all three. Of the time 0 there are none.
pub fn flat_sides(left: u32, right: u32, above: u32, below: u32, t: u32) -> u8
    ensures is { result ≡ side left right t + 4 * side above below t }
    ensures most { result ≤ 10 }
{
    side(left, right, t) + 4 * side(above, below, t)
}

fn sides_of(left: u32, right: u32, above: u32, below: u32, over: u32, under: u32, t: u32) -> u8
    ensures { result ≡ sides_of left right above below over under t }
{
    flat_sides(left, right, above, below, t) + 16 * side(over, under, t)
}

// A time up to the bound, else 0, which has no sides.
pub fn shown(t: u32, bound: u32) -> u32
    ensures { result ≡ cond (leb t bound) t 0 }
{
    if t <= bound { t } else { 0 }
}

// The local rule: 5, 21, 23, or the time and its sides.
pub fn local_rule(
    g: u32,
    h: u32,
    left: u32,
    right: u32,
    above: u32,
    below: u32,
    over: u32,
    under: u32,
) -> LocalReply
    ensures { LocalSays g h left right above below over under result }
{
    if let Err(refusal) = check_local(g, h, over, under) {
        return LocalReply {
            number: refusal.cause.number(),
            time: 0,
            sides: 0,
        };
    }
    let t = local_time(g, h, left, right, above, below, over, under);
    let sides = sides_of(
        known(left),
        known(right),
        known(above),
        known(below),
        known(over),
        known(under),
        shown(t, NEVER - 1),
    );
    LocalReply {
        number: 0,
        time: t,
        sides: sides as u32,
    }
}
