// A row of cells, side by side. Its loops have no way out and read their lists in step, so that several cells are done at a time.
ghost use Rattle.std.specs.Prelude.{◌≡◌, cond, ℕ, ◌+◌, ◌-◌, ◌≤◌, ◌<◌, eqb, length, get_or, ◌≢◌};
ghost use Rattle.eikonal.specs.Board.{never};
ghost use Rattle.front.specs.Seams.{edge};
ghost use Rattle.front.specs.Board.{Marked};
ghost use Rattle.sides.specs.Row.{Even, Set, SetInner, Part, SetEnds, FoundFlat, Added};

use arrival::{flat_sides, shown, side};
use eikonal::NEVER;
use front::seams::{EDGE, Seams};

// The leaf: each cell's sides on its storey.
fn set(
    sides: &mut [u8],
    own: &[u32],
    left: &[u32],
    right: &[u32],
    above: &[u32],
    below: &[u32],
    bound: u32,
)
    requires { Even (length sides.old) own.now above.now below.now × (length left.now ≡ length sides.old)
        × (length right.now ≡ length sides.old) }
    ensures { Set bound own.now left.now right.now above.now below.now
        sides.old sides.new }
{
    for (i, there) in sides.iter_mut().enumerate() {
        let t = shown(own[i], bound);
        *there = flat_sides(left[i], right[i], above[i], below[i], t);
    }
}

// All cells but the first and the last, as if none were at a border.
fn set_inner(sides: &mut [u8], own: &[u32], above: &[u32], below: &[u32], bound: u32)
    requires { Even (length sides.old) own.now above.now below.now }
    ensures { SetInner bound own.now above.now below.now sides.old sides.new }
{
    let w = own.len();
    if w < 3 {
        return;
    }
    let last = w - 1;
    let inner = w - 2;
    set(
        &mut sides[1..last],
        &own[1..last],
        &own[..inner],
        &own[2..],
        &above[1..last],
        &below[1..last],
        bound,
    );
}

// What the cell at column i sees before it and behind it, where that is not its own tile.
fn beyond_left(far: &[u32], cols: &Seams, i: usize) -> u32
    requires { (i < length far.now) × (length far.now ≤ 256) × (get_or cols.now i 0 ≢ edge → 1 ≤ i) }
    ensures { result ≡ cond (eqb (get_or cols.now i 0) edge) never (get_or far.now (i - 1) 0) }
{
    if cols[i] == EDGE { NEVER } else { far[i - 1] }
}

fn beyond_right(far: &[u32], cols: &Seams, i: usize) -> u32
    requires { (i < length far.now) × (length far.now ≤ 256) × (get_or cols.now (i + 1) 0 ≢ edge → i + 1 < length far.now) }
    ensures { result ≡ cond (eqb (get_or cols.now (i + 1) 0) edge) never (get_or far.now (i + 1) 0) }
{
    if cols[i + 1] == EDGE {
        NEVER
    } else {
        far[i + 1]
    }
}

// The cells at both ends of a tile's part of the row.
fn set_ends(
    sides: &mut [u8],
    own: &[u32],
    far: &[u32],
    above: &[u32],
    below: &[u32],
    cols: &Seams,
    across: usize,
    from: usize,
    last: usize,
    bound: u32,
)
    requires { Even (length sides.old) own.now above.now below.now × (length far.now ≡ length sides.old)
        × Marked (length sides.old) across 1 cols.now × Part across (length sides.old) from last }
    ensures { SetEnds across bound own.now far.now above.now below.now from last
        sides.old sides.new }
{
    let left = beyond_left(far, cols, from);
    let right = beyond_right(far, cols, last);
    let first = shown(own[from], bound);
    if from == last {
        sides[from] = flat_sides(left, right, above[from], below[from], first);
        return;
    }
    sides[from] = flat_sides(left, own[from + 1], above[from], below[from], first);
    let t = shown(own[last], bound);
    sides[last] = flat_sides(own[last - 1], right, above[last], below[last], t);
}

// Each cell's sides on its storey, with tiles `across` cells wide.
pub fn find_flat(
    sides: &mut [u8],
    own: &[u32],
    far: &[u32],
    above: &[u32],
    below: &[u32],
    cols: &Seams,
    across: usize,
    bound: u32,
)
    requires { Even (length sides.old) own.now above.now below.now × (length far.now ≡ length sides.old)
        × Marked (length sides.old) across 1 cols.now × (1 ≤ across) × (across ≤ 4294967295) }
    ensures { FoundFlat across bound own.now far.now above.now below.now
        sides.old sides.new }
{
    set_inner(sides, own, above, below, bound);
    let w = own.len();
    for col in (0..w).step_by(across) {
        let end = (col + across).min(w);
        set_ends(
            sides,
            own,
            far,
            above,
            below,
            cols,
            across,
            col,
            end - 1,
            bound,
        );
    }
}

// And with the cells over and under it.
pub fn add_storeys(sides: &mut [u8], own: &[u32], over: &[u32], under: &[u32], bound: u32)
    requires { Even (length sides.old) own.now over.now under.now × ((i : ℕ) → i < length sides.old → get_or sides.old i 0 ≤ 10) }
    ensures { Added bound own.now over.now under.now sides.old sides.new }
{
    for (i, there) in sides.iter_mut().enumerate() {
        let t = shown(own[i], bound);
        *there += 16 * side(over[i], under[i], t);
    }
}
