// From which sides the front came to each cell of a board whose times are worked out. One pass, row by row.
#![tactic(auto)]

pub mod clear;
mod row;

ghost use Rattle.std.specs.Prelude.{◌≡◌, ℕ, ◌+◌, ◌*◌, ◌-◌, ◌≤◌, ◌<◌, length, get_or};
ghost use Rattle.front.specs.Front.{Among};
ghost use Rattle.sides.specs.Pass.{Off, Lines, SeenRow, found_at, Done, SomeLand, FoundWhole, Ghosts, own_part, far_part, Laid, FoundRound};
ghost use Rattle.sides.specs.View.{LegalIn, flat_in, stack_in, found_in};

use eikonal::NEVER;
use front::Shape;
use front::scene::Scene;
use front::seams::{EDGE, INSIDE, Seams, seam_over, seam_under};

// What cells see, by cell: the times of their own tile and those beyond borders. Off the board it is never, as often as a row has cells.
#[derive(Clone, Copy)]
struct View<'a> {
    own: &'a [u32],
    far: &'a [u32],
    off: &'a [u32],
    cols: &'a Seams,
    rows: &'a Seams,
    shape: Shape,
}

// What a row of cells from c on sees of the row that is `more` cells on and `less` back, across a seam.
fn row_at<'a>(view: &View<'a>, seam: u8, c: usize, less: usize, more: usize) -> &'a [u32]
    requires { let v = view.now in
        Off v.shape.width v.off.now × Lines seam v.own.now v.far.now c less more v.shape.width }
    ensures { SeenRow seam view.now.own.now view.now.far.now (c + more - less) view.now.shape.width result.now }
{
    let w = view.shape.width;
    if seam == EDGE {
        return &view.off[..w];
    }
    let e = c + more - less;
    let end = e + w;
    if seam == INSIDE {
        return &view.own[e..end];
    }
    &view.far[e..end]
}

// The cells of a row, which is numbered through all storeys: their sides on their storey.
fn flat_row(view: &View, row: usize, bound: u32, sides: &mut [u8])
    requires { LegalIn view.now sides.old × (row < view.now.shape.height * view.now.shape.storeys) }
    ensures { let w = view.now.shape.width in
        Done (flat_in view.now bound) (row * w) (row * w + w) sides.old sides.new }
{
    let w = view.shape.width;
    let a = row * w;
    let e = a + w;
    let above = row_at(view, view.rows[row], a, w, 0);
    let below = row_at(view, view.rows[row + 1], a, 0, w);
    row::find_flat(
        &mut sides[a..e],
        &view.own[a..e],
        &view.far[a..e],
        above,
        below,
        view.cols,
        view.shape.across as usize,
        bound,
    );
}

// And those between storeys: a tile spans all of them.
fn stack_row(view: &View, row: usize, bound: u32, sides: &mut [u8])
    requires { let w = view.now.shape.width in
        LegalIn view.now sides.old × (row < view.now.shape.height * view.now.shape.storeys)
        × ((c : ℕ) → Among (row * w) (row * w + w) c → get_or sides.old c 0 ≤ 10) }
    ensures { let w = view.now.shape.width in
        Done (λ c. get_or sides.old c 0 + 16 * stack_in view.now bound c) (row * w) (row * w + w) sides.old sides.new }
{
    let w = view.shape.width;
    let area = w * (view.shape.height as usize);
    let a = row * w;
    let e = a + w;
    let over = row_at(view, seam_over(view.shape.cells, area, a), a, 0, area);
    let under = row_at(view, seam_under(area, a), a, area, 0);
    row::add_storeys(&mut sides[a..e], &view.own[a..e], over, under, bound);
}

// All sides of a row.
fn find_row(view: &View, row: usize, bound: u32, sides: &mut [u8])
    requires { LegalIn view.now sides.old × (row < view.now.shape.height * view.now.shape.storeys) }
    ensures { let w = view.now.shape.width in
        Done (found_in view.now bound) (row * w) (row * w + w) sides.old sides.new }
{
    flat_row(view, row, bound, sides);
    if view.shape.storeys > 1 {
        stack_row(view, row, bound, sides);
    }
}

// The sides of every cell by its own time, whatever its start: none past the bound.
fn find(view: &View, bound: u32, sides: &mut [u8])
    requires { LegalIn view.now sides.old }
    ensures { Done (found_in view.now bound) 0 view.now.shape.cells sides.old sides.new }
{
    let lines = (view.shape.height as usize) * (view.shape.storeys as usize);
    for row in 0..lines {
        find_row(view, row, bound, sides);
    }
}

// The same of times at the end of a march or a tile run, as if one tile covered the board: then nothing lies beyond a border. Of the work list the
// front is used.
pub fn find_whole(times: &[u32], work: &mut [u32], shape: Shape, bound: u32, sides: &mut [u8])
    requires { SomeLand shape times.now work.old sides.old }
    ensures { FoundWhole shape bound times.now work.old work.new sides.old sides.new }
{
    let w = shape.width;
    queue::lists::fill(work, 0, w, NEVER);
    let covered = Shape {
        across: 256,
        down: 256,
        ..shape
    };
    let cols = front::seams::lay_columns(covered);
    let rows = front::seams::lay_rows(covered);
    let whole = View {
        own: times,
        far: times,
        off: &work[..w],
        cols: &cols,
        rows: &rows,
        shape: covered,
    };
    find(&whole, bound, sides);
}

// What the stored times count as beyond a border, laid out behind the first N entries of the work list.
fn lay_ghosts(scene: &Scene, work: &mut [u32])
    requires { 4 * scene.now.shape.cells ≤ length work.old }
    ensures { let s = scene.now in
        Ghosts s.shape s.slow.now s.times.now s.shape.cells work.old work.new }
{
    let n = scene.shape.cells;
    for e in 0..n {
        work[n + e] = scene.ghost_time(e);
    }
}

// The same of what the work list has: never in front, what lies beyond borders, then the tentative times.
fn find_laid(scene: &Scene, work: &[u32], bound: u32, sides: &mut [u8])
    requires { Laid scene.now.shape work.now sides.old }
    ensures { let s = scene.now.shape in
        Done (found_at s (own_part s work.now) (far_part s work.now) bound) 0 s.cells sides.old sides.new }
{
    let n = scene.shape.cells;
    let second = 2 * n;
    let third = 3 * n;
    let laid = View {
        own: &work[second..third],
        far: &work[n..second],
        off: &work[..scene.shape.width],
        cols: scene.cols,
        rows: scene.rows,
        shape: scene.shape,
    };
    find(&laid, bound, sides);
}

// The same of a round, by its tentative times, while the stored ones are as they were before it. The tentative times stay.
pub fn find_round(scene: &Scene, work: &mut [u32], bound: u32, sides: &mut [u8])
    requires { let s = scene.now.shape in
        (s.across ≤ 256) × (4 * s.cells ≤ length work.old) × (length sides.old ≡ s.cells) }
    ensures { let s = scene.now in
        FoundRound s.shape s.slow.now s.times.now bound work.old work.new sides.old sides.new }
{
    queue::lists::fill(work, 0, scene.shape.width, NEVER);
    lay_ghosts(scene, work);
    find_laid(scene, work, bound, sides);
}
