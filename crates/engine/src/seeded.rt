// Marches, tile runs and single rounds of legal boards, from starts that are placed: whoever places them, from plain lists or from records.
ghost use Rattle.std.specs.Prelude.{◌≡◌, true, [], ◌≤◌};
ghost use Rattle.eikonal.specs.Board.{largest};
ghost use Rattle.eikonal.specs.Refusals.{order_good};
ghost use Rattle.eikonal.specs.Ledger.{sheet};
ghost use Rattle.front.specs.Board.{land};
ghost use Rattle.eikonal.specs.declared.Job.TheVariants.{March, Round, Run};
ghost use Rattle.engine.specs.Calls.{SomeStanding, Doable, Goes};

use super::tiling::Tiling;
use eikonal::{Job, NEVER};
use front::Shape;
use front::scene::Scene;

// A limit of rounds that never binds: no tile run has more than 300,000,000 + 65,536 (`few_rounds` of crates/eikonal/proofs/Rounds.antt).
// Above every count of 32 bits, so that its tests compile to nothing.
const NO_LIMIT: u64 = 4294967296;

// A whole march: one tile covers the board, so that no stored time is seen.
fn march(
    shape: Shape,
    slow: &[u32],
    horizon: u32,
    times: &mut [u32],
    sides: &mut [u8],
    work: &mut [u32],
) -> u32
    requires { SomeStanding shape slow.now times.old sides.old work.old × (shape.width ≤ shape.across) × (shape.height ≤ shape.down)
        × (horizon ≤ largest) }
    ensures { Goes (March horizon) shape slow.now result times.old sides.old
        (sheet times.new sides.new) work.old work.new }
{
    let n = shape.cells;
    let cols = front::seams::lay_columns(shape);
    let rows = front::seams::lay_rows(shape);
    let scene = Scene {
        slow,
        times,
        cols: &cols,
        rows: &rows,
        shape,
    };
    front::strip::drain_tile(&scene, work, horizon);
    let count = rows::whole::finish(work, times, n, horizon);
    sides::find_whole(times, work, shape, horizon, sides);
    queue::lists::fill(work, 0, 4 * n, 0);
    count
}

fn tile_run(
    shape: Shape,
    slow: &[u32],
    stride: u32,
    horizon: u32,
    times: &mut [u32],
    sides: &mut [u8],
    work: &mut [u32],
) -> u32
    requires { SomeStanding shape slow.now times.old sides.old work.old × (1 ≤ stride) × (stride ≤ largest) × (horizon ≤ largest) }
    ensures { Goes (Run shape.across shape.down stride horizon) shape slow.now result times.old sides.old
        (sheet times.new sides.new) work.old work.new }
{
    let n = shape.cells;
    queue::lists::fill(times, 0, n, NEVER);
    let cols = front::seams::lay_columns(shape);
    let rows = front::seams::lay_rows(shape);
    let size = front::seed::gather(work, n, 0, n);
    let tiling = Tiling {
        slow,
        cols: &cols,
        rows: &rows,
        shape,
        stride,
        horizon,
    };
    let count = super::run::run(&tiling, times, work, size, NO_LIMIT);
    sides::find_whole(times, work, shape, horizon, sides);
    queue::lists::fill(work, 0, 4 * n, 0);
    count
}

fn one_round(
    shape: Shape,
    slow: &[u32],
    bound: u32,
    order: &[u32],
    times: &mut [u32],
    sides: &mut [u8],
    work: &mut [u32],
) -> u32
    requires { SomeStanding shape slow.now times.old sides.old work.old × (bound ≤ largest)
        × (order_good (land shape []) shape.across shape.down order.now ≡ true) }
    ensures { Goes (Round shape.across shape.down bound) shape slow.now result times.old sides.old
        (sheet times.new sides.new) work.old work.new }
{
    let n = shape.cells;
    let cols = front::seams::lay_columns(shape);
    let rows = front::seams::lay_rows(shape);
    let scene = Scene {
        slow,
        times,
        cols: &cols,
        rows: &rows,
        shape,
    };
    front::strip::drain_strips(&scene, work, bound);
    // while the ghosts are still stored
    sides::find_round(&scene, work, bound, sides);
    let count = rows::tiles::write_tiles(times, work, shape, order, bound);
    queue::lists::fill(work, 0, 4 * n, 0);
    count
}

pub fn job(
    shape: Shape,
    job: Job,
    slow: &[u32],
    order: &[u32],
    times: &mut [u32],
    sides: &mut [u8],
    work: &mut [u32],
) -> u32
    requires { SomeStanding shape slow.now times.old sides.old work.old × Doable job shape order.now }
    ensures { Goes job shape slow.now result times.old sides.old
        (sheet times.new sides.new) work.old work.new }
{
    match job {
        Job::March { horizon } => march(shape, slow, horizon, times, sides, work),
        Job::Round {
            across: _,
            down: _,
            bound,
        } => one_round(shape, slow, bound, order, times, sides, work),
        Job::Run {
            across: _,
            down: _,
            stride,
            horizon,
        } => tile_run(shape, slow, stride, horizon, times, sides, work),
    }
}
