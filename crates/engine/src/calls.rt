// Every call on the front is a straight line: it is checked, its starts are placed in an empty work list, its job is done, and the sides of the starts
// that no front came before are cleared. A refused call touches no list. What a call looks for beside a march's causes it has found before, as outcomes.
ghost use Rattle.std.specs.Prelude.{◌≡◌, ◌*◌, ◌≤◌, length};
ghost use Rattle.eikonal.specs.Ledger.{call};
ghost use Rattle.eikonal.specs.Entry.{lent, Counts};
ghost use Rattle.eikonal.specs.Told.{own_of, reply_of};
ghost use Rattle.eikonal.specs.Handing.{handed_in};
ghost use Rattle.engine.specs.Calls.{shaped};

use call_refusals::check_call;
use eikonal::refused::{Own, Refusal};
use eikonal::starts::{Handed, Starts};
use eikonal::{Job, Reply, house_size};
use front::Shape;

// One tile of a march covers every board.
fn shape_of(width: u32, height: u32, storeys: u32, job: Job) -> Shape
    requires { (width ≤ 256) × (height ≤ 256) × (width * height * storeys ≤ 65536) }
    ensures { result ≡ shaped width height storeys job }
{
    let (across, down) = match job {
        Job::March { .. } => (256, 256),
        Job::Round { across, down, .. } | Job::Run { across, down, .. } => (across, down),
    };
    Shape {
        width: width as usize,
        height,
        storeys,
        across,
        down,
        cells: house_size(width, height, storeys),
    }
}

// The count, or the refusal.
fn try_play<S: Starts>(
    board: &Handed<S>,
    own: Own,
    job: Job,
    order: &[u32],
    times: &mut [u32],
    sides: &mut [u8],
    work: &mut [u32],
) -> Result<u32, Refusal>
    ensures { Counts (call (handed_in S.all S.paired board.now) job order.now (length sides.old) (length work.old)) (own_of own)
        (reply_of result) (lent times.old sides.old work.old) (lent times.new sides.new work.new) }
{
    check_call(board, job, order, times.len(), sides.len(), work.len(), own)?;
    let shape = shape_of(board.width, board.height, board.storeys, job);
    front::seed::empty(work, shape.cells);
    front::seed::seed(work, shape.cells, board.starts);
    let count = super::seeded::job(shape, job, board.slow, order, times, sides, work);
    sides::clear::clear(times, sides, board.starts);
    Ok(count)
}

// Counts what the ledger counts: the cells that a march reaches, the times that a round alters, the rounds of a tile run.
pub fn play<S: Starts>(
    board: &Handed<S>,
    own: Own,
    job: Job,
    order: &[u32],
    times: &mut [u32],
    sides: &mut [u8],
    work: &mut [u32],
) -> Reply
    ensures { Counts (call (handed_in S.all S.paired board.now) job order.now (length sides.old) (length work.old)) (own_of own)
        result (lent times.old sides.old work.old) (lent times.new sides.new work.new) }
{
    try_play(board, own, job, order, times, sides, work).into()
}
