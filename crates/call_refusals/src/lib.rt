// Whether a march, a round or a tile run is refused, and why, with what a call looks for of its own.
#![tactic(auto)]

ghost use Rattle.std.specs.Prelude.{◌≡◌, [], ◌∷◌, ◌≤◌, ◌*◌, length};
ghost use Rattle.eikonal.specs.Board.{board_of};
ghost use Rattle.eikonal.specs.Order.{caused, first_of};
ghost use Rattle.eikonal.specs.Refusals.{tile_causes, job_causes, list_causes};
ghost use Rattle.eikonal.specs.Ledger.{call, own_refusal};
ghost use Rattle.eikonal.specs.Told.{told, own_of};
ghost use Rattle.eikonal.specs.Handing.{handed_in};

use eikonal::refused::{Cause, Checked, Own};
use eikonal::starts::{Handed, Starts};
use eikonal::{Job, LARGEST, house_size};
use refusals::board::{check_board, flawless, sides_good};
use refusals::causes::{refuse_if, within};
use tile_orders::order_good;

// 11 and 12 on a board with these sides: tiles that are too small have no number.
#[tactic(auto, using(eikonal::proofs::Outcomes::outcomes), unfolding(eikonal::specs::Refusals::tile_causes))]
fn check_tiles(width: u32, height: u32, across: u32, down: u32, order: &[u32]) -> Checked
    requires { (width ≤ 256) × (height ≤ 256) }
    ensures { told result ≡ first_of (tile_causes (board_of width height 1 [] []) across down order.now) }
{
    refuse_if(!sides_good(across, down), Cause::TileSides)?;
    refuse_if(
        !order_good(width, height, across, down, order),
        Cause::Order,
    )
}

// 10, 11 and 12 of what is to be done.
#[tactic(auto, using(eikonal::proofs::Outcomes::outcomes), unfolding(eikonal::specs::Refusals::job_causes, eikonal::specs::Refusals::tile_causes))]
fn check_job(width: u32, height: u32, job: Job, order: &[u32]) -> Checked
    requires { (width ≤ 256) × (height ≤ 256) }
    ensures { told result ≡ first_of (job_causes (board_of width height 1 [] []) job order.now) }
{
    match job {
        Job::March { horizon } => refuse_if(horizon > LARGEST, Cause::Far),
        Job::Round {
            across,
            down,
            bound,
        } => {
            refuse_if(bound > LARGEST, Cause::Far)?;
            check_tiles(width, height, across, down, order)
        }
        Job::Run {
            across,
            down,
            stride,
            horizon,
        } => {
            let far = (horizon > LARGEST) | !within(1, LARGEST as usize, stride as usize);
            refuse_if(far, Cause::Far)?;
            check_tiles(width, height, across, down, order)
        }
    }
}

// 13 and 14 for n cells, with what the call found of its own. Of the lists only the lengths matter here.
#[tactic(auto, using(eikonal::proofs::Outcomes::outcomes), unfolding(eikonal::specs::Refusals::list_causes))]
fn check_lists(n: usize, times: usize, sides: usize, work: usize, own: Own) -> Checked
    requires { n ≤ 65536 }
    ensures { told result ≡ first_of (list_causes n times sides work (own_of own)) }
{
    refuse_if(times != n, Cause::Times)?;
    own.times?;
    refuse_if((sides != n) | (work < 4 * n), Cause::Room)?;
    own.lists?;
    own.last
}

// A call on the front, of a board as it is handed in. Of the lists of times, sides and work only the lengths matter here.
pub fn check_call<S: Starts>(
    board: &Handed<S>,
    job: Job,
    order: &[u32],
    times: usize,
    sides: usize,
    work: usize,
    own: Own,
) -> Checked
    ensures { told result ≡ own_refusal (call (handed_in S.all S.paired board.now) job order.now sides work) (own_of own) times }
{
    check_board(board, flawless(), own.ticks, own.kinds)?;
    own.cell?;
    check_job(board.width, board.height, job, order)?;
    let n = house_size(board.width, board.height, board.storeys);
    check_lists(n, times, sides, work, own)
}
