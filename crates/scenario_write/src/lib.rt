// The writer of scenario files.
#![tactic(auto)]

pub mod write;

ghost use Rattle.eikonal.specs.Told.{reply_of};
ghost use Rattle.eikonal.specs.Handing.{handed_in};
ghost use Rattle.scenario.specs.Calls.{Writes};

use eikonal::Reply;
use eikonal::refused::{Cause, Refusal};
use eikonal::starts::{Handed, Starts};
use refusals::board::{check_board, flawless, with_pair};
use refusals::causes::refuse_if;
use scenario::heads::file_length;
use scenario::ticks_good;

// Writes the one file that fits a board, its ticks per turn, ground and starts, and answers its length; later bytes stay.
pub fn write_scenario<S: Starts>(
    board: &Handed<S>,
    ticks: u32,
    ground: u32,
    out: &mut [u8],
) -> Reply
    ensures { Writes (handed_in S.all S.paired board.now) ticks ground out.old out.new result }
{
    write_file(board, ticks, ground, out).into()
}

// A refused call leaves the bytes as they were.
fn write_file<S: Starts>(
    board: &Handed<S>,
    ticks: u32,
    ground: u32,
    out: &mut [u8],
) -> Result<u32, Refusal>
    ensures { Writes (handed_in S.all S.paired board.now) ticks ground out.old out.new (reply_of result) }
{
    let ticks_checked = refuse_if(!ticks_good(ticks), Cause::Ticks);
    check_board(board, with_pair(ground, flawless()), ticks_checked, Ok(()))?;
    let head = write::head_for(
        board.width,
        board.height,
        board.storeys,
        ticks,
        ground,
        board.slow,
        board.starts.many(),
    );
    let need = file_length(head);
    refuse_if(out.len() < need, Cause::Room)?;
    write::write_all(&mut out[..need], head, board);
    Ok(need as u32)
}
