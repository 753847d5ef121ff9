// A file judged whole, before any list is written: its refusal, or its head.
ghost use Rattle.std.specs.Prelude.{◌≡◌, true, [], ◌∷◌, map, ◌*◌, IfOk};
ghost use Rattle.eikonal.specs.Board.{size};
ghost use Rattle.eikonal.specs.Order.{caused, first_of};
ghost use Rattle.eikonal.specs.Refusals.{pair_causes, record_causes};
ghost use Rattle.eikonal.specs.Told.{told};
ghost use Rattle.eikonal.specs.Inner.Good.{starts_rise};
ghost use Rattle.scenario.specs.Runs.{runs_good};
ghost use Rattle.scenario.specs.File.{held, front_causes, rest_causes, file_refusal};
ghost use Rattle.scenario.specs.Calls.{reader_refusal};
ghost use Rattle.scenario.specs.Inner.Walk.{Fits, runs_by, starts_by, wall_among};

use super::read_again;
use super::starts::{judge_unwalled, starts_on_wall};
use eikonal::refused::{Cause, Checked, Refusal};
use refusals::board::{check_flaws, check_judged, flawless, sides_good, with_pair};
use refusals::causes::refuse_if;
use scenario::heads::{board_size, file_length, head_of, starts_base};
use scenario::runs::{runs_good, with_runs};
use scenario::{HEAD, Head, ticks_good};

// 1 and 2: a file under 20 bytes has no head.
pub fn check_front(file: &[u8]) -> Result<Head, Refusal>
    ensures told { told result ≡ first_of (front_causes file.now) }
    ensures head { IfOk result (λ x. Fits x file.now) }
{
    refuse_if(file.len() < HEAD, Cause::FileLength)?;
    let head = head_of(file);
    refuse_if(file.len() != file_length(head), Cause::FileLength)?;
    refuse_if(!sides_good(head.width, head.height), Cause::Sides)?;
    Ok(head)
}

// 5, 21 and 23: the ground's slowness and all runs'.
fn check_pairs(file: &[u8], head: Head) -> Checked
    requires { Fits «head» file.now }
    ensures { told result ≡ first_of (pair_causes «head».width «head».height «head».storeys
        («head».ground ∷ map (λ x. x.slow) (runs_by «head» file.now))) }
{
    let flaws = with_runs(file, head.runs as usize, with_pair(head.ground, flawless()));
    check_flaws(head.width, head.height, head.storeys, flaws)
}

// 7, 18 and 8: each looks at all starts.
fn check_records(file: &[u8], head: Head) -> Checked
    requires { Fits «head» file.now }
    ensures { told result ≡ first_of (record_causes («head».width * «head».height * «head».storeys)
        (starts_by «head» file.now)) }
{
    check_judged(judge_unwalled(
        file,
        starts_base(head),
        head.starts as usize,
        board_size(head),
    ))
}

// 9: starts that rise are walked along with the runs, to find walls.
fn check_walls(file: &[u8], head: Head) -> Checked
    requires file { Fits «head» file.now }
    requires rise { starts_rise (size (held file.now)) 0 (starts_by «head» file.now) ≡ true }
    ensures { told result ≡ first_of (caused 9 (wall_among «head».ground (runs_by «head» file.now)
        (starts_by «head» file.now)) ∷ []) }
{
    let walled = starts_on_wall(
        file,
        head.runs as usize,
        starts_base(head),
        head.starts as usize,
        head.ground,
    );
    refuse_if(walled, Cause::OnWall)
}

// 3, 5, 21, 23, 6, 7, 18, 8 and 9 of a file whose front is good.
pub fn check_rest(file: &[u8], head: Head) -> Checked
    requires { Fits «head» file.now }
    ensures { told result ≡ first_of (rest_causes file.now) }
{
    let head = read_again(file, head);
    refuse_if(!ticks_good(head.ticks), Cause::Ticks)?;
    check_pairs(file, head)?;
    let rules = runs_good(file, head.runs as usize, board_size(head), head.ground);
    refuse_if(!rules, Cause::Runs)?;
    check_records(file, head)?;
    check_walls(file, head)
}

#[tactic(auto, using(eikonal::proofs::Outcomes::outcomes, scenario::proofs::Causes::file_by_parts))]
pub fn check_file(file: &[u8]) -> Result<Head, Refusal>
    ensures told { told result ≡ file_refusal file.now }
    ensures head { IfOk result (λ x. Fits x file.now) }
{
    let head = check_front(file)?;
    check_rest(file, head)?;
    Ok(head)
}

// What the reader finds, for lists that have room for so many slownesses and starts.
#[tactic(auto, using(eikonal::proofs::Outcomes::outcomes, scenario::proofs::Reading::reader_by_parts), unfolding(scenario::specs::Calls::room_good))]
pub fn check_scenario(file: &[u8], slows: usize, starts: usize) -> Result<Head, Refusal>
    ensures told { told result ≡ reader_refusal file.now slows starts }
    ensures head { IfOk result (λ x. Fits x file.now) }
{
    let head = check_file(file)?;
    let room = (board_size(head) <= slows) & (head.starts as usize <= starts);
    refuse_if(!room, Cause::Room)?;
    Ok(head)
}
