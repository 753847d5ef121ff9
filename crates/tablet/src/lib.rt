// The tablet's call: a scenario file with sides to 32 and 1,024 cells at the most is run tile by tile, and its times are written as bytes.
#![tactic(auto)]

pub mod run;
pub mod small;

ghost use Rattle.std.specs.Prelude.{◌≡◌, ◌*◌, length, IfOk};
ghost use Rattle.eikonal.specs.Told.{told};
ghost use Rattle.scenario.specs.Bytes.{four_bytes, bytes_of};
ghost use Rattle.scenario.specs.Inner.Walk.{Fits};
ghost use Rattle.tablet.specs.Tablet.{tablet_refusal, TabletSays};

use eikonal::LARGEST;
use eikonal::refused::{Cause, Refusal};
use refusals::board::sides_good;
use refusals::causes::{refuse_if, within};
use scenario::Head;
use scenario::bytes::put_four;
use scenario::heads::board_size;
use small::check_small;

// What refuses the call, for an output of so many bytes; or the file's head.
#[tactic(auto, using(eikonal::proofs::Outcomes::outcomes, crate::proofs::SmallFiles::tablet_by_parts))]
fn check_tablet(
    file: &[u8],
    stride: u32,
    across: u32,
    down: u32,
    room: usize,
) -> Result<Head, Refusal>
    ensures told { told result ≡ tablet_refusal file.now stride across down room }
    ensures head { IfOk result (λ x. Fits x file.now) }
{
    let head = check_small(file)?;
    refuse_if(!within(1, LARGEST as usize, stride as usize), Cause::Far)?;
    refuse_if(!sides_good(across, down), Cause::TileSides)?;
    refuse_if(room < 4 * board_size(head), Cause::Room)?;
    Ok(head)
}

// Each time as 4 bytes, into a list that is just as long.
#[tactic(auto, using(crate::proofs::TimesBytes::writing))]
fn put_times(out: &mut [u8], times: &[u32])
    requires { length out.old ≡ 4 * length times.now }
    ensures { out.new ≡ bytes_of four_bytes times.now }
{
    for (i, time) in times.iter().enumerate() {
        put_four(out, 4 * i, *time);
    }
}

// Runs the board of a file with the tiles in rising order, up to the horizon 6,000,000. Answers the rounds × 256 and writes N times of
// 4 bytes; later bytes stay. A refused call answers the bare number and leaves the output as it was.
pub fn tablet_run(file: &[u8], stride: u32, across: u32, down: u32, out: &mut [u8]) -> u64
    ensures { TabletSays file.now stride across down out.old out.new result }
{
    let head = match check_tablet(file, stride, across, down, out.len()) {
        Ok(head) => head,
        Err(refusal) => return refusal.cause.number() as u64,
    };
    let n = board_size(head);
    let mut times = run::entries();
    let times = &mut times[..n];
    let rounds = run::run_file(file, stride, across, down, times);
    put_times(&mut out[..4 * n], times);
    (rounds as u64) * 256
}
