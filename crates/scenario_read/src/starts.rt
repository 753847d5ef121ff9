// The starts in a file, judged before anything is written.
ghost use Rattle.std.specs.Prelude.{◌≡◌, true, ◌+◌, ◌*◌, ◌≤◌, length, drop};
ghost use Rattle.eikonal.specs.Board.{size};
ghost use Rattle.eikonal.specs.Inner.Good.{starts_rise};
ghost use Rattle.refusals.specs.Judge.{nothing_judged, judge_by, unwalled};
ghost use Rattle.scenario.specs.Bytes.{records};
ghost use Rattle.scenario.specs.File.{head_size, run_size, start_size, runs_end, run_in, start_in, held};
ghost use Rattle.scenario.specs.Inner.Walk.{wall_among};

use refusals::board::{Judged, judge_start, nothing_judged};
use scenario::START;
use scenario::runs::{pass, slow_near};
use scenario::starts::start_at;

// The starts on a board of n cells, as if it had no walls: these are looked for where the starts rise.
#[tactic(auto, using(crate::proofs::StartWalk::judging))]
pub fn judge_unwalled(file: &[u8], base: usize, count: usize, n: usize) -> Judged
    requires { base + start_size * count ≤ length file.now }
    ensures { result ≡ judge_by n unwalled (records start_size start_in count (drop base file.now)) nothing_judged }
{
    let mut judged = nothing_judged();
    for i in 0..count {
        let start = start_at(file, base + START * i);
        judged = judge_start(n, 1, start.cell, start.time, judged);
    }
    judged
}

// Whether a start lies on a wall. Starts and runs both rise by cell: one walk over both finds the run of each start.
#[tactic(auto, using(crate::proofs::StartWalk::walling))]
pub fn starts_on_wall(file: &[u8], runs: usize, base: usize, count: usize, ground: u32) -> bool
    requires room { (runs_end runs ≤ length file.now) × (base + start_size * count ≤ length file.now) }
    requires rise { starts_rise (size (held file.now)) 0 (records start_size start_in count (drop base file.now)) ≡ true }
    ensures { result ≡ wall_among ground (records run_size run_in runs (drop head_size file.now))
        (records start_size start_in count (drop base file.now)) }
{
    let mut run = 0;
    for i in 0..count {
        let cell = start_at(file, base + START * i).cell as usize;
        run = pass(file, runs, run, cell);
        if slow_near(file, runs, run, cell, ground) == 0 {
            return true;
        }
    }
    false
}
