// The slownesses of a board, from the ground and the runs in a file that was judged.
ghost use Rattle.std.specs.Prelude.{◌≡◌, true, ◌++◌, ◌+◌, ◌-◌, ◌≤◌, length, take, replicate};
ghost use Rattle.scenario.specs.Runs.{painted, runs_good};
ghost use Rattle.scenario.specs.File.{runs_end, head_in, runs_in};

use scenario::runs::{run_at, run_end};
use scenario::{HEAD, Head, RUN, Run};

// Ground up to a run, and then the run.
fn paint(slow: &mut [u32], from: usize, ground: u32, x: Run)
    requires { (from ≤ x.offset) × (x.offset + x.long ≤ length slow.old) }
    ensures { take (x.offset + x.long) slow.new
        ≡ take from slow.old ++ (replicate (x.offset - from) ground ++ replicate x.long x.slow) }
{
    let offset = x.offset as usize;
    slow[from..offset].fill(ground);
    slow[offset..run_end(x)].fill(x.slow);
}

// A list as long as the board has cells.
pub fn read_slow(file: &[u8], head: Head, slow: &mut [u32])
    requires head { («head» ≡ head_in file.now) × (runs_end «head».runs ≤ length file.now) }
    requires runs { runs_good (length slow.old) «head».ground 0 «head».ground (runs_in file.now) ≡ true }
    ensures { slow.new ≡ painted «head».ground 0 (length slow.old) (runs_in file.now) }
{
    let mut free = 0;
    for i in 0..head.runs as usize {
        let x = run_at(file, HEAD + RUN * i);
        paint(slow, free, head.ground, x);
        free = run_end(x);
    }
    slow[free..].fill(head.ground);
}
