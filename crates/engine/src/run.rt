// A tile run: rounds one after the other, with leaps over those that come before the least key.
ghost use Rattle.std.specs.Prelude.{◌≡◌, ◌≤◌, min};
ghost use Rattle.front.specs.Board.{at};
ghost use Rattle.engine.specs.Tiling.{GroundIn, AmidIn, RoundsOnIn, RunsIn};

use super::tiling::Tiling;
use front::drain::Taken;
use front::scene::Scene;

fn at_most(rounds: u32, limit: u64) -> u32
    ensures { result ≡ min rounds limit }
{
    limit.min(rounds as u64) as u32
}

// Works out the round after `done` rounds: the times are then those after one round more. Answers how many cells were taken, and how many are pending.
fn round(tiling: &Tiling, times: &mut [u32], work: &mut [u32], size: usize, done: u32) -> Taken
    requires { GroundIn tiling.now times.old × AmidIn tiling.now done times.old (at work.old size) × (done ≤ 1000000000) }
    ensures { RoundsOnIn tiling.now done result.cells times.old times.new (at work.old size) (at work.new result.pending) }
{
    let bound = tiling.bound_after(done);
    let before = Scene {
        slow: tiling.slow,
        times,
        cols: tiling.cols,
        rows: tiling.rows,
        shape: tiling.shape,
    };
    let taken = front::drain::drain(&before, work, size, bound);
    let m = taken.cells;
    front::commit::store(times, work, tiling.shape.cells, m);
    let after = Scene {
        slow: tiling.slow,
        times,
        cols: tiling.cols,
        rows: tiling.rows,
        shape: tiling.shape,
    };
    let pending = front::commit::announce(&after, work, taken.pending, m);
    Taken { cells: m, pending }
}

// Works rounds out, or leaps over them, until a round at the horizon alters nothing or the limit of rounds is reached. Answers how many there are:
// whatever the limit, the times are those after so many.
pub fn run(tiling: &Tiling, times: &mut [u32], work: &mut [u32], size: usize, limit: u64) -> u32
    requires { GroundIn tiling.now times.old × AmidIn tiling.now 0 times.old (at work.old size) }
    ensures { RunsIn tiling.now limit result times.old times.new (at work.old size) work.new }
{
    let n = tiling.shape.cells;
    let mut pending = size;
    let mut done = 0;
    // no range: a leap passes over rounds
    while (done as u64) < limit {
        let taken = round(tiling, times, work, pending, done);
        pending = taken.pending;
        done += 1;
        if taken.cells == 0 {
            if tiling.at_horizon(done) {
                return done;
            }
        }
        let least = queue::least_key(work, pending, n);
        done = at_most(tiling.leap(least, done), limit);
    }
    done
}
