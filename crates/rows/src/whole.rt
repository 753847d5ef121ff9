// The times of a whole board, written up to a bound.
ghost use Rattle.std.specs.Prelude.{◌≡◌, ◌*◌, ◌≤◌, ◌<◌, length};
ghost use Rattle.eikonal.specs.Board.{never};
ghost use Rattle.eikonal.specs.Inner.Clip.{clip};
ghost use Rattle.rows.specs.Lists.{Finished};

use eikonal::NEVER;

// A time up to the bound, else never.
pub fn clip(t: u32, bound: u32) -> u32
    ensures { result ≡ clip bound t }
{
    if t <= bound { t } else { NEVER }
}

// Writes the tentative times up to the bound, and counts the cells reached. No way out of the loop, so that several are compared at a time.
pub fn finish(work: &[u32], times: &mut [u32], n: usize, bound: u32) -> u32
    requires { (length times.old ≡ n) × (3 * n ≤ length work.now) × (n ≤ 65536) × (bound < never) }
    ensures { Finished bound n work.now times.new result }
{
    let mut count = 0;
    for (c, time) in times.iter_mut().enumerate() {
        let t = work[2 * n + c];
        *time = clip(t, bound);
        count += u32::from(t <= bound);
    }
    count
}
