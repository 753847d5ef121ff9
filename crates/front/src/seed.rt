// The beginning of a round: every tentative time is never, then the starts are placed; those that have a time are gathered in the queue.
ghost use Rattle.std.specs.Prelude.{◌≡◌, ℕ, ◌*◌, ◌<◌, ◌≤◌, [], ◌∷◌, length, get_or};
ghost use Rattle.eikonal.specs.Handing.{no_start};
ghost use Rattle.front.specs.Board.{at};
ghost use Rattle.front.specs.State.{Placed, Seeded, Empty, Gathered};

use eikonal::starts::Starts;
use eikonal::{NEVER, Start};

// No cell has a time.
pub fn empty(work: &mut [u32], n: usize)
    requires { (n ≤ 65536) × (4 * n ≤ length work.old) }
    ensures { Empty n work.old work.new }
{
    queue::lists::fill(work, 2 * n, 3 * n, NEVER);
}

// A front begins at the start's cell at its time, unless one is there by then.
fn place(work: &mut [u32], n: usize, start: Start)
    requires { (start.cell < n) × Placed n work.old }
    ensures { Seeded n (start ∷ []) work.old work.new }
{
    let at = 2 * n + start.cell as usize;
    work[at] = work[at].min(start.time);
}

// All starts, one after the other.
pub fn seed<S: Starts>(work: &mut [u32], n: usize, starts: S)
    requires { (n ≤ 65536) × Placed n work.old
        × ((i : ℕ) → i < length (S.all starts) → (get_or (S.all starts) i no_start).cell < n) }
    ensures { Seeded n (S.all starts) work.old work.new }
{
    for i in 0..starts.many() {
        place(work, n, starts.at(i));
    }
}

// Of the cells from `from` up to `end` every one that has a time is pending with it, and no other cell is. Answers how many there are.
pub fn gather(work: &mut [u32], n: usize, from: usize, end: usize) -> usize
    requires { (n ≤ 65536) × (from ≤ end) × (end ≤ n) × Placed n work.old }
    ensures { Gathered n from end work.old (at work.new result) }
{
    let mut size = 0;
    for c in from..end {
        let t = work[2 * n + c];
        if t < NEVER {
            size = queue::insert(work, size, n, c, t);
        }
    }
    size
}
