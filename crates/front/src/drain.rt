// The narrow band is drained up to a bound: pending cells are taken (accepted), the least first, and their tiles hear of them.
ghost use Rattle.std.specs.Prelude.{◌≡◌, ℕ, ◌<◌};
ghost use Rattle.eikonal.specs.Board.{never};
ghost use Rattle.queue.specs.Heap.{key};
ghost use Rattle.front.specs.Seams.{inside};
ghost use Rattle.front.specs.Front.{among};
ghost use Rattle.front.specs.Board.{at};
ghost use Rattle.front.specs.State.{Held, Took, Drained};
ghost use Rattle.front.specs.Scene.{rule_of, near_of, ReadyIn, SomeReadyIn};

use super::Step;
use super::scene::Scene;
use super::seams::INSIDE;
use super::spread::{tell_along, tell_stack};

// How many cells a drain took, and how many are then pending.
#[derive(Clone, Copy)]
pub struct Taken {
    pub cells: usize,
    pub pending: usize,
}

// Takes a cell whose key, t, is the least, and notes it as the m-th. Answers how many cells are then pending.
#[tactic(auto, using(crate::proofs::Theory::Reading::on_ground))]
fn take(scene: &Scene, work: &mut [u32], size: usize, m: usize, t: u32) -> usize
    requires { Held scene.now.shape.cells (at work.old size) × (0 < size) × (m < scene.now.shape.cells) × (t ≡ key work.old 0) }
    ensures { Took scene.now.shape.cells m (rule_of scene.now) (near_of scene.now inside) (at work.old size) (at work.new result) }
{
    let n = scene.shape.cells;
    let c = queue::first(work, size, n);
    let left = queue::remove_first(work, size, n);
    let at = 3 * n + m;
    work[at] = c as u32;
    let site = scene.site(c);
    let along_row = Step {
        cells: 1,
        rows: 0,
        cols: 1,
    };
    let across = tell_along(
        scene,
        work,
        left,
        site,
        t,
        along_row,
        scene.cols[site.col] == INSIDE,
        scene.cols[site.col + 1] == INSIDE,
    );
    let down_column = Step {
        cells: scene.shape.width,
        rows: 1,
        cols: 0,
    };
    let pending = tell_along(
        scene,
        work,
        across,
        site,
        t,
        down_column,
        scene.rows[site.row] == INSIDE,
        scene.rows[site.row + 1] == INSIDE,
    );
    if scene.shape.storeys > 1 {
        return tell_stack(scene, work, pending, c, t);
    }
    pending
}

// Takes every pending cell up to the bound.
pub fn drain(scene: &Scene, work: &mut [u32], size: usize, bound: u32) -> Taken
    requires { SomeReadyIn scene.now (at work.old size) × (bound < never) }
    ensures { (lo hi : ℕ) → ReadyIn scene.now lo hi (at work.old size)
        → Drained scene.now.shape.cells bound result.cells (among lo hi (rule_of scene.now)) (at work.old size) (at work.new result.pending) }
{
    let n = scene.shape.cells;
    let mut m = 0;
    let mut pending = size;
    // no range: how many cells there are to take is known only when none is left up to the bound
    loop {
        let t = queue::least_key(work, pending, n);
        if t > bound {
            return Taken { cells: m, pending };
        }
        pending = take(scene, work, pending, m, t);
        m += 1;
    }
}
