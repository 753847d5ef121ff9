// The end of a round, the ghost exchange: the times of the cells taken are stored, and cells of other tiles hear of them.
ghost use Rattle.std.specs.Prelude.{◌≡◌, ℕ, ◌*◌, ◌<◌, ◌≤◌, length};
ghost use Rattle.eikonal.specs.Board.{time};
ghost use Rattle.front.specs.Front.{Written};
ghost use Rattle.front.specs.Seams.{border};
ghost use Rattle.front.specs.Board.{tentative, noted, at};
ghost use Rattle.front.specs.State.{Held, Announced};
ghost use Rattle.front.specs.Scene.{rule_of, near_of};

use super::scene::Scene;

// Stores the times of the m cells that are noted.
pub fn store(times: &mut [u32], work: &[u32], n: usize, m: usize)
    requires { (m ≤ n) × (n ≤ 65536) × (length times.old ≡ n) × (4 * n ≤ length work.now) × ((i : ℕ) → i < m → noted work.now n i < n) }
    ensures { (length times.new ≡ length times.old)
        × Written n (time times.old) (tentative work.now n) (time times.new) m (noted work.now n) }
{
    for note in &work[3 * n..3 * n + m] {
        let c = *note as usize;
        times[c] = work[2 * n + c];
    }
}

// The neighbours in other tiles of the m cells that are noted hear of them, each with its stored time. Answers how many cells are then pending.
pub fn announce(scene: &Scene, work: &mut [u32], size: usize, m: usize) -> usize
    requires { let n = scene.now.shape.cells in
        Held n (at work.old size) × (m ≤ n) × ((i : ℕ) → i < m → noted work.old n i < n) }
    ensures { let n = scene.now.shape.cells in
        Announced n (rule_of scene.now) (time scene.now.times.now) (noted work.old n) (near_of scene.now border) m (at work.old size)
        (at work.new result) }
{
    let n = scene.shape.cells;
    let mut pending = size;
    for i in 0..m {
        let c = work[3 * n + i] as usize;
        pending = super::spread::tell_others(scene, work, pending, c, scene.times[c]);
    }
    pending
}
