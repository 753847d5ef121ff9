// Rows of a single round, begun: every cell with a neighbour in another tile hears the stored times. Within a tile nothing is to be heard yet.
ghost use Rattle.std.specs.Prelude.{ℕ, suc, ◌*◌, ◌<◌, ◌≤◌};
ghost use Rattle.front.specs.Board.{Work, at};
ghost use Rattle.front.specs.State.{Held};
ghost use Rattle.front.specs.Scene.{WokenIn};

use super::Site;
use super::scene::Scene;

// After the cells of the rows before, those of a row.
fn wake_row(scene: &Scene, work: &mut [u32], size: usize, row: usize) -> usize
    requires { Held scene.now.shape.cells (at work.old size) × (row < scene.now.shape.height * scene.now.shape.storeys) }
    ensures { let w = scene.now.shape.width in
        (lo : ℕ) → (v : Work) → lo ≤ row * w → WokenIn scene.now lo (row * w) v (at work.old size)
        → WokenIn scene.now lo (suc row * w) v (at work.new result) }
{
    let w = scene.shape.width;
    let first = row * w;
    let mut pending = size;
    for col in 0..w {
        if !super::spread::inner(scene, row, col) {
            let site = Site {
                cell: first + col,
                row,
                col,
            };
            pending = super::spread::relax(scene, work, pending, site);
        }
    }
    pending
}

// The rows from `from` up to `end`, one after the other.
pub fn wake(scene: &Scene, work: &mut [u32], size: usize, from: usize, end: usize) -> usize
    requires { Held scene.now.shape.cells (at work.old size) × (from ≤ end) × (end ≤ scene.now.shape.height * scene.now.shape.storeys) }
    ensures { WokenIn scene.now (from * scene.now.shape.width) (end * scene.now.shape.width) (at work.old size) (at work.new result) }
{
    let mut pending = size;
    for row in from..end {
        pending = wake_row(scene, work, pending, row);
    }
    pending
}
