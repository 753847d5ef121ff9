// A single round of a flat board is worked out strip by strip, a strip being the rows of a row of tiles: none of its cells sees a tentative time of
// another strip. So the queue holds the cells of one strip at a time, and stays small. A house, whose tiles span all storeys, is one strip. What is
// pending past the bound is left behind: the round has no use for it.
ghost use Rattle.std.specs.Prelude.{◌*◌, ◌<◌, ◌≤◌};
ghost use Rattle.eikonal.specs.Board.{never};
ghost use Rattle.front.specs.State.{Placed, Strip, Worked};
ghost use Rattle.front.specs.Scene.{rule_of};

use super::scene::Scene;

// The rows from `from` up to `end`.
fn drain_strip(scene: &Scene, work: &mut [u32], from: usize, end: usize, bound: u32)
    requires { Strip scene.now.shape scene.now.slow.now from end × Placed scene.now.shape.cells work.old × (bound < never) }
    ensures { let s = scene.now.shape in
        Worked s.cells (rule_of scene.now) bound (from * s.width) (end * s.width) work.old work.new }
{
    let n = scene.shape.cells;
    let w = scene.shape.width;
    let size = super::seed::gather(work, n, from * w, end * w);
    let pending = super::wake::wake(scene, work, size, from, end);
    super::drain::drain(scene, work, pending, bound);
}

// All strips, from the top.
pub fn drain_strips(scene: &Scene, work: &mut [u32], bound: u32)
    requires { Placed scene.now.shape.cells work.old × (scene.now.shape.down ≤ 256) × (bound < never) }
    ensures { Worked scene.now.shape.cells (rule_of scene.now) bound 0 scene.now.shape.cells work.old work.new }
{
    let h = scene.shape.height as usize;
    let down = scene.shape.down as usize;
    if scene.shape.storeys > 1 {
        drain_strip(scene, work, 0, h * (scene.shape.storeys as usize), bound);
        return;
    }
    for row in (0..h).step_by(down) {
        let end = (row + down).min(h);
        drain_strip(scene, work, row, end, bound);
    }
}

// The same where one tile covers the board, so that no cell sees a stored time.
pub fn drain_tile(scene: &Scene, work: &mut [u32], bound: u32)
    requires { let s = scene.now.shape in
        Placed s.cells work.old × (s.width ≤ s.across) × (s.height ≤ s.down) × (bound < never) }
    ensures { Worked scene.now.shape.cells (rule_of scene.now) bound 0 scene.now.shape.cells work.old work.new }
{
    let n = scene.shape.cells;
    let size = super::seed::gather(work, n, 0, n);
    super::drain::drain(scene, work, size, bound);
}
