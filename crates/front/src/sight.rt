// What a cell sees of its neighbours, and what the local rule gives it from that.
ghost use Rattle.std.specs.Prelude.{◌≡◌, ◌+◌, ◌-◌, ◌*◌, ◌≤◌, min, length};
ghost use Rattle.eikonal.specs.Tiles.{counts_as};
ghost use Rattle.front.specs.Seams.{across};
ghost use Rattle.front.specs.Board.{both_seen, tentative, Sees};
ghost use Rattle.front.specs.Scene.{land_of, rule_of, IsSite, SeesOver};

use super::Site;
use super::scene::Scene;
use super::seams::{EDGE, INSIDE, seam_over, seam_under};
use arrival::{of_equal, of_three, of_unequal};
use eikonal::NEVER;

// What the cell c sees of the cell that is `more` on and `less` back, across a seam.
#[tactic(auto, unfolding(crate::specs::Seams::across))]
fn see(scene: &Scene, work: &[u32], c: usize, less: usize, more: usize, seam: u8) -> u32
    requires { SeesOver scene.now work.now c less more seam }
    ensures { result ≡ across seam (tentative work.now scene.now.shape.cells (c + more - less))
        (counts_as (land_of scene.now) scene.now.times.now (c + more - less)) }
{
    if seam == EDGE {
        return NEVER;
    }
    let e = c + more - less;
    if seam == INSIDE {
        let at = 2 * scene.shape.cells + e;
        return work[at];
    }
    scene.ghost_time(e)
}

// The earlier of what it sees along an axis, of the cells that are a step back and a step on, across the seams before and behind it.
fn along(scene: &Scene, work: &[u32], c: usize, step: usize, before: u8, behind: u8) -> u32
    requires { SeesOver scene.now work.now c step 0 before × SeesOver scene.now work.now c 0 step behind }
    ensures { result ≡ both_seen (land_of scene.now) scene.now.times.now (tentative work.now scene.now.shape.cells) c step before behind }
{
    let back = see(scene, work, c, step, 0, before);
    let on = see(scene, work, c, 0, step, behind);
    back.min(on)
}

// What the local rule gives a cell of a house, whose pairs are equal.
#[tactic(auto, using(crate::proofs::Theory::Reading::on_ground))]
fn house_rule(scene: &Scene, work: &[u32], site: Site, limit: u32) -> u32
    requires { IsSite scene.now site × (4 * scene.now.shape.cells ≤ length work.now) × (2 ≤ scene.now.shape.storeys) }
    ensures { result ≡ min limit (rule_of scene.now site.cell (tentative work.now scene.now.shape.cells)) }
{
    let Site { cell: c, row, col } = site;
    let w = scene.shape.width;
    let across = along(scene, work, c, 1, scene.cols[col], scene.cols[col + 1]);
    let down = along(scene, work, c, w, scene.rows[row], scene.rows[row + 1]);
    let area = w * scene.shape.height as usize;
    let stack = along(
        scene,
        work,
        c,
        area,
        seam_under(area, c),
        seam_over(scene.shape.cells, area, c),
    );
    of_three(limit, scene.slow[c] % 65536, across, down, stack)
}

// What the local rule gives the cell at a site, at most the limit. On a flat board nothing is under or over it.
#[tactic(auto, using(crate::proofs::Theory::Reading::on_ground))]
pub fn rule(scene: &Scene, work: &[u32], site: Site, limit: u32) -> u32
    requires { IsSite scene.now site × (4 * scene.now.shape.cells ≤ length work.now) }
    ensures { result ≡ min limit (rule_of scene.now site.cell (tentative work.now scene.now.shape.cells)) }
{
    if scene.shape.storeys > 1 {
        return house_rule(scene, work, site, limit);
    }
    let Site { cell: c, row, col } = site;
    let w = scene.shape.width;
    let across = along(scene, work, c, 1, scene.cols[col], scene.cols[col + 1]);
    let down = along(scene, work, c, w, scene.rows[row], scene.rows[row + 1]);
    let s = scene.slow[c];
    let g = s % 65536;
    let h = s / 65536;
    if g == h {
        return of_equal(limit, g, across, down);
    }
    of_unequal(limit, g, h, across, down)
}
