// Cells hear of a neighbour's time, and are lowered to what the local rule then gives them. Each function answers how many cells are then pending.
ghost use Rattle.std.specs.Prelude.{◌≡◌, ℕ, ◌+◌, ◌-◌, ◌<◌, ◌≤◌, true, ◌⊎◌, [], ◌∷◌, ◌==◌};
ghost use Rattle.front.specs.Seams.{border, inside, least_seam, hearer, near_on, stack_cut};
ghost use Rattle.front.specs.Board.{tentative, at};
ghost use Rattle.front.specs.State.{Held, Touched, Told};
ghost use Rattle.front.specs.Scene.{land_of, rule_of, near_of, IsSite, IsStep};

use super::scene::Scene;
use super::seams::{BORDER, INSIDE, seam_over, seam_under};
use super::{Site, Step};
use eikonal::NEVER;

// Lowers the cell at a site to what the rule gives it, if that is earlier. A cell that has had no time yet is new to the queue.
pub fn relax(scene: &Scene, work: &mut [u32], size: usize, site: Site) -> usize
    requires { IsSite scene.now site × Held scene.now.shape.cells (at work.old size) }
    ensures { let n = scene.now.shape.cells in
        (t : ℕ) → (t ≡ 0) ⊎ (t < tentative work.old n site.cell)
        → Touched n (rule_of scene.now) t site.cell (at work.old size) (at work.new result) }
{
    let n = scene.shape.cells;
    let at = 2 * n + site.cell;
    let y = work[at];
    let x = super::sight::rule(scene, work, site, y);
    if x < y {
        work[at] = x;
        if y == NEVER {
            return queue::insert(work, size, n, site.cell, x);
        }
        return queue::lower(work, size, n, site.cell, x);
    }
    size
}

// The cell at a site, if it is there, hears of a cell whose time is t. One that is no later, and a wall, need not be looked at.
// No Option<Site>: with one a corridor's march takes a fifth longer.
#[tactic(auto, using(crate::proofs::Theory::Reading::on_ground))]
fn touch(scene: &Scene, work: &mut [u32], size: usize, site: Site, t: u32, there: bool) -> usize
    requires { Held scene.now.shape.cells (at work.old size) × (there ≡ true → IsSite scene.now site) }
    ensures { let n = scene.now.shape.cells in
        Touched n (rule_of scene.now) t (hearer n there site.cell) (at work.old size) (at work.new result) }
{
    if !there {
        return size;
    }
    let at = 2 * scene.shape.cells + site.cell;
    if work[at] <= t {
        return size;
    }
    if scene.slow[site.cell] == 0 {
        return size;
    }
    relax(scene, work, size, site)
}

// One step back; off the board the difference wraps.
fn back(x: usize, step: usize) -> usize
    ensures { step ≤ x → x ≡ result + step }
{
    std::num::wrapping_sub_usize(x, step)
}

// Those a step before and behind a site along an axis hear of it, where they are there. LLVM compiles this into each caller, and would not if there
// were more of it: as calls it costs a corridor's march half as many instructions again.
pub fn tell_along(
    scene: &Scene,
    work: &mut [u32],
    size: usize,
    site: Site,
    t: u32,
    step: Step,
    before: bool,
    behind: bool,
) -> usize
    requires { Held scene.now.shape.cells (at work.old size) × IsStep scene.now site step before behind }
    ensures { let n = scene.now.shape.cells in
        Told n (rule_of scene.now) t (hearer n before (site.cell - step.cells) ∷ hearer n behind (site.cell + step.cells) ∷ [])
        (at work.old size) (at work.new result) }
{
    let prior = Site {
        cell: back(site.cell, step.cells),
        row: back(site.row, step.rows),
        col: back(site.col, step.cols),
    };
    let told = touch(scene, work, size, prior, t, before);
    let next = Site {
        cell: site.cell + step.cells,
        row: site.row + step.rows,
        col: site.col + step.cols,
    };
    touch(scene, work, told, next, t, behind)
}

// Those under and over c hear of it: they are of its tile. Its row and column are worked out again, so that nothing is held for houses alone.
pub fn tell_stack(scene: &Scene, work: &mut [u32], size: usize, c: usize, t: u32) -> usize
    requires { Held scene.now.shape.cells (at work.old size) × (c < scene.now.shape.cells) }
    ensures { let n = scene.now.shape.cells in
        Told n (rule_of scene.now) t (near_on (stack_cut (land_of scene.now) ∷ []) n inside c) (at work.old size) (at work.new result) }
{
    let h = scene.shape.height as usize;
    let area = scene.shape.width * h;
    let over = Step {
        cells: area,
        rows: h,
        cols: 0,
    };
    tell_along(
        scene,
        work,
        size,
        scene.site(c),
        t,
        over,
        seam_under(area, c) == INSIDE,
        seam_over(scene.shape.cells, area, c) == INSIDE,
    )
}

// Whether all four seams around a cell on its storey are inside its tile, as those between storeys are. An inside seam is the greatest, so that one
// branch is compiled.
pub fn inner(scene: &Scene, row: usize, col: usize) -> bool
    requires { (row < 2048) × (col < 256) }
    ensures { result ≡ (least_seam scene.now.cols.now scene.now.rows.now row col == inside) }
{
    let beside = scene.cols[col].min(scene.cols[col + 1]);
    let over = scene.rows[row].min(scene.rows[row + 1]);
    beside.min(over) == INSIDE
}

// The neighbours of c in other tiles, which are on its storey, hear of it. Most cells have none.
#[tactic(auto, using(crate::proofs::Theory::Reading::on_ground))]
pub fn tell_others(scene: &Scene, work: &mut [u32], size: usize, c: usize, t: u32) -> usize
    requires { Held scene.now.shape.cells (at work.old size) × (c < scene.now.shape.cells) }
    ensures { Told scene.now.shape.cells (rule_of scene.now) t (near_of scene.now border c) (at work.old size) (at work.new result) }
{
    let site = scene.site(c);
    if inner(scene, site.row, site.col) {
        return size;
    }
    let along_row = Step {
        cells: 1,
        rows: 0,
        cols: 1,
    };
    let across = tell_along(
        scene,
        work,
        size,
        site,
        t,
        along_row,
        scene.cols[site.col] == BORDER,
        scene.cols[site.col + 1] == BORDER,
    );
    let down_column = Step {
        cells: scene.shape.width,
        rows: 1,
        cols: 0,
    };
    tell_along(
        scene,
        work,
        across,
        site,
        t,
        down_column,
        scene.rows[site.row] == BORDER,
        scene.rows[site.row + 1] == BORDER,
    )
}
