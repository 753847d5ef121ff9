// The writing of a single round: tile by tile in the order given, each row of a tile lent on as a part of the times.
ghost use Rattle.std.specs.Prelude.{◌≡◌, true, [], ◌+◌, ◌*◌, ◌≤◌, ◌<◌, length, get_or};
ghost use Rattle.eikonal.specs.Refusals.{order_good};
ghost use Rattle.eikonal.specs.Inner.Clip.{clip};
ghost use Rattle.front.specs.Board.{land};
ghost use Rattle.rows.specs.Lists.{due};
ghost use Rattle.rows.specs.Rows.{Entered, Everywhere, Block, Pillar, tile_in, Fitting, Wrote};

use super::whole::clip;
use front::Shape;

// The leaf: writes each time up to the bound, else never, and counts the entries that were another number. No way out of the loop, so that
// several are compared at a time.
fn fill_row(row: &mut [u32], from: &[u32], bound: u32) -> u32
    requires { (length row.old ≡ length from.now) × (length from.now ≤ 65536) }
    ensures { Entered Everywhere (λ c. clip bound (get_or from.now c 0)) row.old row.new result }
{
    let mut count = 0;
    for (column, time) in row.iter_mut().enumerate() {
        let t = clip(from[column], bound);
        count += u32::from(*time != t);
        *time = t;
    }
    count
}

// A row's cells from the column `left` up to `right`, lent on for writing.
fn write_row(
    times: &mut [u32],
    work: &[u32],
    shape: Shape,
    row: usize,
    left: usize,
    right: usize,
    bound: u32,
) -> u32
    requires { Fitting shape times.old work.now × (row < shape.height * shape.storeys) × (left ≤ right) × (right ≤ shape.width) }
    ensures { Entered (Block shape.width row (row + 1) left right) (due bound work.now shape.cells)
        times.old times.new result }
{
    let w = shape.width;
    let n = shape.cells;
    let a = row * w + left;
    let e = row * w + right;
    let from = 2 * n + a;
    let end = 2 * n + e;
    fill_row(&mut times[a..e], &work[from..end], bound)
}

// The rows from `top` up to `bottom`, numbered through all storeys.
fn write_rows(
    times: &mut [u32],
    work: &[u32],
    shape: Shape,
    top: usize,
    bottom: usize,
    left: usize,
    right: usize,
    bound: u32,
) -> u32
    requires { Fitting shape times.old work.now × (bottom ≤ shape.height * shape.storeys) × (left ≤ right) × (right ≤ shape.width) }
    ensures { Entered (Block shape.width top bottom left right) (due bound work.now shape.cells)
        times.old times.new result }
{
    let mut count = 0;
    for row in top..bottom {
        count += write_row(times, work, shape, row, left, right, bound);
    }
    count
}

// The rows from `top` up to `bottom` of every storey.
fn write_storeys(
    times: &mut [u32],
    work: &[u32],
    shape: Shape,
    top: usize,
    bottom: usize,
    left: usize,
    right: usize,
    bound: u32,
) -> u32
    requires { Fitting shape times.old work.now × (top ≤ 1099511627776) × (bottom ≤ shape.height) × (left ≤ right) × (right ≤ shape.width) }
    ensures { Entered (Pillar shape.width shape.height top bottom left right) (due bound work.now shape.cells)
        times.old times.new result }
{
    let h = shape.height as usize;
    let mut count = 0;
    for storey in 0..shape.storeys as usize {
        let first = storey * h;
        count += write_rows(
            times,
            work,
            shape,
            first + top,
            first + bottom,
            left,
            right,
            bound,
        );
    }
    count
}

// A tile, cut at the board's edge. It spans all storeys.
fn write_tile(times: &mut [u32], work: &[u32], shape: Shape, tile: u32, bound: u32) -> u32
    requires { Fitting shape times.old work.now }
    ensures { Entered (λ c. tile_in shape c ≡ tile) (due bound work.now shape.cells) times.old times.new result }
{
    let w = shape.width;
    let across = shape.across as usize;
    let down = shape.down as usize;
    let in_a_row = (w + across - 1) / across;
    let t = tile as usize;
    let top = t / in_a_row * down;
    let left = t % in_a_row * across;
    let bottom = (top + down).min(shape.height as usize);
    let right = (left + across).min(w);
    write_storeys(times, work, shape, top, bottom, left, right, bound)
}

// Every tile, in the order given.
pub fn write_tiles(times: &mut [u32], work: &[u32], shape: Shape, order: &[u32], bound: u32) -> u32
    requires { Fitting shape times.old work.now × (order_good (land shape []) shape.across shape.down order.now ≡ true) }
    ensures { Wrote shape bound work.now times.old times.new result }
{
    let mut count = 0;
    for tile in order {
        count += write_tile(times, work, shape, *tile, bound);
    }
    count
}
