// Whether an order of tiles names each of a board's tiles once.
#![tactic(auto)]

ghost use Rattle.std.specs.Prelude.{◌≡◌, [], ◌≤◌, length};
ghost use Rattle.eikonal.specs.Board.{board_of};
ghost use Rattle.eikonal.specs.Tiles.{up};
ghost use Rattle.eikonal.specs.Refusals.{all_there, order_good};
ghost use Rattle.tile_orders.specs.Orders.{all_below, part_there, marked, Noted};

// How many tile numbers are looked for at a time.
const PART: usize = 8192;

// Marks the number x in the part that begins at `from`, if it lies there.
fn note(seen: &mut [u8; 8192], from: usize, x: u32)
    requires { length seen.old ≡ 8192 }
    ensures { Noted from x seen.old seen.new }
{
    let n = x as usize;
    if n < from {
        return;
    }
    let at = n - from;
    if at >= PART {
        return;
    }
    seen[at] = 1;
}

// Whether the first entries are all marked.
fn all_marked(seen: &[u8; 8192], many: usize) -> bool
    requires { many ≤ 8192 }
    ensures { result ≡ all_below many (λ j. marked seen.now j) }
{
    seen[..many].iter().all(|mark| *mark == 1)
}

// Whether the order has so many tile numbers, from the given one on.
fn part_there(order: &[u32], from: usize, many: usize) -> bool
    requires { many ≤ 8192 }
    ensures { result ≡ part_there from many order.now }
{
    let mut seen = [0u8; 8192];
    for tile in order {
        note(&mut seen, from, *tile);
    }
    all_marked(&seen, many)
}

// Whether the order has every number below `count`. The marks take 8 KiB, so more than 8,192 numbers take more than one look at the order.
fn all_there(order: &[u32], count: usize) -> bool
    ensures { result ≡ all_there count order.now }
{
    for part in 0..count.div_ceil(PART) {
        let from = part * PART;
        let many = (count - from).min(PART);
        if !part_there(order, from, many) {
            return false;
        }
    }
    true
}

// How many tiles of a side lie along so many cells.
pub fn tiles_along(cells: u32, side: u32) -> u32
    requires { (cells ≤ 256) × (1 ≤ side) × (side ≤ 256) }
    ensures { result ≡ up cells side }
{
    (cells + side - 1) / side
}

// Whether the order has each of the board's tile numbers once. Of the board the sides matter here.
pub fn order_good(width: u32, height: u32, across: u32, down: u32, order: &[u32]) -> bool
    requires { (width ≤ 256) × (height ≤ 256) × (1 ≤ across) × (across ≤ 256) × (1 ≤ down) × (down ≤ 256) }
    ensures { result ≡ order_good (board_of width height 1 [] []) across down order.now }
{
    let count = (tiles_along(width, across) * tiles_along(height, down)) as usize;
    if order.len() != count {
        return false;
    }
    all_there(order, count)
}
