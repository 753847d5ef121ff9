// Seams: what lies before each column, or each row; rows are numbered through all storeys, and so are their seams. An inside seam parts two cells of
// one tile.
ghost use Rattle.std.specs.Prelude.{◌≡◌, ◌≤◌};
ghost use Rattle.front.specs.Seams.{seam, mark_under, mark_over};
ghost use Rattle.front.specs.Board.{Marked};

use super::Shape;

pub const EDGE: u8 = 0;

pub const BORDER: u8 = 1;

pub const INSIDE: u8 = 2;

const LAST: usize = 2049;

const MANY: usize = 2050;

// Of up to 2,048 columns or rows, as they are numbered. Behind them stand the number of columns or rows, less 1, and how many times over they are laid:
// so whoever is lent seams alone can tell a house.
pub type Seams = [u8; 2051];

#[tactic(auto, unfolding(crate::specs::Seams::seam))]
fn seam(count: usize, side: usize, i: usize) -> u8
    requires { (1 ≤ count) × (1 ≤ side) }
    ensures { result ≡ seam count side i }
{
    let place = i % count;
    if place == 0 {
        return EDGE;
    }
    if place % side == 0 {
        return BORDER;
    }
    INSIDE
}

// The seams of so many columns or rows, with tiles of the given side, so many times over: as many as storeys for rows.
pub fn lay(count: usize, side: usize, many: usize) -> Seams
    requires { (1 ≤ side) × (1 ≤ count) × (count ≤ 256) × (many ≤ 8) × (1 ≤ many) }
    ensures { Marked count side many result }
{
    let mut laid = [EDGE; 2051];
    let last = count * many;
    for (i, mark) in laid[..=last].iter_mut().enumerate() {
        *mark = seam(count, side, i);
    }
    laid[LAST] = (count - 1) as u8;
    laid[MANY] = many as u8;
    laid
}

// The seams of a board's columns, and those of its rows.
pub fn lay_columns(shape: Shape) -> Seams
    requires { (1 ≤ shape.width) × (shape.width ≤ 256) × (1 ≤ shape.across) }
    ensures { Marked shape.width shape.across 1 result }
{
    lay(shape.width, shape.across as usize, 1)
}

pub fn lay_rows(shape: Shape) -> Seams
    requires { (1 ≤ shape.height) × (shape.height ≤ 256) × (1 ≤ shape.down) × (1 ≤ shape.storeys) × (shape.storeys ≤ 8) }
    ensures { Marked shape.height shape.down shape.storeys result }
{
    lay(
        shape.height as usize,
        shape.down as usize,
        shape.storeys as usize,
    )
}

// The seams between a cell and those under and over it: tiles span all storeys.
pub fn seam_under(area: usize, c: usize) -> u8
    ensures { result ≡ mark_under area c }
{
    if c < area { EDGE } else { INSIDE }
}

pub fn seam_over(n: usize, area: usize, c: usize) -> u8
    requires { (c ≤ 65536) × (area ≤ 65536) }
    ensures { result ≡ mark_over n area c }
{
    if c + area < n { INSIDE } else { EDGE }
}
