// The front: its pending cells (the narrow band) are taken (accepted), the least first, and their neighbours hear of them.
#![tactic(auto)]

pub mod commit;
pub mod drain;
pub mod scene;
pub mod seams;
pub mod seed;
pub mod sight;
mod spread;
pub mod strip;
mod wake;

// A board's sides and storeys, its tiles' sides, and its number of cells.
#[derive(Clone, Copy)]
pub struct Shape {
    pub width: usize,
    pub height: u32,
    pub storeys: u32,
    pub across: u32,
    pub down: u32,
    pub cells: usize,
}

// A cell at a row and a column; rows are numbered through all storeys.
#[derive(Clone, Copy)]
pub struct Site {
    pub cell: usize,
    pub row: usize,
    pub col: usize,
}

// A step along an axis: so many cells, which are so many rows and columns.
#[derive(Clone, Copy)]
pub struct Step {
    pub cells: usize,
    pub rows: usize,
    pub cols: usize,
}
