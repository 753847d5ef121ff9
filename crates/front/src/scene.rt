// What a round finds, and leaves as it is while tentative times are worked out.
ghost use Rattle.front.specs.Board.{Ground};
ghost use Rattle.front.specs.Once.{Ground-prop};

use super::seams::Seams;
use super::{Shape, Site};
use eikonal::{LARGEST, NEVER};

// The slownesses, the stored times, the seams of columns and rows, and the shape of a legal board.
#[derive(Clone, Copy)]
pub struct Scene<'a> {
    pub slow: &'a [u32],
    pub times: &'a [u32],
    pub cols: &'a Seams,
    pub rows: &'a Seams,
    pub shape: Shape,
    pub ghost ground: { Ground shape slow.now times.now cols.now rows.now } by { Ground-prop _ _ _ _ _ },
}

impl<'a> Scene<'a> {
    ghost use Rattle.std.specs.Prelude.{◌≡◌, ◌<◌};
    ghost use Rattle.eikonal.specs.Tiles.{counts_as};
    ghost use Rattle.front.specs.Scene.{land_of, IsSite};

    // Division of 32 bits is much quicker than of 64.
    pub fn site(&self, cell: usize) -> Site
        requires { cell < self.now.shape.cells }
        ensures is { IsSite self.now result }
        ensures same { result.cell ≡ cell }
    {
        let row = ((cell as u32) / (self.shape.width as u32)) as usize;
        Site {
            cell,
            row,
            col: cell - row * self.shape.width,
        }
    }

    // A stored time as a cell of another tile sees it.
    #[tactic(auto, unfolding(eikonal::specs::Tiles::counts_as, eikonal::specs::Board::slowness, eikonal::specs::Board::time))]
    pub fn ghost_time(&self, e: usize) -> u32
        requires { e < self.now.shape.cells }
        ensures { result ≡ counts_as (land_of self.now) self.now.times.now e }
    {
        let t = self.times[e];
        if self.slow[e] == 0 {
            return NEVER;
        }
        if t > LARGEST {
            return NEVER;
        }
        t
    }
}
