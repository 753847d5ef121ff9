// A board as it is handed in, with its starts as records or as two plain lists: whoever goes through starts takes either.
ghost use Rattle.std.specs.Prelude.{◌≡◌, true, Bool, List, ◌<◌, eqb, length, get_or};
ghost use Rattle.eikonal.specs.Refusals.{starts_of};
ghost use Rattle.eikonal.specs.Handing.{no_start};
ghost use Rattle.eikonal.specs.declared.Start.{Start};

use super::Start;

pub trait Starts: Copy {
    // the starts that it holds
    ghost all: { Self → List Start };

    // whether it is no two lists of unequal length
    ghost paired: { Self → Bool };

    fn many(self) -> usize
        ensures { result ≡ length (all self) };

    fn are_paired(self) -> bool
        ensures { result ≡ paired self };

    fn at(self, i: usize) -> Start
        requires { i < length (all self) }
        ensures { result ≡ get_or (all self) i no_start };
}

// Start records.
#[derive(Clone, Copy)]
pub struct Records<'a> {
    pub starts: &'a [Start],
}

impl<'a> Starts for Records<'a> {
    ghost all = { λ s. s.starts.now };

    ghost paired = { λ s. true };

    fn many(self) -> usize {
        self.starts.len()
    }

    fn are_paired(self) -> bool {
        true
    }

    fn at(self, i: usize) -> Start {
        self.starts[i]
    }
}

// Their cells and times as plain lists. Of lists of unequal length the shorter counts.
#[derive(Clone, Copy)]
pub struct Lists<'a> {
    pub cells: &'a [u32],
    pub begins: &'a [u32],
}

impl<'a> Starts for Lists<'a> {
    ghost all = { λ s. starts_of s.cells.now s.begins.now };

    ghost paired = { λ s. eqb (length s.cells.now) (length s.begins.now) };

    #[tactic(auto, using(crate::proofs::StartLists::starts_of_many))]
    fn many(self) -> usize {
        self.cells.len().min(self.begins.len())
    }

    fn are_paired(self) -> bool {
        self.cells.len() == self.begins.len()
    }

    #[tactic(auto, using(crate::proofs::StartLists::starts_of_many, crate::proofs::StartLists::starts_of_at))]
    fn at(self, i: usize) -> Start {
        Start {
            cell: self.cells[i],
            time: self.begins[i],
        }
    }
}

// A board: its sides, its storeys, each cell's slowness, and the starts.
#[derive(Clone, Copy)]
pub struct Handed<'a, S> {
    pub width: u32,
    pub height: u32,
    pub storeys: u32,
    pub slow: &'a [u32],
    pub starts: S,
}
