// A start in a file, and all of a file's starts.
ghost use Rattle.std.specs.Prelude.{◌≡◌, true, ◌+◌, ◌≤◌, length, drop};
ghost use Rattle.scenario.specs.File.{start_size, start_in};
ghost use Rattle.scenario.specs.Inner.Walk.{Fits, starts_by, starts_whole};

use super::bytes::four_at;
use super::heads::starts_base;
use super::{Head, START};
use eikonal::Start;
use eikonal::starts::Starts;

pub fn start_at(file: &[u8], at: usize) -> Start
    requires { at + start_size ≤ length file.now }
    ensures { result ≡ start_in (drop at file.now) }
{
    Start {
        cell: four_at(file, at),
        time: four_at(file, at + 4),
    }
}

// Starts as the bytes that a file ends with.
#[derive(Clone, Copy)]
pub struct FileStarts<'a> {
    pub bytes: &'a [u8],
}

impl<'a> Starts for FileStarts<'a> {
    ghost all = { λ s. starts_whole s.bytes.now };

    ghost paired = { λ s. true };

    fn many(self) -> usize {
        self.bytes.len() / START
    }

    fn are_paired(self) -> bool {
        true
    }

    fn at(self, i: usize) -> Start {
        start_at(self.bytes, START * i)
    }
}

// The starts of a file that is as long as its head says.
pub fn starts_in<'a>(file: &'a [u8], head: Head) -> FileStarts<'a>
    requires { Fits «head» file.now }
    ensures { starts_whole result.bytes.now ≡ starts_by «head» file.now }
{
    let base = starts_base(head);
    FileStarts {
        bytes: &file[base..],
    }
}
