// The head of a file, read and written; what it says of the bytes behind it.
ghost use Rattle.std.specs.Prelude.{◌≡◌, ◌*◌, ◌≤◌, length, take};
ghost use Rattle.scenario.specs.File.{head_size, runs_end, file_size, head_bytes, head_in};

use super::bytes::{four_at, put_four, put_two, two_at};
use super::{HEAD, Head, RUN, START};
use eikonal::house_size;

#[tactic(auto, unfolding(crate::specs::File::head_in))]
pub fn head_of(file: &[u8]) -> Head
    requires { head_size ≤ length file.now }
    ensures { result ≡ head_in file.now }
{
    Head {
        width: two_at(file, 0),
        height: two_at(file, 2),
        storeys: two_at(file, 4),
        ticks: two_at(file, 6),
        ground: four_at(file, 8),
        runs: four_at(file, 12),
        starts: four_at(file, 16),
    }
}

#[tactic(auto, unfolding(crate::specs::File::head_bytes))]
pub fn put_head(out: &mut [u8], head: Head)
    requires { head_size ≤ length out.old }
    ensures { take head_size out.new ≡ head_bytes head }
{
    put_two(out, 0, head.width);
    put_two(out, 2, head.height);
    put_two(out, 4, head.storeys);
    put_two(out, 6, head.ticks);
    put_four(out, 8, head.ground);
    put_four(out, 12, head.runs);
    put_four(out, 16, head.starts);
}

// How many cells the board has, whatever the storeys are.
pub fn board_size(head: Head) -> usize
    requires { (head.width ≤ 256) × (head.height ≤ 256) }
    ensures { result ≡ head.width * head.height * head.storeys }
{
    house_size(head.width, head.height, head.storeys)
}

// Where the starts begin.
pub fn starts_base(head: Head) -> usize
    ensures { result ≡ runs_end head.runs }
{
    HEAD + RUN * head.runs as usize
}

// usize has 64 bits: no two counts of 32 bits make the sum wrap.
pub fn file_length(head: Head) -> usize
    ensures { result ≡ file_size head.runs head.starts }
{
    starts_base(head) + START * head.starts as usize
}
