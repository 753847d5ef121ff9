// What the program `rings` prints of a scenario file, as bytes in a lent list.
#![tactic(auto)]

pub mod text;

ghost use Rattle.std.specs.Prelude.{◌≡◌, ◌+◌, ◌*◌, ◌≤◌, length, true, [], ◌∷◌, ◌++◌, IfOk};
ghost use Rattle.eikonal.specs.Told.{told};
ghost use Rattle.scenario.specs.File.{ticks_good};
ghost use Rattle.scenario.specs.Inner.Walk.{Fits};
ghost use Rattle.tablet.specs.Small.{small_refusal};
ghost use Rattle.rings_lines.specs.Put.{Put};
ghost use Rattle.rings_lines.specs.Rings.{turn_text, behind, rows, head_line, refused_line, rings_refusal, board_lines, room, RingsSays};

use eikonal::NEVER;
use eikonal::refused::{Cause, Refusal};
use refusals::causes::refuse_if;
use scenario::heads::board_size;
use scenario::{HEAD, Head, RUN, START};
use tablet::small::check_small;
use text::put_number;

// 20,500 bytes: a board of 1,024 cells can have as many runs and starts.
pub const LONGEST: usize = HEAD + RUN * 1024 + START * 1024;

// The byte behind a cell's field.
#[tactic(auto, unfolding(crate::specs::Rings::behind))]
fn behind(width: usize, cell: usize) -> u8
    requires { (1 ≤ width) × (cell ≤ 1024) }
    ensures { result ≡ behind width cell }
{
    if (cell + 1) % width == 0 { b'\n' } else { b' ' }
}

// A cell's turn, or `-`, with a byte behind it. Answers the place behind that.
fn put_turn(out: &mut [u8], at: usize, time: u32, ticks: u32, last: u8) -> usize
    requires { (at + 11 ≤ length out.old) × (ticks_good ticks ≡ true) }
    ensures put { Put out.old at (turn_text ticks time ++ (last ∷ [])) out.new result }
    ensures most { result ≤ at + 11 }
{
    let reply = scenario::turn(time, ticks);
    let turn = reply.turn;
    if turn == NEVER {
        out[at] = b'-';
        out[at + 1] = last;
        return at + 2;
    }
    put_number(out, at, turn, last)
}

// A field for each time: the rows of a storey, then those of the next.
fn put_rows(out: &mut [u8], at: usize, times: &[u32], width: usize, ticks: u32) -> usize
    requires { (at + 11 * length times.now ≤ length out.old) × (length times.now ≤ 1024) × (1 ≤ width) × (ticks_good ticks ≡ true) }
    ensures put { Put out.old at (rows width ticks 0 times.now) out.new result }
    ensures most { result ≤ length out.old }
{
    let mut place = at;
    for (i, time) in times.iter().enumerate() {
        place = put_turn(out, place, *time, ticks, behind(width, i));
    }
    place
}

fn put_head_line(out: &mut [u8], head: Head) -> usize
    requires { 33 ≤ length out.old }
    ensures put { Put out.old 0 (head_line «head») out.new result }
    ensures most { result ≤ 33 }
{
    let second = put_number(out, 0, head.width, b' ');
    let third = put_number(out, second, head.height, b' ');
    put_number(out, third, head.ticks, b'\n')
}

fn put_refused(out: &mut [u8], number: u32) -> usize
    requires { 33 ≤ length out.old }
    ensures put { Put out.old 0 (refused_line number) out.new result }
    ensures most { result ≤ 33 }
{
    out[..8].copy_from_slice(b"refused ");
    put_number(out, 8, number, b'\n')
}

fn check_rings(file: &[u8]) -> Result<Head, Refusal>
    ensures told { told result ≡ rings_refusal file.now }
    ensures head { IfOk result (λ x. Fits x file.now) }
{
    refuse_if(file.len() > LONGEST, Cause::Large)?;
    check_small(file)
}

// The lines of a board, whose times were worked out.
fn put_lines(out: &mut [u8], head: Head, times: &[u32]) -> usize
    requires { (room ≤ length out.old) × (1 ≤ head.width) × (ticks_good head.ticks ≡ true) × (length times.now ≤ 1024) }
    ensures put { Put out.old 0 (head_line «head» ++ rows «head».width «head».ticks 0 times.now) out.new result }
    ensures most { result ≤ length out.old }
{
    let at = put_head_line(out, head);
    put_rows(out, at, times, head.width as usize, head.ticks)
}

// Tiles of 8 by 8, stride 65,536.
fn put_board(out: &mut [u8], file: &[u8], head: Head) -> usize
    requires { (room ≤ length out.old) × ((small_refusal file.now).number ≡ 0) × Fits «head» file.now }
    ensures put { Put out.old 0 (board_lines file.now) out.new result }
    ensures most { result ≤ length out.old }
{
    let n = board_size(head);
    let mut times = tablet::run::entries();
    let times = &mut times[..n];
    tablet::run::run_file(file, 65536, 8, 8, times);
    put_lines(out, head, times)
}

// Writes the lines of a file and answers their length; later bytes stay. A list under 11,300 bytes is left as it was.
pub fn rings_lines(file: &[u8], out: &mut [u8]) -> usize
    ensures { RingsSays file.now out.old out.new result }
{
    if out.len() < 11300 {
        return 0;
    }
    match check_rings(file) {
        Ok(head) => put_board(out, file, head),
        Err(refusal) => put_refused(out, refusal.cause.number()),
    }
}
