// Reads a scenario on standard input and prints the turn at which the front reaches each cell.
#![tactic(auto)]

ghost use Rattle.std.specs.Prelude.{◌≤◌, length};

use std::io;
use std::io::{Read, Write};

// Reads until the list is full or the input ends, and says how much was read. A read that fails counts as the end of the input.
fn read_full<R: Read>(input: &mut R, file: &mut [u8]) -> usize
    ensures { result ≤ length file.old }
{
    let mut n = 0;
    while n < file.len() {
        match input.read(&mut file[n..]) {
            Ok(0) | Err(_) => return n,
            Ok(more) => n += more,
        }
    }
    n
}

// One byte more is read than a file may have, so that a longer one shows. What came before a read that fails is judged.
fn main(rt: HostRuntime) -> io::Result<()> {
    let mut file = [0u8; rings_lines::LONGEST + 1];
    let n = read_full(&mut rt.reader(), &mut file);
    let mut text = [0u8; 11300];
    let m = rings_lines::rings_lines(&file[..n], &mut text);
    io::writer(&rt).write_all(&text[..m])
}
