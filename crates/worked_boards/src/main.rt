// Goes through the boards worked by hand that are not starred, those of document 01 and of Cards 3, 6, 10 and 12 of document 02: what each gives,
// and whether it is what the pages say.
#![tactic(auto)]

mod board;
mod houses;
mod marches;
mod pairs;
mod rounds;
mod tell;

use std::io;
use std::io::Write;

// 3 by 3, 10 ticks, ground (10, 10), no runs, start cell 0 at 0.
fn rings(rt: &impl Print) -> io::Result<()> {
    let file =
        b"\x03\x00\x03\x00\x01\x00\x0a\x00\x0a\x00\x0a\x00\x00\x00\x00\x00\x01\x00\x00\x00\x00\x00\x00\x00\x00\x00\x00\x00";
    let mut text = [0u8; 11300];
    let n = rings_lines::rings_lines(file, &mut text);
    println!(rt; "rings:")?;
    io::writer(rt).write_all(&text[..n])?;
    let verdict = tell::verdict(text[..n] == b"3 3 10\n0 1 2\n1 2 3\n2 3 4\n"[..]);
    println!(rt; "{verdict}")
}

fn main(rt: HostRuntime) -> io::Result<()> {
    rounds::rounds(&rt)?;
    rounds::narrow_rounds(&rt)?;
    rounds::runs(&rt)?;
    marches::starts(&rt)?;
    marches::lengths(&rt)?;
    marches::turns(&rt)?;
    pairs::furrows(&rt)?;
    pairs::ploughed(&rt)?;
    houses::corners(&rt)?;
    houses::house(&rt)?;
    houses::towers(&rt)?;
    rings(&rt)
}
