// What a call gives, printed beside whether it is what the pages say.
use eikonal::{LocalReply, NEVER};
use std::{fmt, io};

// Numbers, a space behind each; `-` for never.
#[derive(Clone, Copy)]
struct Numbers<'a> {
    list: &'a [u32],
}

impl<'a> fmt::Display for Numbers<'a> {
    fn fmt<W: fmt::Write>(&self, f: &mut fmt::Formatter<W>) -> fmt::Result {
        for x in self.list {
            if *x == NEVER {
                write!(f, "- ")?;
            } else {
                write!(f, "{x} ")?;
            }
        }
        Ok(())
    }
}

pub fn verdict(as_expected: bool) -> &'static str {
    if as_expected {
        "as expected"
    } else {
        "NOT AS EXPECTED"
    }
}

pub fn tell(rt: &impl Print, name: &str, list: &[u32], want: &[u32]) -> io::Result<()> {
    let got = Numbers { list };
    let verdict = verdict(list == want);
    println!(rt; "{name}: {got}{verdict}")
}

// What the local rule gives, which is no refusal.
pub fn tell_local(
    rt: &impl Print,
    name: &str,
    reply: LocalReply,
    time: u32,
    sides: u32,
) -> io::Result<()> {
    let got = [reply.number, reply.time, reply.sides];
    tell(rt, name, &got, &[0, time, sides])
}
