// A board written as a scenario file. Each function fills a list of bytes from a place on; the bytes in front of it stay.
ghost use Rattle.std.specs.Prelude.{◌≡◌, [], ◌++◌, ◌+◌, ◌*◌, ◌≤◌, ◌<◌, length, take};
ghost use Rattle.scenario.specs.Bytes.{bytes_of};
ghost use Rattle.scenario.specs.Runs.{closed, runs_of};
ghost use Rattle.scenario.specs.File.{head_size, run_size, start_size, runs_end, file_size, run_bytes, start_bytes, head_of, front};

use eikonal::starts::{Handed, Starts};
use scenario::bytes::put_wide_pair;
use scenario::heads::{put_head, starts_base};
use scenario::runs::put_run;
use scenario::{HEAD, Head, RUN, Run, START};

// A run begins at each cell that is neither ground nor as the cell before it.
#[tactic(auto, using(crate::proofs::Stretches::counting))]
pub fn count_runs(slow: &[u32], ground: u32) -> usize
    ensures { result ≡ length (runs_of ground slow.now) }
{
    let mut count = 0;
    let mut last = ground;
    for x in slow {
        if *x != last && *x != ground {
            count += 1;
        }
        last = *x;
    }
    count
}

// A stretch from a cell up to another is a run, unless it is ground. Answers the next place.
#[tactic(auto, unfolding(scenario::specs::Bytes::bytes_of, scenario::specs::Runs::closed, scenario::specs::Runs::run))]
fn put_stretch(out: &mut [u8], at: usize, from: usize, until: usize, x: u32, ground: u32) -> usize
    requires { (at + run_size * length (closed ground from until x []) ≤ length out.old) × (from ≤ until) × (until < 4294967296) }
    ensures at { result ≡ at + run_size * length (closed ground from until x []) }
    ensures is { take result out.new ≡ take at out.old ++ bytes_of run_bytes (closed ground from until x []) }
{
    if x == ground {
        return at;
    }
    let run = Run {
        offset: from as u32,
        long: (until - from) as u32,
        slow: x,
    };
    put_run(out, at, run);
    at + RUN
}

// The runs behind the head.
#[tactic(auto, using(crate::proofs::Stretches::stretch_last), unfolding(scenario::specs::Runs::runs_of))]
pub fn write_runs(out: &mut [u8], slow: &[u32], ground: u32)
    requires { (runs_end (length (runs_of ground slow.now)) ≤ length out.old) × (length slow.now ≤ 65536) }
    ensures { let rs = runs_of ground slow.now in
        take (runs_end (length rs)) out.new ≡ take head_size out.old ++ bytes_of run_bytes rs }
{
    let mut at = HEAD;
    let mut from = 0;
    let mut last = ground;
    for (i, x) in slow.iter().enumerate() {
        if *x != last {
            at = put_stretch(out, at, from, i, last, ground);
            from = i;
            last = *x;
        }
    }
    put_stretch(out, at, from, slow.len(), last, ground);
}

// The starts, in a list of their bytes.
pub fn write_starts<S: Starts>(out: &mut [u8], starts: S)
    requires { length out.old ≡ start_size * length (S.all starts) }
    ensures { out.new ≡ bytes_of start_bytes (S.all starts) }
{
    for i in 0..starts.many() {
        let start = starts.at(i);
        put_wide_pair(out, START * i, start.cell, start.time);
    }
}

// The head of a board with so many starts.
#[tactic(auto, using(scenario::proofs::GoodRuns::counts), unfolding(scenario::specs::File::head_of))]
pub fn head_for(
    width: u32,
    height: u32,
    storeys: u32,
    ticks: u32,
    ground: u32,
    slow: &[u32],
    starts: usize,
) -> Head
    requires { (length slow.now ≤ 65536) × (starts ≤ 65536) }
    ensures { result ≡ head_of width height storeys ticks ground slow.now starts }
{
    Head {
        width,
        height,
        storeys,
        ticks,
        ground,
        runs: count_runs(slow, ground) as u32,
        starts: starts as u32,
    }
}

// A list that ends where the starts begin: the head, the runs.
#[tactic(auto, unfolding(scenario::specs::File::front))]
pub fn write_front(out: &mut [u8], head: Head, slow: &[u32])
    requires out { length out.old ≡ runs_end «head».runs }
    requires slow { («head».runs ≡ length (runs_of «head».ground slow.now)) × (length slow.now ≤ 65536) }
    ensures { out.new ≡ front «head» slow.now }
{
    put_head(out, head);
    write_runs(out, slow, head.ground);
}

// All of the file: the starts behind these.
pub fn write_all<S: Starts>(out: &mut [u8], head: Head, board: &Handed<S>)
    requires out { length out.old ≡ file_size head.runs (length (S.all board.now.starts)) }
    requires slow { (head.runs ≡ length (runs_of head.ground board.now.slow.now)) × (length board.now.slow.now ≤ 65536) }
    ensures { out.new ≡ front head board.now.slow.now ++ bytes_of start_bytes (S.all board.now.starts) }
{
    let (front, starts) = out.split_at_mut(starts_base(head));
    write_front(front, head, board.slow);
    write_starts(starts, board.starts);
}
