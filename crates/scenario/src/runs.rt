// The runs in a file, judged before anything is written.
ghost use Rattle.std.specs.Prelude.{◌≡◌, ◌++◌, map, ◌+◌, ◌≤◌, length, take, drop};
ghost use Rattle.refusals.specs.Flaws.{with_pairs};
ghost use Rattle.scenario.specs.Bytes.{records};
ghost use Rattle.scenario.specs.Runs.{run_good, runs_good};
ghost use Rattle.scenario.specs.File.{head_size, run_size, runs_end, run_bytes, run_in};
ghost use Rattle.scenario.specs.Inner.Walk.{runs_onward, past, near};

use super::bytes::{four_at, put_four, put_wide_pair};
use super::{HEAD, RUN, Run};
use refusals::board::{Flaws, with_pair};

// usize has 64 bits: the sum of two numbers of 32 bits does not wrap.
pub fn run_end(x: Run) -> usize
    ensures { result ≡ x.offset + x.long }
{
    x.offset as usize + x.long as usize
}

pub fn run_at(file: &[u8], at: usize) -> Run
    requires { at + run_size ≤ length file.now }
    ensures { result ≡ run_in (drop at file.now) }
{
    Run {
        offset: four_at(file, at),
        long: four_at(file, at + 4),
        slow: four_at(file, at + 8),
    }
}

// The bytes in front of the run stay.
#[tactic(auto, unfolding(crate::specs::File::run_bytes))]
pub fn put_run(out: &mut [u8], at: usize, x: Run)
    requires { at + run_size ≤ length out.old }
    ensures { take (at + run_size) out.new ≡ take at out.old ++ run_bytes x }
{
    put_wide_pair(out, at, x.offset, x.long);
    put_four(out, at + 8, x.slow);
}

// The rules of a run, where cells are free from one on, and the run that ends there has a slowness.
#[tactic(auto, unfolding(crate::specs::Runs::run_good, crate::specs::Runs::end))]
fn run_good(n: usize, ground: u32, free: usize, last: u32, x: Run) -> bool
    ensures { result ≡ run_good n ground free last x }
{
    let from = x.offset as usize;
    if from < free {
        return false;
    }
    if x.long < 1 {
        return false;
    }
    if n < run_end(x) {
        return false;
    }
    if x.slow == ground {
        return false;
    }
    if from == free {
        return x.slow != last;
    }
    true
}

// The runs' slownesses, after those looked at so far.
pub fn with_runs(file: &[u8], count: usize, so_far: Flaws) -> Flaws
    requires { runs_end count ≤ length file.now }
    ensures { result ≡ with_pairs (map (λ x. x.slow) (records run_size run_in count (drop head_size file.now))) so_far }
{
    let mut flaws = so_far;
    for i in 0..count {
        flaws = with_pair(run_at(file, HEAD + RUN * i).slow, flaws);
    }
    flaws
}

#[tactic(auto, using(crate::proofs::RunWalk::rules_kept))]
pub fn runs_good(file: &[u8], count: usize, n: usize, ground: u32) -> bool
    requires { runs_end count ≤ length file.now }
    ensures { result ≡ runs_good n ground 0 ground (records run_size run_in count (drop head_size file.now)) }
{
    let mut free = 0;
    let mut last = ground;
    for i in 0..count {
        let x = run_at(file, HEAD + RUN * i);
        if !run_good(n, ground, free, last, x) {
            return false;
        }
        free = run_end(x);
        last = x.slow;
    }
    true
}

// The first run from the i-th on that ends behind a cell.
#[tactic(auto, using(crate::proofs::RunWalk::passing))]
pub fn pass(file: &[u8], count: usize, i: usize, cell: usize) -> usize
    requires { (runs_end count ≤ length file.now) × (i ≤ count) }
    ensures most { result ≤ count }
    ensures is { runs_onward file.now count result ≡ past cell (runs_onward file.now count i) }
{
    for k in i..count {
        if cell < run_end(run_at(file, HEAD + RUN * k)) {
            return k;
        }
    }
    count
}

// The slowness of a cell that lies in the i-th run or in front of it.
#[tactic(auto, using(crate::proofs::RunWalk::near_in, crate::proofs::RunWalk::near_before, crate::proofs::RunWalk::near_none))]
pub fn slow_near(file: &[u8], count: usize, i: usize, cell: usize, ground: u32) -> u32
    requires { runs_end count ≤ length file.now }
    ensures { result ≡ near ground cell (runs_onward file.now count i) }
{
    if i < count {
        let x = run_at(file, HEAD + RUN * i);
        if x.offset as usize <= cell {
            return x.slow;
        }
    }
    ground
}
