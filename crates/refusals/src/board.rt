// Whether a board is refused, and why: 2, 4, 5, 21, 23, 7, 18, 8 or 9.
ghost use Rattle.std.specs.Prelude.{◌≡◌, List, ◌++◌, ℕ, ◌*◌, ◌≤◌, ◌<◌, length, get_or};
ghost use Rattle.eikonal.specs.Order.{first_of};
ghost use Rattle.eikonal.specs.Refusals.{sides_good, steep, half_wall, uneven, ill_stacked, board_causes};
ghost use Rattle.eikonal.specs.Told.{told};
ghost use Rattle.eikonal.specs.Handing.{handed_in};
ghost use Rattle.refusals.specs.Flaws.{flawless, with_pair, with_pairs, flaw_causes};
ghost use Rattle.refusals.specs.Judge.{nothing_judged, onward, judge_start, judge, Countable, judged_causes};

use super::causes::{refuse_at, refuse_if, within};
use eikonal::refused::{Cause, Checked};
use eikonal::starts::{Handed, Starts};
use eikonal::{Start, house_size};

// The sides of a board or of a tile.
pub fn sides_good(width: u32, height: u32) -> bool
    ensures { result ≡ sides_good width height }
{
    within(1, 256, width as usize) & within(1, 256, height as usize)
}

// What pairs looked at so far have: a number above 4,095, a single 0, numbers that differ.
#[derive(Clone, Copy)]
pub struct Flaws {
    pub steep: bool,
    pub half: bool,
    pub uneven: bool,
}

pub fn flawless() -> Flaws
    ensures { result ≡ flawless }
{
    Flaws {
        steep: false,
        half: false,
        uneven: false,
    }
}

pub fn is_steep(g: u32, h: u32) -> bool
    ensures { result ≡ steep g h }
{
    (g > 4095) | (h > 4095)
}

pub fn is_half_wall(g: u32, h: u32) -> bool
    ensures { result ≡ half_wall g h }
{
    (g == 0) != (h == 0)
}

pub fn is_uneven(g: u32, h: u32) -> bool
    ensures { result ≡ uneven g h }
{
    g != h
}

// One slowness more.
#[tactic(auto, unfolding(crate::specs::Flaws::with_pair, eikonal::specs::Board::along_row, eikonal::specs::Board::down_column))]
pub fn with_pair(slow: u32, so_far: Flaws) -> Flaws
    ensures { result ≡ with_pair slow so_far }
{
    let g = slow % 65536;
    let h = slow / 65536;
    Flaws {
        steep: so_far.steep | is_steep(g, h),
        half: so_far.half | is_half_wall(g, h),
        uneven: so_far.uneven | is_uneven(g, h),
    }
}

// Every entry is looked at, with no way out of the loop, so that several are compared at a time.
pub fn with_pairs(slow: &[u32], so_far: Flaws) -> Flaws
    ensures { result ≡ with_pairs slow.now so_far }
{
    slow.iter()
        .fold(so_far, |flaws, pair| with_pair(*pair, flaws))
}

// Whether so many storeys make no house, where a pair with unequal numbers was met or was not.
#[tactic(auto, unfolding(eikonal::specs::Refusals::ill_stacked))]
fn ill_stacked(width: u32, height: u32, storeys: u32, uneven: bool) -> bool
    requires { (width ≤ 256) × (height ≤ 256) }
    ensures { result ≡ ill_stacked width height storeys uneven }
{
    let crowded = house_size(width, height, storeys) > 65536;
    let tall = storeys > 1;
    !within(1, 8, storeys as usize) | (crowded | (tall & uneven))
}

// 5, 21, 23 by the pairs that were looked at, on a board with these sides and storeys.
#[tactic(auto, using(eikonal::proofs::Outcomes::outcomes), unfolding(crate::specs::Flaws::flaw_causes))]
pub fn check_flaws(width: u32, height: u32, storeys: u32, flaws: Flaws) -> Checked
    requires { (width ≤ 256) × (height ≤ 256) }
    ensures { told result ≡ first_of (flaw_causes width height storeys flaws) }
{
    let ill = ill_stacked(width, height, storeys, flaws.uneven);
    refuse_if(flaws.steep, Cause::Steep)?;
    refuse_if(flaws.half, Cause::HalfWall)?;
    refuse_if(ill, Cause::Stacked)
}

// What the starts looked at so far leave: how many they are, the least cell that the next may have, the places of the first off the board and of
// the first not above the one before, where there are any, and which other causes were met.
#[derive(Clone, Copy)]
pub struct Judged {
    pub seen: usize,
    pub least: usize,
    pub off: Option<usize>,
    pub low: Option<usize>,
    pub late: bool,
    pub walled: bool,
}

pub fn nothing_judged() -> Judged
    ensures { result ≡ nothing_judged }
{
    Judged {
        seen: 0,
        least: 0,
        off: None,
        low: None,
        late: false,
        walled: false,
    }
}

// The place of the first start at fault, where there is one, after one start more.
#[tactic(auto, unfolding(crate::specs::Judge::onward))]
fn onward(first: Option<usize>, seen: usize, good: bool) -> Option<usize>
    ensures { result ≡ onward first seen good }
{
    match first {
        Some(place) => Some(place),
        None if good => None,
        None => Some(seen),
    }
}

// One start more, on a board of n cells, with the slowness of its cell.
pub fn judge_start(n: usize, slow: u32, cell: u32, time: u32, so_far: Judged) -> Judged
    requires { Countable 1 so_far }
    ensures { result ≡ judge_start n slow cell time so_far }
{
    let at = cell as usize;
    Judged {
        seen: so_far.seen + 1,
        least: at + 1,
        off: onward(so_far.off, so_far.seen, at < n),
        low: onward(so_far.low, so_far.seen, so_far.least <= at),
        late: so_far.late | (time > 1000000),
        walled: so_far.walled | (slow == 0),
    }
}

// The slowness of a cell, 0 off the board.
fn slowness_at(slow: &[u32], cell: u32) -> u32
    ensures { result ≡ get_or slow.now cell 0 }
{
    let at = cell as usize;
    if at < slow.len() {
        return slow[at];
    }
    0
}

// The same judgement. So LLVM sees what tags the two places have, and looks at them no more for each start.
fn as_handed(judged: Judged) -> Judged
    ensures { result ≡ judged }
{
    Judged {
        off: onward(judged.off, judged.seen, true),
        low: onward(judged.low, judged.seen, true),
        ..judged
    }
}

// The starts, on a board with these slownesses, after those judged so far.
pub fn judge_starts<S: Starts>(slow: &[u32], starts: S, so_far: Judged) -> Judged
    requires { length (S.all starts) < 18446744073709551616 → Countable (length (S.all starts)) so_far }
    ensures { result ≡ judge slow.now (S.all starts) so_far }
{
    let mut judged = as_handed(so_far);
    for i in 0..starts.many() {
        let Start { cell, time } = starts.at(i);
        judged = judge_start(slow.len(), slowness_at(slow, cell), cell, time, judged);
    }
    judged
}

// 7, 18, 8, 9: each for the whole list.
#[tactic(auto, using(eikonal::proofs::Outcomes::outcomes), unfolding(crate::specs::Judge::judged_causes))]
pub fn check_judged(judged: Judged) -> Checked
    ensures { told result ≡ first_of (judged_causes judged) }
{
    refuse_at(judged.off, Cause::OffBoard)?;
    refuse_at(judged.low, Cause::NotRising)?;
    refuse_if(judged.late, Cause::Late)?;
    refuse_if(judged.walled, Cause::OnWall)
}

// A board as it is handed in: 2, 4, 5, 21, 23, 7, 18, 8 or 9. Other pairs than the board's, as the ground's, were looked at before; what the call looks
// for behind 2 and behind 23 was found already.
#[tactic(auto, using(eikonal::proofs::Outcomes::outcomes), unfolding(eikonal::specs::Refusals::board_causes))]
pub fn check_board<S: Starts>(
    board: &Handed<S>,
    others: Flaws,
    ticks: Checked,
    kinds: Checked,
) -> Checked
    ensures { (gs : List ℕ) → others ≡ with_pairs gs flawless
        → told result ≡ first_of (board_causes (handed_in S.all S.paired board.now) (gs ++ board.now.slow.now) (told ticks) (told kinds)) }
{
    let Handed {
        width,
        height,
        storeys,
        slow,
        starts,
    } = *board;
    refuse_if(!sides_good(width, height), Cause::Sides)?;
    ticks?;
    // of sides that are too long there is no N
    let whole = starts.are_paired() & (slow.len() == house_size(width, height, storeys));
    refuse_if(!whole, Cause::Lengths)?;
    check_flaws(width, height, storeys, with_pairs(slow, others))?;
    kinds?;
    check_judged(judge_starts(slow, starts, nothing_judged()))
}
