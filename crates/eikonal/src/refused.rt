// Why a call is refused, and what a call answers.
ghost use Rattle.std.specs.Prelude.{◌≡◌};
ghost use Rattle.eikonal.specs.Told.{number_of, reply_of};

use super::Reply;
use super::number::Number;

// The causes, most of them in the one order. Some belong to calls to come.
#[derive(Clone, Copy)]
pub enum Cause {
    // the file is too short for a head, or not as long as its head says
    FileLength,
    // a side is not 1 to 256
    Sides,
    // the ticks of a turn are not 1 to 65,535
    Ticks,
    // slownesses are not as many as cells, or the two lists of starts not of one length
    Lengths,
    // a slowness has a number above 4,095
    Steep,
    // a file's runs break their rules
    Runs,
    // a start is off the board
    OffBoard,
    // a start begins after 1,000,000
    Late,
    // a start is on a wall
    OnWall,
    // a bound, a horizon or a stride is out of its range
    Far,
    // a tile's side is not 1 to 256
    TileSides,
    // the order does not name each tile once
    Order,
    // times are not as many as cells
    Times,
    // a list that is lent has no room
    Room,
    // the board is too large for the tablet
    Large,
    // a cell that is asked for is off the board
    CellOffBoard,
    // no chain of open cells joins the cell that is asked for to a start
    NoChain,
    // the starts' cells do not rise
    NotRising,
    // two boards do not join
    Unjoined,
    // a start that is added is there, or one that is removed is not
    Change,
    // one number of a slowness is 0 and the other is not
    HalfWall,
    // a list of counts has no room for two
    FewCounts,
    // the storeys make no house
    Stacked,
    // a kind is above 15
    Kind,
    // any other that a call finds of its own, by its number
    Other(Number),
}

impl Cause {
    pub fn number(self) -> u32
        ensures { result ≡ number_of self }
    {
        // Two matches: a choice and a table. As one they are 25 places to jump to, in each caller.
        let other = match self {
            Cause::Other(other) => other.number,
            _ => 0,
        };
        let named = match self {
            Cause::FileLength => 1,
            Cause::Sides => 2,
            Cause::Ticks => 3,
            Cause::Lengths => 4,
            Cause::Steep => 5,
            Cause::Runs => 6,
            Cause::OffBoard => 7,
            Cause::Late => 8,
            Cause::OnWall => 9,
            Cause::Far => 10,
            Cause::TileSides => 11,
            Cause::Order => 12,
            Cause::Times => 13,
            Cause::Room => 14,
            Cause::Large => 15,
            Cause::CellOffBoard => 16,
            Cause::NoChain => 17,
            Cause::NotRising => 18,
            Cause::Unjoined => 19,
            Cause::Change => 20,
            Cause::HalfWall => 21,
            Cause::FewCounts => 22,
            Cause::Stacked => 23,
            Cause::Kind => 24,
            Cause::Other(_) => 0,
        };
        other + named
    }
}

// A refusal: its cause, and where a start is at fault, its place in the list, from 0.
#[derive(Clone, Copy)]
pub struct Refusal {
    pub cause: Cause,
    pub place: usize,
}

impl From<Cause> for Refusal {
    ghost from_gives = { λ k r. r ≡ record { cause = k; place = 0 } };

    fn from(cause: Cause) -> Refusal {
        Refusal { cause, place: 0 }
    }
}

// Nothing is found, or a refusal.
pub type Checked = Result<(), Refusal>;

impl From<Result<u32, Refusal>> for Reply {
    ghost from_gives = { λ r x. x ≡ reply_of r };

    #[tactic(auto, unfolding(crate::specs::Ledger::answer))]
    fn from(outcome: Result<u32, Refusal>) -> Reply {
        match outcome {
            Ok(count) => Reply {
                number: 0,
                count,
                place: 0,
            },
            Err(refusal) => Reply {
                number: refusal.cause.number(),
                count: 0,
                place: refusal.place,
            },
        }
    }
}

// What a call looks for of its own, beside a march's causes: what it has found, by where that stands in the one order.
#[derive(Clone, Copy)]
pub struct Own {
    // behind 2: 3
    pub ticks: Checked,
    // behind 23: 24
    pub kinds: Checked,
    // behind 9: 16, 22, or a start that is added or removed
    pub cell: Checked,
    // behind 13: times by what they hold
    pub times: Checked,
    // behind 14: other lists, and sides by what they hold
    pub lists: Checked,
    // behind all: 17
    pub last: Checked,
}

impl Own {
    pub const NOTHING: Own = Own {
        ticks: Ok(()),
        kinds: Ok(()),
        cell: Ok(()),
        times: Ok(()),
        lists: Ok(()),
        last: Ok(()),
    };
}
