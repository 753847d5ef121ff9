// The scenario file: its format, with numbers and runs as bytes; and turn numbers.
#![tactic(auto)]

pub mod bytes;
pub mod heads;
pub mod runs;
pub mod starts;

ghost use Rattle.std.specs.Prelude.{◌≡◌};
ghost use Rattle.scenario.specs.Calls.{scenario_told};
ghost use Rattle.scenario.specs.File.{ticks_good};
ghost use Rattle.scenario.specs.Turns.{turn_told, TurnSays};

use eikonal::refused::{Cause, Refusal};
use eikonal::{LARGEST, NEVER};
use refusals::causes::{refuse_if, within};

// What a file holds besides its lists: number 0, the rest and the place 0, or a refusal's number and place and zeros.
#[repr(C)]
#[derive(Clone, Copy)]
pub struct Scenario {
    pub number: u32,
    pub width: u32,
    pub height: u32,
    pub storeys: u32,
    pub ticks: u32,
    pub ground: u32,
    pub starts: u32,
    pub place: usize,
}

impl From<Result<Head, Refusal>> for Scenario {
    ghost from_gives = { λ r x. x ≡ scenario_told r };

    #[tactic(auto, unfolding(crate::specs::Calls::scenario_of, crate::specs::Calls::scenario))]
    fn from(outcome: Result<Head, Refusal>) -> Scenario {
        match outcome {
            Ok(head) => Scenario {
                number: 0,
                width: head.width,
                height: head.height,
                storeys: head.storeys,
                ticks: head.ticks,
                ground: head.ground,
                starts: head.starts,
                place: 0,
            },
            Err(refusal) => Scenario {
                number: refusal.cause.number(),
                width: 0,
                height: 0,
                storeys: 0,
                ticks: 0,
                ground: 0,
                starts: 0,
                place: refusal.place,
            },
        }
    }
}

// The turn of a time, and the ticks still to go until it closes: number 0 and both, or 3 and zeros.
#[repr(C)]
#[derive(Clone, Copy)]
pub struct TurnReply {
    pub number: u32,
    pub turn: u32,
    pub to_go: u32,
}

// How many bytes a head, a run and a start have.
pub const HEAD: usize = 20;

pub const RUN: usize = 12;

pub const START: usize = 8;

// The numbers that a file begins with: sides, storeys, ticks per turn, the ground's slowness, how many runs and starts follow.
#[derive(Clone, Copy)]
pub struct Head {
    pub width: u32,
    pub height: u32,
    pub storeys: u32,
    pub ticks: u32,
    pub ground: u32,
    pub runs: u32,
    pub starts: u32,
}

// So many cells from an offset on, with one slowness.
#[derive(Clone, Copy)]
pub struct Run {
    pub offset: u32,
    pub long: u32,
    pub slow: u32,
}

#[tactic(auto, unfolding(crate::specs::File::ticks_good))]
pub fn ticks_good(ticks: u32) -> bool
    ensures { result ≡ ticks_good ticks }
{
    within(1, 65535, ticks as usize)
}

// The turn, rounded up, and the ticks to go until it closes: never and none for never, which a time above 300,000,000 counts as.
fn turn_of(time: u32, ticks: u32) -> Result<(u32, u32), Refusal>
    ensures { TurnSays time ticks (turn_told result) }
{
    refuse_if(!ticks_good(ticks), Cause::Ticks)?;
    if time > LARGEST {
        return Ok((NEVER, 0));
    }
    let turn = time.div_ceil(ticks);
    Ok((turn, turn * ticks - time))
}

impl From<Result<(u32, u32), Refusal>> for TurnReply {
    ghost from_gives = { λ r x. x ≡ turn_told r };

    #[tactic(auto, unfolding(crate::specs::Turns::turn_reply))]
    fn from(outcome: Result<(u32, u32), Refusal>) -> TurnReply {
        match outcome {
            Ok((turn, to_go)) => TurnReply {
                number: 0,
                turn,
                to_go,
            },
            Err(refusal) => TurnReply {
                number: refusal.cause.number(),
                turn: 0,
                to_go: 0,
            },
        }
    }
}

pub fn turn(time: u32, ticks: u32) -> TurnReply
    ensures { TurnSays time ticks result }
{
    turn_of(time, ticks).into()
}
