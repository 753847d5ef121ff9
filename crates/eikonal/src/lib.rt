// The ground under the engine: the values that calls share.
#![tactic(auto)]

pub mod number;
pub mod refused;
pub mod starts;

ghost use Rattle.std.specs.Prelude.{◌≡◌, ◌*◌, ◌≤◌};

// The mark of a cell that no front reaches.
pub const NEVER: u32 = u32::MAX;

// The largest horizon and bound: a later time counts as never.
pub const LARGEST: u32 = 300000000;

// A front begins at a cell at a time.
#[repr(C)]
#[derive(Clone, Copy)]
pub struct Start {
    pub cell: u32,
    pub time: u32,
}

// What a call does with the front: a whole march, a single round, a tile run.
#[derive(Clone, Copy)]
pub enum Job {
    March {
        horizon: u32,
    },
    Round {
        across: u32,
        down: u32,
        bound: u32,
    },
    Run {
        across: u32,
        down: u32,
        stride: u32,
        horizon: u32,
    },
}

// A call's answer: number 0 and a count, or a refusal's number and place and the count 0.
#[repr(C)]
#[derive(Clone, Copy)]
pub struct Reply {
    pub number: u32,
    pub count: u32,
    pub place: usize,
}

// The local rule's answer: number 0, the time and its sides, or a refusal's number and zeros.
#[repr(C)]
#[derive(Clone, Copy)]
pub struct LocalReply {
    pub number: u32,
    pub time: u32,
    pub sides: u32,
}

// How many cells a board has. usize has 64 bits: whatever the storeys are, nothing wraps.
pub fn house_size(width: u32, height: u32, storeys: u32) -> usize
    requires { (width ≤ 256) × (height ≤ 256) }
    ensures { result ≡ width * height * storeys }
{
    (width * height) as usize * storeys as usize
}
