// Whether a board is refused, and why: causes are looked for in the one order, and the first that is met is given.
#![tactic(auto)]

pub mod board;
pub mod causes;
