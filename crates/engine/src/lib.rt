// The engine: whole marches, single rounds and tile runs.
#![tactic(auto)]

pub mod calls;
mod run;
pub mod seeded;
mod tiling;
