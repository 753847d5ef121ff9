// What a call writes into the lists that it is lent.
#![tactic(auto)]

pub mod tiles;
pub mod whole;
