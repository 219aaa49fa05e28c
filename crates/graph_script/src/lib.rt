// The questions of a call script about the built graph, read from a line.
#![tactic(auto)]

pub mod query;
pub mod read;
