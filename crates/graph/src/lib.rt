// The graph interface.
#![tactic(auto)]

pub mod among;
pub mod graph;
