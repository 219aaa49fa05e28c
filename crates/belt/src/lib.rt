// The belt plan: segments, the transfers between them, and lockouts.
#![tactic(auto)]

pub mod edits;
pub mod plan;
pub mod plan_graph;
pub mod queries;
pub mod segments;
mod words;
