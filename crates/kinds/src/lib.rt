// The names and numbers that every layer shares.
#![tactic(auto)]

pub mod block;
pub mod context;
pub mod edge;
pub mod refusal;
pub mod table;
