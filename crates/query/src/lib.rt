// Reach under a filter, and cycles, each asked by one walk.
#![tactic(auto)]

pub mod cycle;
pub mod filter;
pub mod filters;
pub mod reach;
pub mod visitors;
