// The calls of a plan script: read from a line, and made on a plan.
#![tactic(auto)]

pub mod answer;
pub mod apply;
pub mod call;
pub mod read;
