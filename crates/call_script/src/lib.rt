// The calls of a call script, read from a line.
#![tactic(auto)]

mod block_calls;
mod context_calls;
mod instruction_calls;
pub mod read;
