// The open contexts, and the breaks and continues that wait in them.
#![tactic(auto)]

mod ctx;
pub mod ctx_stack;
