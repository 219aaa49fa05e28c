// One call of the builder as a value, and lists of them.
#![tactic(auto)]

pub mod replay;
mod replies;
