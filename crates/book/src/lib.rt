// The book of the builder: the rules as definitions, and the calls and replies that they speak of.
#![tactic(auto)]

pub mod call;
pub mod law;
pub mod reply;
