// The words, numbers and lists of a script's line.
#![tactic(auto)]

pub mod arguments;
pub mod contexts;
pub mod kind_names;
pub mod list;
pub mod number;
pub mod separator;
pub mod words;
