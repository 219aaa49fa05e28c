// The examples of the rules, as a table.
#![tactic(auto)]

pub mod table;
