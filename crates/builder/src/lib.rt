// The control-flow graph builder.
#![tactic(auto)]

pub mod builder;
