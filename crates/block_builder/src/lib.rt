// The part of the builder that knows no context: the graph, the current block, and the blocks that new ones are tied to.
#![tactic(auto)]

pub mod block_builder;
pub mod harness;
pub mod room;
