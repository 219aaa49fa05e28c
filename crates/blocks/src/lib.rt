// Basic blocks with their instructions and marks, and the edges between them.
#![tactic(auto)]

pub mod basic_block;
pub mod basic_blocks;
pub mod block_graph;
