// The linked edge store: a node keeps its first edge in each direction, an edge the next one.
#![tactic(auto)]

pub mod direction;
pub mod edge_graph;
pub mod edge_store;
pub mod edges;
mod link;
