// The graph that a builder hands over, and what it answers.
#![tactic(auto)]

pub mod control_flow_graph;
pub mod evaluators;
pub mod loop_query;
