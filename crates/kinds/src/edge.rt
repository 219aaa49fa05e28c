// The kinds of edges.
use crate::block::BlockNodeId;

// Which errors an error edge stands for.
#[derive(Clone, Copy, PartialEq, Eq)]
pub enum ErrorEdgeKind {
    // those of a block that can throw, led to the catch block that handles them
    Explicit,
    // those that any block may raise, led to the harness around it
    Implicit,
}

// What a step along an edge means.
#[derive(Clone, Copy, PartialEq, Eq)]
pub enum EdgeType {
    // a branch that is taken: a condition that holds, a break or a continue
    Jump,
    // what follows in the order of the text
    Normal,
    // from the end of a loop's body back to its head
    Backedge,
    // into the body of a nested function
    NewFunction,
    // into a finally block
    Finalize,
    // the way of an error
    Error(ErrorEdgeKind),
    // a way that control never takes
    Unreachable,
    // out of a finally block, to what follows it
    Join,
}

// An edge from a block to a block.
#[derive(Clone, Copy)]
pub struct Edge {
    pub source: BlockNodeId,
    pub target: BlockNodeId,
    pub kind: EdgeType,
}
