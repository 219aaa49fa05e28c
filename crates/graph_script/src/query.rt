// What a line of a call script can ask of the built graph, beside what it can ask of any graph.
use kinds::block::{BlockNodeId, InstructionKind, NodeId};

// Which instructions the loop query finds true.
#[derive(Drop)]
pub enum Evaluator {
    // those of a kind
    Kind(InstructionKind),
    // those of some nodes
    Nodes(Vec<NodeId>),
}

#[derive(Drop)]
pub enum GraphQuery {
    // how many blocks, and how many edges, there are
    Blocks,
    Edges,
    // the mark and the instructions of a block
    Block(BlockNodeId),
    // the edges that leave a block, and those that come into it
    Outgoing(BlockNodeId),
    Incoming(BlockNodeId),
    // the two ends of the infinite loop that a block starts
    IsInfiniteLoopStart(BlockNodeId, Evaluator),
    // what became of the breaks and continues
    Tally,
}
