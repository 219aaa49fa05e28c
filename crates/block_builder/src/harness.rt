// The blocks that errors lead to.
use kinds::block::BlockNodeId;
use kinds::edge::ErrorEdgeKind;

// A block that errors lead to, and the kind of the edges to it.
#[derive(Clone, Copy)]
pub struct ErrorHarness {
    pub kind: ErrorEdgeKind,
    pub block: BlockNodeId,
}
