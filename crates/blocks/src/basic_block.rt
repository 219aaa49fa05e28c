// The rows of the tables of blocks and of instructions.
use kinds::block::{BlockNodeId, Instruction};

// A block: whether it is marked unreachable, and whether it holds an Unreachable instruction.
#[derive(Clone, Copy)]
pub struct BasicBlock {
    pub unreachable: bool,
    pub holds_unreachable: bool,
}

// An instruction in its block.
#[derive(Clone, Copy)]
pub struct BlockInstruction {
    pub block: BlockNodeId,
    pub instruction: Instruction,
}
