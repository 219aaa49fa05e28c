// The table of blocks, and that of their instructions.
ghost use Rattle.std.specs.Prelude.{◌≤◌, vec_capacity};
ghost use Rattle.blocks.specs.Tables.{Flagged, Inside};

use crate::basic_block::{BasicBlock, BlockInstruction};

mod methods;

// Up to 512 blocks and 2,048 instructions, their memory taken when the tables are made.
#[derive(Drop)]
pub struct BasicBlocks {
    items: Vec<BasicBlock>,
    instructions: Vec<BlockInstruction>,
    ghost items_fit: { 512 ≤ vec_capacity items },
    ghost instructions_fit: { 2048 ≤ vec_capacity instructions },
    ghost flagged: { Flagged items.items instructions.items },
    ghost inside: { Inside items.items instructions.items },
}
