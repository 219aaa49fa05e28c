// One block or one instruction at a time; the others stay as they are. All of it is for the layers above.
ghost use Rattle.std.specs.Prelude.{◌≡◌, ◌+◌, ◌<◌, false, [], ◌∷◌, ◌++◌, length, IfOk, slice_index_or, slice_set};
ghost use Rattle.std.specs.List.{slice_get};
ghost use Rattle.blocks.specs.Blocks.{holds_unreachable, instructions_in};
ghost use Rattle.blocks.specs.TablesView.{marks_of, instructions_of};

use super::BasicBlocks;
use crate::basic_block::{BasicBlock, BlockInstruction};
use kinds::block::{BlockNodeId, Instruction, InstructionKind};
use std::alloc::{AllocError, Global};

// The instruction of that index among those of a block. One loop: a chain of filter and nth is two, and takes half as long again.
fn nth_in(items: &[BlockInstruction], block: BlockNodeId, index: usize) -> Option<Instruction>
    ensures { result ≡ slice_get (instructions_in block items.now) index }
{
    let mut left = index;
    for item in items {
        if item.block == block {
            if left == 0 {
                return Some(item.instruction);
            }
            left -= 1;
        }
    }
    None
}

impl BasicBlocks {
    // Tables with no blocks and no instructions.
    pub fn new(heap: Global) -> Result<BasicBlocks, AllocError>
        ensures marks { IfOk result (λ s. marks_of s ≡ []) }
        ensures instructions { IfOk result (λ s. instructions_of s ≡ []) }
    {
        let items = Vec::with_capacity(heap, 512)?;
        let instructions = Vec::with_capacity(heap, 2048)?;
        Ok(BasicBlocks {
            items,
            instructions,
        })
    }

    // The number of blocks. O(1).
    pub fn len(&self) -> usize
        ensures { result ≡ length (marks_of self.now) }
    {
        self.items.len()
    }

    // The number of instructions in all blocks. O(1).
    pub fn instruction_count(&self) -> usize
        ensures { result ≡ length (instructions_of self.now) }
    {
        self.instructions.len()
    }

    // One block more, reachable and with no instructions. O(1).
    pub fn push(&mut self)
        requires { length (marks_of self.old) < 512 }
        ensures marks { marks_of self.new ≡ marks_of self.old ++ false ∷ [] }
        ensures count { length (marks_of self.new) ≡ length (marks_of self.old) + 1 }
        ensures instructions { instructions_of self.new ≡ instructions_of self.old }
    {
        self.items.push_reserved(BasicBlock {
            unreachable: false,
            holds_unreachable: false,
        });
    }

    // Whether the block is marked unreachable. O(1).
    pub fn is_unreachable(&self, block: BlockNodeId) -> bool
        requires { block < length (marks_of self.now) }
        ensures { result ≡ slice_index_or (marks_of self.now) block false }
    {
        self.items[block as usize].unreachable
    }

    // Whether the block holds an Unreachable instruction. O(1).
    pub fn holds_unreachable(&self, block: BlockNodeId) -> bool
        requires { block < length (marks_of self.now) }
        ensures { result ≡ holds_unreachable block (instructions_of self.now) }
    {
        self.items[block as usize].holds_unreachable
    }

    // The instruction of that index in a block, if the block has so many. O(n) in the instructions of all blocks.
    pub fn instruction(&self, block: BlockNodeId, index: usize) -> Option<Instruction>
        ensures { result ≡ slice_get (instructions_in block (instructions_of self.now)) index }
    {
        nth_in(self.instructions.as_slice(), block, index)
    }

    // Marks one block unreachable or reachable. O(1).
    pub fn set_unreachable(&mut self, block: BlockNodeId, unreachable: bool)
        requires { block < length (marks_of self.old) }
        ensures marks { marks_of self.new ≡ slice_set (marks_of self.old) block unreachable }
        ensures instructions { instructions_of self.new ≡ instructions_of self.old }
    {
        self.items[block as usize].unreachable = unreachable;
    }

    // One instruction more in a block, behind those it has. O(1).
    pub fn push_instruction_to(&mut self, block: BlockNodeId, instruction: Instruction)
        requires within { block < length (marks_of self.old) }
        requires room { length (instructions_of self.old) < 2048 }
        ensures marks { marks_of self.new ≡ marks_of self.old }
        ensures instructions { instructions_of self.new ≡ instructions_of self.old ++ record { block = block; instruction = instruction } ∷ [] }
        ensures count { length (instructions_of self.new) ≡ length (instructions_of self.old) + 1 }
    {
        self.instructions
            .push_reserved(BlockInstruction { block, instruction });
        if instruction.kind == InstructionKind::Unreachable {
            self.items[block as usize].holds_unreachable = true;
        }
    }
}
