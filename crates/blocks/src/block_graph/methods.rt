// What the builder does to its graph, each call with its room tried before. All of it is for the layers above.
ghost use Rattle.std.specs.Prelude.{◌≡◌, ◌<◌, false, length, IfOk, slice_index_or};
ghost use Rattle.std.specs.List.{slice_get};
ghost use Rattle.store.specs.View.{nodes_of, edges_of};
ghost use Rattle.blocks.specs.Blocks.{Grown, no_block, instructions_in, empty, edge_added, target_marked, block_added, instruction_added, mark_set};
ghost use Rattle.blocks.specs.View.{graph_of};
ghost use Rattle.kinds.specs.Replies.{told};

use super::BlockGraph;
use crate::basic_blocks::BasicBlocks;
use kinds::block::{BlockNodeId, Instruction};
use kinds::edge::EdgeType;
use kinds::refusal::Refusal;
use std::alloc::{AllocError, Global};
use store::edge_store::EdgeStore;

impl BlockGraph {
    // A graph with no blocks.
    pub fn new(heap: Global) -> Result<BlockGraph, AllocError>
        ensures { IfOk result (λ g. graph_of g ≡ empty) }
    {
        let basic_blocks = BasicBlocks::new(heap)?;
        let store = EdgeStore::new(heap)?;
        Ok(BlockGraph {
            basic_blocks,
            store,
        })
    }

    // The number of blocks. O(1).
    pub fn block_count(&self) -> usize
        ensures { result ≡ length (graph_of self.now).marks }
    {
        self.basic_blocks.len()
    }

    // The number of edges. O(1).
    pub fn edge_count(&self) -> usize
        ensures { result ≡ length (graph_of self.now).edges }
    {
        self.store.edge_count()
    }

    // The number of instructions in all blocks. O(1).
    pub fn instruction_count(&self) -> usize
        ensures { result ≡ length (graph_of self.now).instructions }
    {
        self.basic_blocks.instruction_count()
    }

    // The edges between the blocks. O(1).
    pub fn store(&self) -> &EdgeStore
        ensures nodes { nodes_of result.now ≡ length (graph_of self.now).marks }
        ensures edges { edges_of result.now ≡ (graph_of self.now).edges }
    {
        &self.store
    }

    // NO_BLOCK where the block does not exist. O(1).
    pub fn check_block(&self, block: BlockNodeId) -> Result<(), Refusal>
        ensures value { result ≡ told (no_block block (graph_of self.now)) tt }
        ensures known { IfOk result (λ _. block < length (graph_of self.now).marks) }
    {
        if block as usize >= self.basic_blocks.len() {
            return Err(Refusal::NoBlock);
        }
        Ok(())
    }

    // Whether a block is marked unreachable. O(1).
    pub fn is_unreachable(&self, block: BlockNodeId) -> bool
        requires { block < length (graph_of self.now).marks }
        ensures { result ≡ slice_index_or (graph_of self.now).marks block false }
    {
        self.basic_blocks.is_unreachable(block)
    }

    // The instruction of that index in a block, if the block has so many. O(n) in the instructions of all blocks.
    pub fn instruction(&self, block: BlockNodeId, index: usize) -> Option<Instruction>
        ensures { result ≡ slice_get (instructions_in block (graph_of self.now).instructions) index }
    {
        self.basic_blocks.instruction(block, index)
    }

    // One block more, reachable and with no instructions; answers its number. O(1).
    pub fn new_basic_block(&mut self) -> BlockNodeId
        requires { length (graph_of self.old).marks < 512 }
        ensures number { result ≡ length (graph_of self.old).marks }
        ensures sizes { Grown 1 0 0 (graph_of self.old) (graph_of self.new) }
        ensures graph { graph_of self.new ≡ block_added (graph_of self.old) }
    {
        let number = self.basic_blocks.len() as BlockNodeId;
        self.basic_blocks.push();
        self.store.add_node();
        number
    }

    // One instruction more in a block, behind those it has. O(1).
    pub fn push_instruction_to(&mut self, block: BlockNodeId, instruction: Instruction)
        requires within { block < length (graph_of self.old).marks }
        requires room { length (graph_of self.old).instructions < 2048 }
        ensures sizes { Grown 0 0 1 (graph_of self.old) (graph_of self.new) }
        ensures graph { graph_of self.new ≡ instruction_added block instruction (graph_of self.old) }
    {
        self.basic_blocks.push_instruction_to(block, instruction);
    }

    // Marks one block unreachable or reachable. O(1).
    pub fn set_unreachable(&mut self, block: BlockNodeId, unreachable: bool)
        requires { block < length (graph_of self.old).marks }
        ensures sizes { Grown 0 0 0 (graph_of self.old) (graph_of self.new) }
        ensures graph { graph_of self.new ≡ mark_set block unreachable (graph_of self.old) }
    {
        self.basic_blocks.set_unreachable(block, unreachable);
    }

    // Sets the mark of the target of an edge that is to come.
    fn mark_target(&mut self, a: BlockNodeId, b: BlockNodeId, kind: EdgeType)
        requires from { a < length (graph_of self.old).marks }
        requires to { b < length (graph_of self.old).marks }
        ensures sizes { Grown 0 0 0 (graph_of self.old) (graph_of self.new) }
        ensures graph { graph_of self.new ≡ target_marked a b kind (graph_of self.old) }
    {
        match kind {
            EdgeType::NewFunction => self.basic_blocks.set_unreachable(b, false),
            EdgeType::Unreachable if self.store.has_incoming(b) => {}
            EdgeType::Unreachable => self.basic_blocks.set_unreachable(b, true),
            _ if self.basic_blocks.is_unreachable(a) => {
                if !self.store.has_incoming(b) {
                    self.basic_blocks.set_unreachable(b, true)
                }
            }
            _ if self.basic_blocks.holds_unreachable(b) => {}
            _ => self.basic_blocks.set_unreachable(b, false),
        }
    }

    // One edge more, the newest at both its ends; its target's mark is set first, by the edges that came in before. O(1).
    pub fn add_edge(&mut self, a: BlockNodeId, b: BlockNodeId, kind: EdgeType)
        requires from { a < length (graph_of self.old).marks }
        requires to { b < length (graph_of self.old).marks }
        requires room { length (graph_of self.old).edges < 2048 }
        ensures sizes { Grown 0 1 0 (graph_of self.old) (graph_of self.new) }
        ensures graph { graph_of self.new ≡ edge_added a b kind (graph_of self.old) }
    {
        self.mark_target(a, b, kind);
        self.store.add_edge(a, b, kind);
    }
}
