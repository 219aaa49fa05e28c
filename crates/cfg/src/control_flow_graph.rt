// The built graph: its blocks, their instructions and marks, and its edges.
ghost use Rattle.std.specs.Prelude.{◌≡◌, length, IfOk};
ghost use Rattle.std.specs.Result.{result_err};
ghost use Rattle.kinds.specs.Replies.{told};
ghost use Rattle.store.specs.Edges.{listed};
ghost use Rattle.store.specs.View.{nodes_of, edges_of, left};
ghost use Rattle.blocks.specs.View.{graph_of as built};
ghost use Rattle.blocks.specs.Blocks.{no_block};
ghost use Rattle.cfg.specs.Reads.{mark_of, instruction_of};
ghost use Rattle.cfg.specs.View.{graph_of};

use blocks::block_graph::BlockGraph;
use book::reply::Tally;
use kinds::block::{BlockNodeId, Instruction};
use kinds::refusal::Refusal;
use store::direction::Direction;
use store::edge_store::EdgeStore;
use store::edges::Edges;

// A graph that was built: nothing changes it any more.
#[derive(Drop)]
pub struct ControlFlowGraph {
    pub(crate) blocks: BlockGraph,
    tally: Tally,
}

impl ControlFlowGraph {
    // The graph of the blocks that a builder made, with the builder's last tally. O(1).
    pub fn new(blocks: BlockGraph, tally: Tally) -> ControlFlowGraph
        ensures graph { graph_of result ≡ built blocks }
        ensures tally { result.tally ≡ tally }
    {
        ControlFlowGraph { blocks, tally }
    }

    // How many breaks and continues the builder was given, and what became of them. O(1).
    pub fn tally(&self) -> Tally
        ensures { result ≡ self.now.tally }
    {
        self.tally
    }

    // The number of blocks. O(1).
    pub fn block_count(&self) -> usize
        ensures { result ≡ length (graph_of self.now).marks }
    {
        self.blocks.block_count()
    }

    // The number of edges. O(1).
    pub fn edge_count(&self) -> usize
        ensures { result ≡ length (graph_of self.now).edges }
    {
        self.blocks.edge_count()
    }

    // Whether a block is marked unreachable. O(1).
    pub fn is_unreachable(&self, block: BlockNodeId) -> Result<bool, Refusal>
        ensures { result ≡ told (no_block block (graph_of self.now)) (mark_of block (graph_of self.now)) }
    {
        self.blocks.check_block(block)?;
        Ok(self.blocks.is_unreachable(block))
    }

    // The instruction of that index in a block, if the block has so many. O(n) in the instructions of all blocks.
    pub fn instruction(
        &self,
        block: BlockNodeId,
        index: usize,
    ) -> Result<Option<Instruction>, Refusal>
        ensures { result ≡ told (no_block block (graph_of self.now)) (instruction_of block index (graph_of self.now)) }
    {
        self.blocks.check_block(block)?;
        Ok(self.blocks.instruction(block, index))
    }

    // The edges as a graph of the interface, which reach, cycles and walks are asked of. O(1).
    pub fn graph(&self) -> &EdgeStore
        ensures nodes { nodes_of result.now ≡ length (graph_of self.now).marks }
        ensures edges { edges_of result.now ≡ (graph_of self.now).edges }
    {
        self.blocks.store()
    }

    // The edges that leave a block or come into it, newest first. O(1), and O(1) for each that is read.
    pub fn edges(&self, block: BlockNodeId, direction: Direction) -> Result<Edges<'_>, Refusal>
        ensures refusal { result_err result ≡ no_block block (graph_of self.now) }
        ensures lists { IfOk result (λ s. left s ≡ listed direction block (graph_of self.now).edges) }
    {
        self.blocks.check_block(block)?;
        Ok(self.edges_at(block, direction))
    }

    // The edges at a block; a number that is no block has none.
    pub(crate) fn edges_at(&self, block: BlockNodeId, direction: Direction) -> Edges<'_>
        ensures { left result ≡ listed direction block (graph_of self.now).edges }
    {
        self.blocks.store().edges(block, direction)
    }
}
