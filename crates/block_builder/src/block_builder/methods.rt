// The graph and the current block.
ghost use Rattle.std.specs.Prelude.{◌≡◌, ◌+◌, ◌<◌, ◌≤◌, length, None, IfOk, nat_lt};
ghost use Rattle.block_builder.specs.BlockState as state;
ghost use Rattle.block_builder.specs.BlockState.{Performs, Fits, initial, block_count, nothing};
ghost use Rattle.block_builder.specs.View.{state_of};
ghost use Rattle.blocks.specs.Highest.{highest};
ghost use Rattle.blocks.specs.View.{graph_of};
ghost use Rattle.contexts.specs.Contexts.{resolve_counts, drawn_of, top_drawn, below_top, waiting_count, block_bound};
ghost use Rattle.contexts.specs.View.{contexts_of};
ghost use Rattle.kinds.specs.Replies.{row, told};
ghost use Rattle.kinds.specs.declared.refusal.Refusal.TheVariants.{Full};

use super::BlockBuilder;
use crate::room::Room;
use blocks::block_graph::BlockGraph;
use contexts::ctx_stack::CtxStack;
use kinds::block::{BlockNodeId, Instruction, InstructionKind, NodeId};
use kinds::edge::EdgeType;
use kinds::refusal::Refusal;
use kinds::table::Table;
use std::alloc::{AllocError, Global};

// FULL where a table that holds so many, and can hold no more than its limit, has no room for those needed.
fn check_table(table: Table, held: usize, needed: usize, limit: usize) -> Result<(), Refusal>
    ensures value { result ≡ told (row (nat_lt limit (held + needed)) (Full table) None) tt }
    ensures fits { IfOk result (λ _. held + needed ≤ limit) }
{
    if needed > limit || held > limit - needed {
        return Err(Refusal::Full(table));
    }
    Ok(())
}

impl BlockBuilder {
    // No blocks; the current block is number 0 although there is none.
    pub fn new(heap: Global) -> Result<BlockBuilder, AllocError>
        ensures { IfOk result (λ b. state_of b ≡ initial) }
    {
        let graph = BlockGraph::new(heap)?;
        let error_path = Vec::with_capacity(heap, 64)?;
        let finalizers = Vec::with_capacity(heap, 64)?;
        Ok(BlockBuilder {
            graph,
            current: 0,
            error_path,
            finalizers,
        })
    }

    // The number of blocks. O(1).
    pub fn block_count(&self) -> usize
        ensures { result ≡ block_count (state_of self.now) }
    {
        self.graph.block_count()
    }

    // The current block, whether or not it exists. O(1).
    pub fn current(&self) -> BlockNodeId
        ensures { result ≡ (state_of self.now).current }
    {
        self.current
    }

    // NO_BLOCK where the block does not exist. O(1).
    pub fn check_block(&self, block: BlockNodeId) -> Result<(), Refusal>
        ensures value { result ≡ told (state.block_refusal block (state_of self.now)) tt }
        ensures known { IfOk result (λ _. block < block_count (state_of self.now)) }
    {
        self.graph.check_block(block)
    }

    // FULL with the first table that has no room for what a call needs. O(1).
    pub fn check_room(&self, needed: Room) -> Result<(), Refusal>
        ensures value { result ≡ told (state.first_full needed (state_of self.now)) tt }
        ensures fits { IfOk result (λ _. Fits needed (state_of self.now)) }
    {
        let graph = &self.graph;
        check_table(Table::Blocks, graph.block_count(), needed.blocks, 512)?;
        check_table(Table::Edges, graph.edge_count(), needed.edges, 2048)?;
        check_table(
            Table::Instructions,
            graph.instruction_count(),
            needed.instructions,
            2048,
        )?;
        check_table(
            Table::Harnesses,
            self.error_path.len(),
            needed.harnesses,
            64,
        )?;
        check_table(
            Table::Finalizers,
            self.finalizers.len(),
            needed.finalizers,
            64,
        )
    }

    // Makes a block current. O(1).
    pub fn set_current(&mut self, block: BlockNodeId) -> Result<(), Refusal>
        ensures { Performs (state.block_refusal block) (state.with_current block) nothing (state_of self.old) (state_of self.new) result }
    {
        self.check_block(block)?;
        self.current = block;
        Ok(())
    }

    // Marks one block unreachable or reachable. O(1).
    pub fn set_unreachable(&mut self, block: BlockNodeId, unreachable: bool) -> Result<(), Refusal>
        ensures { Performs (state.block_refusal block) (state.marked block unreachable) nothing (state_of self.old) (state_of self.new) result }
    {
        self.check_block(block)?;
        self.graph.set_unreachable(block, unreachable);
        Ok(())
    }

    // Adds an edge; its target's mark is set first. O(1).
    pub fn add_edge(
        &mut self,
        a: BlockNodeId,
        b: BlockNodeId,
        kind: EdgeType,
    ) -> Result<(), Refusal>
        ensures { Performs (state.edge_refusal a b) (state.linked a b kind) nothing (state_of self.old) (state_of self.new) result }
    {
        self.check_block(a)?;
        self.check_block(b)?;
        self.check_room(Room {
            edges: 1,
            ..Room::NONE
        })?;
        self.graph.add_edge(a, b, kind);
        Ok(())
    }

    // Adds an instruction to a block. O(1).
    pub fn push_instruction_to(
        &mut self,
        block: BlockNodeId,
        kind: InstructionKind,
        node_id: Option<NodeId>,
    ) -> Result<(), Refusal>
        ensures { Performs (state.instruction_refusal block) (state.instruction_pushed block kind node_id) nothing (state_of self.old) (state_of self.new) result }
    {
        self.check_block(block)?;
        self.check_room(Room {
            instructions: 1,
            ..Room::NONE
        })?;
        self.graph
            .push_instruction_to(block, Instruction { kind, node_id });
        Ok(())
    }

    // Adds an instruction to the current block. O(1).
    pub fn push_instruction(
        &mut self,
        kind: InstructionKind,
        node_id: Option<NodeId>,
    ) -> Result<(), Refusal>
        ensures { Performs state.current_refusal (state.current_pushed kind node_id) nothing (state_of self.old) (state_of self.new) result }
    {
        let block = self.current;
        self.push_instruction_to(block, kind, node_id)
    }

    // Closes the topmost context, if one is open, and draws the Jump edges of its entries. For the builder, which has tried the room.
    pub fn resolve(&mut self, contexts: &mut CtxStack)
        requires blocks { highest block_bound (contexts_of contexts.old) ≤ block_count (state_of self.old) }
        requires room { length (state_of self.old).graph.edges + drawn_of (resolve_counts (contexts_of contexts.old)) ≤ 2048 }
        ensures state { state_of self.new ≡ state.with_graph (top_drawn (contexts_of contexts.old) (state_of self.old).graph) (state_of self.old) }
        ensures count { block_count (state_of self.new) ≡ block_count (state_of self.old) }
        ensures text { contexts.new.text ≡ contexts.old.text }
        ensures contexts { contexts_of contexts.new ≡ below_top (contexts_of contexts.old) }
        ensures waiting { waiting_count (contexts_of contexts.new) ≡ waiting_count (below_top (contexts_of contexts.old)) }
        ensures blocks { highest block_bound (contexts_of contexts.new) ≤ highest block_bound (contexts_of contexts.old) }
    {
        contexts.resolve(&mut self.graph);
    }

    // Moves the graph out.
    pub fn into_graph(self) -> BlockGraph
        ensures { graph_of result ≡ (state_of self).graph }
    {
        let BlockBuilder {
            graph,
            current: _,
            error_path: _,
            finalizers: _,
        } = self;
        graph
    }
}
