// New blocks, tied to the newest harness and finalizer.
ghost use Rattle.std.specs.Prelude.{◌≡◌, ◌+◌, ◌<◌, ◌≤◌, length, None, IfOk, MatchOption};
ghost use Rattle.std.specs.Result.{result_err};
ghost use Rattle.block_builder.specs.BlockState as state;
ghost use Rattle.block_builder.specs.BlockState.{Performs, Tied, block_count, count_of, nothing};
ghost use Rattle.block_builder.specs.View.{state_of};
ghost use Rattle.blocks.specs.Blocks.{Grown};
ghost use Rattle.kinds.specs.Replies.{told};

use super::BlockBuilder;
use crate::harness::ErrorHarness;
use crate::room::Room;
use kinds::block::{BlockNodeId, Instruction, InstructionKind, NodeId};
use kinds::edge::EdgeType;
use kinds::refusal::Refusal;

// The blocks that a new block is tied to: the newest harness, and the newest finalizer, if there is one.
#[derive(Clone, Copy)]
struct Ties {
    harness: ErrorHarness,
    finalizer: Option<BlockNodeId>,
}

impl BlockBuilder {
    // The ties of a new block that takes so many edges beside that to its finalizer, and so many instructions, where there is a harness and room.
    fn ties(&self, edges: usize, instructions: usize) -> Result<Ties, Refusal>
        requires { edges ≤ 2 }
        ensures refusal { result_err result ≡ state.block_full edges instructions (state_of self.now) }
        ensures ties { IfOk result (Tied edges instructions (state_of self.now)) }
    {
        let harness = self.top_harness().ok_or(Refusal::NoHarness)?;
        let finalizer = self.finalizer();
        self.check_room(Room {
            blocks: 1,
            edges: edges + usize::from(finalizer.is_some()),
            instructions,
            ..Room::NONE
        })?;
        Ok(Ties { harness, finalizer })
    }

    // Makes a block with its edges to the harness and, if there is one, to the finalizer; makes it current and answers its number.
    fn make_block(&mut self, ties: Ties) -> BlockNodeId
        requires harness { ties.harness.block < block_count (state_of self.old) }
        requires finalizer { MatchOption ties.finalizer (⊥ → ⊥) (λ b. b < block_count (state_of self.old)) }
        requires blocks { block_count (state_of self.old) + 1 ≤ 512 }
        requires edges { length (state_of self.old).graph.edges + (1 + count_of ties.finalizer) ≤ 2048 }
        ensures number { result ≡ block_count (state_of self.old) }
        ensures sizes { Grown 1 (1 + count_of ties.finalizer) 0 (state_of self.old).graph (state_of self.new).graph }
        ensures state { state_of self.new ≡ state.block_made ties.harness ties.finalizer (state_of self.old) }
    {
        let block = self.graph.new_basic_block();
        self.current = block;
        let harness = ties.harness;
        self.graph
            .add_edge(block, harness.block, EdgeType::Error(harness.kind));
        if let Some(finalizer) = ties.finalizer {
            self.graph.add_edge(block, finalizer, EdgeType::Finalize);
        }
        block
    }

    // Makes a normal block, makes it current and answers its number. O(1).
    pub fn new_basic_block_normal(&mut self) -> Result<BlockNodeId, Refusal>
        ensures { Performs state.normal_refusal state.normal_made block_count (state_of self.old) (state_of self.new) result }
    {
        let ties = self.ties(1, 0)?;
        Ok(self.make_block(ties))
    }

    // Makes a block that control does not get to from the current one, and makes it current.
    fn make_unreachable(&mut self, ties: Ties)
        requires harness { ties.harness.block < block_count (state_of self.old) }
        requires finalizer { MatchOption ties.finalizer (⊥ → ⊥) (λ b. b < block_count (state_of self.old)) }
        requires current { (state_of self.old).current < block_count (state_of self.old) }
        requires blocks { block_count (state_of self.old) + 1 ≤ 512 }
        requires edges { length (state_of self.old).graph.edges + (2 + count_of ties.finalizer) ≤ 2048 }
        requires instructions { length (state_of self.old).graph.instructions + 1 ≤ 2048 }
        ensures count { block_count (state_of self.new) ≡ block_count (state_of self.old) + 1 }
        ensures state { state_of self.new ≡ state.unreachable_made ties.harness ties.finalizer (state_of self.old) }
    {
        let old = self.current;
        let block = self.make_block(ties);
        self.graph.push_instruction_to(
            block,
            Instruction {
                kind: InstructionKind::Unreachable,
                node_id: None,
            },
        );
        self.graph.set_unreachable(block, true);
        self.graph.add_edge(old, block, EdgeType::Unreachable);
    }

    // Makes an unreachable block, with an Unreachable edge from the block that was current. O(1).
    pub fn append_unreachable(&mut self) -> Result<(), Refusal>
        ensures { Performs (state.append_refusal 1) state.unreachable_appended nothing (state_of self.old) (state_of self.new) result }
    {
        self.check_block(self.current)?;
        let ties = self.ties(2, 1)?;
        self.make_unreachable(ties);
        Ok(())
    }

    // Refused where there is no harness or no room for a terminator. For the builder, which asks before it files an entry. O(1).
    pub fn check_terminator(&self) -> Result<(), Refusal>
        ensures value { result ≡ told (state.append_full 2 (state_of self.now)) tt }
        ensures none { IfOk result (λ _. state.append_full 2 (state_of self.now) ≡ None) }
    {
        self.ties(2, 2).map(|_| ())
    }

    // Adds an instruction that ends the current block, and an unreachable block after it. O(1).
    pub fn append_terminator(
        &mut self,
        kind: InstructionKind,
        node_id: Option<NodeId>,
    ) -> Result<(), Refusal>
        ensures { Performs (state.append_refusal 2) (state.terminator_appended kind node_id) nothing (state_of self.old) (state_of self.new) result }
    {
        self.check_block(self.current)?;
        let ties = self.ties(2, 2)?;
        self.graph
            .push_instruction_to(self.current, Instruction { kind, node_id });
        self.make_unreachable(ties);
        Ok(())
    }
}
