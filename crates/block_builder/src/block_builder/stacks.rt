// The two stacks of blocks that new blocks are tied to.
ghost use Rattle.std.specs.Prelude.{◌≡◌, ◌<◌, MatchOption};
ghost use Rattle.block_builder.specs.BlockState as state;
ghost use Rattle.block_builder.specs.BlockState.{Performs, block_count, last_of, nothing, finalizer_of};
ghost use Rattle.block_builder.specs.View.{state_of};

use super::BlockBuilder;
use crate::harness::ErrorHarness;
use crate::room::Room;
use kinds::block::BlockNodeId;
use kinds::edge::ErrorEdgeKind;
use kinds::refusal::Refusal;

impl BlockBuilder {
    // The newest harness.
    pub(super) fn top_harness(&self) -> Option<ErrorHarness>
        ensures value { result ≡ last_of (state_of self.now).harnesses }
        ensures known { MatchOption result (⊥ → ⊥) (λ h. h.block < block_count (state_of self.now)) }
    {
        self.error_path.last().copied()
    }

    // The newest finalizer or empty mark.
    fn top_finalizer(&self) -> Option<Option<BlockNodeId>>
        ensures { result ≡ last_of (state_of self.now).finalizers }
    {
        self.finalizers.last().copied()
    }

    // The finalizer that new blocks get an edge to, if there is one.
    pub(super) fn finalizer(&self) -> Option<BlockNodeId>
        ensures value { result ≡ finalizer_of (state_of self.now).finalizers }
        ensures known { MatchOption result (⊥ → ⊥) (λ b. b < block_count (state_of self.now)) }
    {
        self.top_finalizer().flatten()
    }

    // Makes a block that errors lead to, and answers its number. O(1).
    #[tactic(auto, using(blocks::proofs::Highest::highest_push))]
    pub fn attach_error_harness(&mut self, kind: ErrorEdgeKind) -> Result<BlockNodeId, Refusal>
        ensures { Performs state.harness_refusal (state.harness_attached kind) block_count (state_of self.old) (state_of self.new) result }
    {
        self.check_room(Room {
            blocks: 1,
            harnesses: 1,
            ..Room::NONE
        })?;
        let block = self.graph.new_basic_block();
        self.error_path.push_reserved(ErrorHarness { kind, block });
        Ok(block)
    }

    // Takes the newest harness off, which has to be the one expected. O(1).
    #[tactic(auto, using(blocks::proofs::Highest::highest_take))]
    pub fn release_error_harness(&mut self, expect: BlockNodeId) -> Result<(), Refusal>
        ensures { Performs (state.harness_release_refusal expect) state.harness_released nothing (state_of self.old) (state_of self.new) result }
    {
        self.check_block(expect)?;
        let harness = self.top_harness().ok_or(Refusal::NoHarness)?;
        if harness.block != expect {
            return Err(Refusal::NotTop);
        }
        let _ = self.error_path.pop();
        Ok(())
    }

    // Makes a block that new blocks get a Finalize edge to, and answers its number. O(1).
    #[tactic(auto, using(blocks::proofs::Highest::highest_push))]
    pub fn attach_finalizer(&mut self) -> Result<BlockNodeId, Refusal>
        ensures { Performs state.finalizer_refusal state.finalizer_attached block_count (state_of self.old) (state_of self.new) result }
    {
        self.check_room(Room {
            blocks: 1,
            finalizers: 1,
            ..Room::NONE
        })?;
        let block = self.graph.new_basic_block();
        self.finalizers.push_reserved(Some(block));
        Ok(block)
    }

    // Takes the newest finalizer off, which has to be the one expected; does nothing where there is none. O(1).
    #[tactic(auto, using(blocks::proofs::Highest::highest_take))]
    pub fn release_finalizer(&mut self, expect: BlockNodeId) -> Result<(), Refusal>
        ensures { Performs (state.finalizer_release_refusal expect) state.finalizer_released nothing (state_of self.old) (state_of self.new) result }
    {
        self.check_block(expect)?;
        let Some(top) = self.top_finalizer() else {
            return Ok(());
        };
        if top != Some(expect) {
            return Err(Refusal::NotTop);
        }
        let _ = self.finalizers.pop();
        Ok(())
    }

    // Puts an empty mark on the finalizer stack, so that new blocks get no Finalize edge. O(1).
    #[tactic(auto, using(blocks::proofs::Highest::highest_push))]
    pub fn push_finalization_stack(&mut self) -> Result<(), Refusal>
        ensures { Performs state.mark_refusal state.mark_pushed nothing (state_of self.old) (state_of self.new) result }
    {
        self.check_room(Room {
            finalizers: 1,
            ..Room::NONE
        })?;
        self.finalizers.push_reserved(None);
        Ok(())
    }

    // Takes an empty mark off the finalizer stack. O(1).
    #[tactic(auto, using(blocks::proofs::Highest::highest_take))]
    pub fn pop_finalization_stack(&mut self) -> Result<(), Refusal>
        ensures { Performs state.mark_pop_refusal state.finalizer_released nothing (state_of self.old) (state_of self.new) result }
    {
        if self.top_finalizer() != Some(None) {
            return Err(Refusal::NotTop);
        }
        let _ = self.finalizers.pop();
        Ok(())
    }
}
