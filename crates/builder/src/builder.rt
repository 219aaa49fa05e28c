// The builder: blocks, contexts and counts.
ghost use Rattle.std.specs.Prelude.{◌≡◌, ◌+◌, ◌≤◌};
ghost use Rattle.block_builder.specs.BlockState.{block_count};
ghost use Rattle.block_builder.specs.View.{state_of};
ghost use Rattle.blocks.specs.Highest.{highest};
ghost use Rattle.contexts.specs.Contexts.{waiting_count, block_bound};
ghost use Rattle.contexts.specs.View.{contexts_of};

use block_builder::block_builder::BlockBuilder;
use contexts::ctx_stack::CtxStack;

mod context;
mod methods;

// Builds a graph call by call. Every block that a context names exists, and every break and continue given is counted among one of the others.
#[derive(Drop)]
pub struct ControlFlowGraphBuilder<'a> {
    blocks: BlockBuilder,
    contexts: CtxStack<'a>,
    given: usize,
    unfiled: usize,
    drawn: usize,
    untargeted: usize,
    ghost blocks_known: { highest block_bound (contexts_of contexts) ≤ block_count (state_of blocks) },
    ghost balanced: { given ≡ unfiled + waiting_count (contexts_of contexts) + drawn + untargeted },
    ghost given_fits: { given ≤ 65535 },
}
