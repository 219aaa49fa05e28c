// The builder's state but for the contexts.
ghost use Rattle.std.specs.Prelude.{◌≤◌, length, vec_capacity};
ghost use Rattle.block_builder.specs.BlockState.{above_harness};
ghost use Rattle.blocks.specs.Highest.{above, highest};
ghost use Rattle.blocks.specs.View.{graph_of};

use crate::harness::ErrorHarness;
use blocks::block_graph::BlockGraph;
use kinds::block::BlockNodeId;

mod append;
mod methods;
mod stacks;

// The graph, the current block, and up to 64 harnesses and 64 finalizers or empty marks, the newest last. Every block on the two stacks exists.
#[derive(Drop)]
pub struct BlockBuilder {
    graph: BlockGraph,
    current: BlockNodeId,
    error_path: Vec<ErrorHarness>,
    finalizers: Vec<Option<BlockNodeId>>,
    ghost error_path_fits: { 64 ≤ vec_capacity error_path },
    ghost finalizers_fit: { 64 ≤ vec_capacity finalizers },
    ghost harnesses_known: { highest above_harness error_path.items ≤ length (graph_of graph).marks },
    ghost finalizers_known: { highest above finalizers.items ≤ length (graph_of graph).marks },
}
