// Loops over the entries of all contexts.
ghost use Rattle.std.specs.Prelude.{◌≡◌, ◌+◌, ◌<◌, ◌≤◌, cond, not, length, vec_capacity, count_by, filter};
ghost use Rattle.blocks.specs.Blocks.{Grown};
ghost use Rattle.blocks.specs.Highest.{above, highest};
ghost use Rattle.blocks.specs.View.{graph_of};
ghost use Rattle.contexts.specs.Tables.{waits_in, draws, lacks, one_drawn, all_drawn, above_block};

use crate::ctx::{Top, WaitingEntry};
use blocks::block_graph::BlockGraph;
use kinds::edge::EdgeType;

// How many entries of the context have a target, and how many have none, counted in one pass.
pub(super) fn counts(waiting: &[WaitingEntry], top: Top) -> (usize, usize)
    ensures drawn { result.0 ≡ count_by (draws top.number top.ctx) waiting.now }
    ensures untargeted { result.1 ≡ count_by (lacks top.number top.ctx) waiting.now }
{
    let mut drawn = 0;
    let mut untargeted = 0;
    for entry in waiting {
        let waits = entry.context == top.number;
        let has_target = top.ctx.target(entry.kind).is_some();
        drawn += usize::from(waits && has_target);
        untargeted += usize::from(waits && !has_target);
    }
    (drawn, untargeted)
}

// Draws the Jump edge of an entry of the context, if it has a target.
fn draw_one(graph: &mut BlockGraph, entry: WaitingEntry, top: Top)
    requires block { entry.block < length (graph_of graph.old).marks }
    requires breaks { above top.ctx.break_jmp ≤ length (graph_of graph.old).marks }
    requires continues { above top.ctx.continue_jmp ≤ length (graph_of graph.old).marks }
    requires room { length (graph_of graph.old).edges + cond (draws top.number top.ctx entry) 1 0 ≤ 2048 }
    ensures sizes { Grown 0 (cond (draws top.number top.ctx entry) 1 0) 0 (graph_of graph.old) (graph_of graph.new) }
    ensures graph { graph_of graph.new ≡ one_drawn top.number top.ctx entry (graph_of graph.old) }
{
    if entry.context == top.number {
        if let Some(target) = top.ctx.target(entry.kind) {
            graph.add_edge(entry.block, target, EdgeType::Jump);
        }
    }
}

// Draws the Jump edges of the entries of the context, in their order.
pub(super) fn draw(graph: &mut BlockGraph, waiting: &[WaitingEntry], top: Top)
    requires blocks { highest above_block waiting.now ≤ length (graph_of graph.old).marks }
    requires breaks { above top.ctx.break_jmp ≤ length (graph_of graph.old).marks }
    requires continues { above top.ctx.continue_jmp ≤ length (graph_of graph.old).marks }
    requires room { length (graph_of graph.old).edges + count_by (draws top.number top.ctx) waiting.now ≤ 2048 }
    ensures sizes { Grown 0 (count_by (draws top.number top.ctx) waiting.now) 0 (graph_of graph.old) (graph_of graph.new) }
    ensures graph { graph_of graph.new ≡ all_drawn top.number top.ctx waiting.now (graph_of graph.old) }
{
    for entry in waiting {
        draw_one(graph, *entry, top);
    }
}

// Takes the entries of one context out, and keeps the others in their order.
pub(super) fn release(waiting: &mut Vec<WaitingEntry>, context: usize)
    ensures items { waiting.new.items ≡ filter (λ w. not (waits_in context w)) waiting.old.items }
    ensures capacity { vec_capacity waiting.new ≡ vec_capacity waiting.old }
{
    waiting.retain(|entry| entry.context != context);
}
