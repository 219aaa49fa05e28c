// The topmost context, and what resolving it draws. All of it is for the layers above.
ghost use Rattle.std.specs.Prelude.{◌≡◌, ◌+◌, ◌<◌, ◌≤◌, length, MatchOption};
ghost use Rattle.blocks.specs.Blocks.{Grown};
ghost use Rattle.blocks.specs.Highest.{above, highest};
ghost use Rattle.blocks.specs.View.{graph_of};
ghost use Rattle.contexts.specs.Contexts.{top_number, top_flags, top_continue, below_top, upper_label, resolve_counts, drawn_of, top_drawn, waiting_count, block_bound};
ghost use Rattle.contexts.specs.Tables.{TopIs};
ghost use Rattle.contexts.specs.View.{contexts_of};

use super::{CtxStack, entries};
use crate::ctx::Top;
use blocks::block_graph::BlockGraph;
use kinds::block::BlockNodeId;
use kinds::context::CtxFlags;

impl<'a> CtxStack<'a> {
    // The topmost context, if one is open.
    fn last(&self) -> Option<Top>
        ensures { TopIs self.now.stack.items self.now.waiting.items result }
    {
        let ctx = *self.stack.last()?;
        Some(Top {
            number: self.stack.len() - 1,
            ctx,
        })
    }

    // The number of the topmost context, if one is open. O(1).
    pub fn top(&self) -> Option<usize>
        ensures value { result ≡ top_number (contexts_of self.now) }
        ensures within { MatchOption result (⊥ → ⊥) (λ i. i < length (contexts_of self.now)) }
    {
        self.last().map(|top| top.number)
    }

    // The flags of the topmost context, if one is open. O(1).
    pub fn top_flags(&self) -> Option<CtxFlags>
        ensures { result ≡ top_flags (contexts_of self.now) }
    {
        self.last().map(|top| top.ctx.flags)
    }

    // The continue target of the topmost context, if one is open and it is marked. O(1).
    pub fn top_continue(&self) -> Option<BlockNodeId>
        ensures value { result ≡ top_continue (contexts_of self.now) }
        ensures known { above result ≤ highest block_bound (contexts_of self.now) }
    {
        self.last()?.ctx.continue_jmp
    }

    // The number of the topmost context, if it is labelled and has no continue target. O(1).
    pub fn upper_label(&self) -> Option<usize>
        ensures value { result ≡ upper_label (contexts_of self.now) }
        ensures within { MatchOption result (⊥ → ⊥) (λ i. i < length (contexts_of self.now)) }
    {
        let top = self.last()?;
        top.lacks_continue().then_some(top.number)
    }

    // How many entries of the topmost context have a target, and how many have none; none with no context open. O(waiting entries).
    pub fn resolve_counts(&self) -> Option<(usize, usize)>
        ensures value { result ≡ resolve_counts (contexts_of self.now) }
        ensures waiting { MatchOption result (⊥ → ⊥) (λ p. p.0 + p.1 + waiting_count (below_top (contexts_of self.now)) ≡ waiting_count (contexts_of self.now)) }
    {
        let top = self.last()?;
        Some(entries::counts(&self.waiting, top))
    }

    // Closes the topmost context, if one is open, and draws the Jump edges of its entries in their order. O(waiting entries).
    pub fn resolve(&mut self, graph: &mut BlockGraph)
        requires blocks { highest block_bound (contexts_of self.old) ≤ length (graph_of graph.old).marks }
        requires room { length (graph_of graph.old).edges + drawn_of (resolve_counts (contexts_of self.old)) ≤ 2048 }
        ensures text { self.new.text ≡ self.old.text }
        ensures contexts { contexts_of self.new ≡ below_top (contexts_of self.old) }
        ensures waiting { waiting_count (contexts_of self.new) ≡ waiting_count (below_top (contexts_of self.old)) }
        ensures blocks { highest block_bound (contexts_of self.new) ≤ highest block_bound (contexts_of self.old) }
        ensures sizes { Grown 0 (drawn_of (resolve_counts (contexts_of self.old))) 0 (graph_of graph.old) (graph_of graph.new) }
        ensures graph { graph_of graph.new ≡ top_drawn (contexts_of self.old) (graph_of graph.old) }
    {
        let Some(top) = self.last() else {
            return;
        };
        entries::draw(graph, &self.waiting, top);
        entries::release(&mut self.waiting, top.number);
        let _ = self.stack.pop();
    }
}
