// The depth-first walk over any graph and any visitor.
#![tactic(auto)]

ghost use Rattle.std.specs.Prelude.{◌≡◌, ◌≤◌, false, length, replicate, None, Ok};
ghost use Rattle.std.specs.ControlFlow.{break_value};
ghost use Rattle.kinds.specs.Replies.{after, told};
ghost use Rattle.walk.specs.DepthSuffices.{DepthSuffices};
ghost use Rattle.walk.specs.NumbersOnce.{Numbered};
ghost use Rattle.walk.specs.SpansNested.{Spans};
ghost use Rattle.walk.specs.Walk.{walk};
ghost use Rattle.search.specs.Frames.{FramesAfter};
ghost use Rattle.search.specs.Refused.{no_block, walk_refusal};

use crate::explore::Search;
use crate::refuse::refuse_walk;
use graph::graph::Graph;
use kinds::refusal::Refusal;
use std::ops::ControlFlow;
use visit::frame::Frame;
use visit::guard::MarkGuard;
use visit::stack::Stack;
use visit::visitor::Visitor;

mod explore;
pub mod refuse;

// Walks the graph depth first from each start in order, skips those discovered, and reports each event to the visitor.
// Works on lent marks, which are clean again when it returns, and on lent frames, of which nothing but their number is kept.
// O(starts + blocks + listed neighbours).
pub fn set_depth_first_search<G: Graph, V: Visitor>(
    graph: &G,
    starts: &[u32],
    visitor: &mut V,
    marks: &mut [u8],
    frames: &mut [Frame<G::Place>],
) -> Result<Option<V::Stop>, Refusal>
    ensures marks { marks.new ≡ marks.old }
    ensures answer { result ≡ told (walk_refusal (G.Graph.meaning graph.now) starts.now marks.old frames.old)
        (walk V.Visitor.meaning (G.Graph.meaning graph.now) starts.now visitor.old).stop }
    ensures visitor { visitor.new ≡ after (walk_refusal (G.Graph.meaning graph.now) starts.now marks.old frames.old)
        visitor.old (walk V.Visitor.meaning (G.Graph.meaning graph.now) starts.now visitor.old).visitor }
    ensures frames { FramesAfter (walk_refusal (G.Graph.meaning graph.now) starts.now marks.old frames.old)
        frames.old frames.new }
    ensures numbers { result ≡ Ok None → Numbered (walk V.Visitor.meaning (G.Graph.meaning graph.now) starts.now visitor.old).log }
    ensures spans { walk_refusal (G.Graph.meaning graph.now) starts.now marks.old frames.old ≡ None
        → Spans (walk V.Visitor.meaning (G.Graph.meaning graph.now) starts.now visitor.old).log
        (walk V.Visitor.meaning (G.Graph.meaning graph.now) starts.now visitor.old).stop }
    ensures depth { walk_refusal (G.Graph.meaning graph.now) starts.now marks.old frames.old ≡ None
        → DepthSuffices V.Visitor.meaning (G.Graph.meaning graph.now) starts.now visitor.old }
{
    let count = graph.node_count();
    refuse_walk(count, starts, marks, frames.len())?;
    let ended = walk_from(graph, starts, visitor, &mut marks[..count], frames);
    Ok(ended.break_value())
}

// Walks the graph from the starts, which are blocks, on clean marks, one for each block, and on as many frames or more.
fn walk_from<G: Graph, V: Visitor>(
    graph: &G,
    starts: &[u32],
    visitor: &mut V,
    marks: &mut [u8],
    frames: &mut [Frame<G::Place>],
) -> ControlFlow<V::Stop>
    requires blocks { no_block (G.Graph.meaning graph.now).size starts.now ≡ false }
    requires clean { marks.old ≡ replicate (G.Graph.meaning graph.now).size 0 }
    requires room { (G.Graph.meaning graph.now).size ≤ length frames.old }
    ensures marks { marks.new ≡ marks.old }
    ensures answer { break_value result ≡ (walk V.Visitor.meaning (G.Graph.meaning graph.now) starts.now visitor.old).stop }
    ensures visitor { visitor.new ≡ (walk V.Visitor.meaning (G.Graph.meaning graph.now) starts.now visitor.old).visitor }
{
    let mut guard = MarkGuard { marks };
    let mut stack = Stack::new(frames);
    let mut search = Search {
        graph,
        visitor,
        guard: &mut guard,
        stack: &mut stack,
        time: 0,
    };
    search.run(starts)
}
