// Whether a block is reached from another.
ghost use Rattle.std.specs.Prelude.{◌≡◌, ℕ, true, ◌↔◌, [], ◌∷◌, IfOk};
ghost use Rattle.kinds.specs.Replies.{told};
ghost use Rattle.walk.specs.declared.event.Control.TheVariants.{Continue};
ghost use Rattle.walk.specs.Reach.{Passing, reachable};
ghost use Rattle.walk.specs.ReachIsDistance.{ReachIsDistance};
ghost use Rattle.walk.specs.Ways.{Distance};
ghost use Rattle.search.specs.Frames.{FramesAfter};
ghost use Rattle.search.specs.Refused.{walk_refusal};

use crate::filter::Filter;
use crate::filters::PassAll;
use crate::visitors::ReachVisitor;
use graph::graph::Graph;
use kinds::refusal::Refusal;
use search::refuse::refuse_walk;
use search::set_depth_first_search;
use visit::frame::Frame;

// Whether `to` is reached from `from` over permitted steps, where the filter is asked about each block that a step leaves. O(blocks + listed neighbours).
pub fn is_reachable_filtered<G: Graph, F: Filter>(
    graph: &G,
    from: u32,
    to: u32,
    filter: &F,
    marks: &mut [u8],
    frames: &mut [Frame<G::Place>],
) -> Result<bool, Refusal>
    ensures marks { marks.new ≡ marks.old }
    ensures frames { FramesAfter (walk_refusal (G.Graph.meaning graph.now) (from ∷ to ∷ []) marks.old frames.old)
        frames.old frames.new }
    ensures answer { result ≡ told (walk_refusal (G.Graph.meaning graph.now) (from ∷ to ∷ []) marks.old frames.old)
        (reachable (G.Graph.meaning graph.now) (F.Filter.meaning filter.now) from to) }
    ensures law { IfOk result (ReachIsDistance (G.Graph.meaning graph.now) (F.Filter.meaning filter.now) from to) }
{
    refuse_walk(graph.node_count(), &[from, to], marks, frames.len())?;
    if from == to {
        return Ok(true);
    }
    let mut visitor = ReachVisitor {
        graph,
        filter,
        target: to,
    };
    let stop = set_depth_first_search(graph, &[from], &mut visitor, marks, frames)?;
    Ok(stop.unwrap_or(false))
}

// Whether `to` is reached from `from` over permitted steps. O(blocks + listed neighbours).
pub fn is_reachable<G: Graph>(
    graph: &G,
    from: u32,
    to: u32,
    marks: &mut [u8],
    frames: &mut [Frame<G::Place>],
) -> Result<bool, Refusal>
    ensures marks { marks.new ≡ marks.old }
    ensures frames { FramesAfter (walk_refusal (G.Graph.meaning graph.now) (from ∷ to ∷ []) marks.old frames.old)
        frames.old frames.new }
    ensures answer { result ≡ told (walk_refusal (G.Graph.meaning graph.now) (from ∷ to ∷ []) marks.old frames.old)
        (reachable (G.Graph.meaning graph.now) (λ _. Continue) from to) }
    ensures law { IfOk result (λ answer. (answer ≡ true) ↔ ((k : ℕ) × Distance (Passing (G.Graph.meaning graph.now) (λ _. Continue)) from to k)) }
{
    is_reachable_filtered(graph, from, to, &PassAll {}, marks, frames)
}
