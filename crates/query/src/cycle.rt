// Whether a block lies on a cycle.
ghost use Rattle.std.specs.Prelude.{◌≡◌, [], ◌∷◌, IfOk};
ghost use Rattle.kinds.specs.Replies.{told};
ghost use Rattle.walk.specs.Cycle.{cyclic};
ghost use Rattle.walk.specs.CycleIsWayBack.{CycleIsWayBack};
ghost use Rattle.search.specs.Frames.{FramesAfter};
ghost use Rattle.search.specs.Refused.{walk_refusal};

use crate::visitors::CycleVisitor;
use graph::graph::Graph;
use kinds::refusal::Refusal;
use search::set_depth_first_search;
use visit::frame::Frame;

// Whether a nonempty way over listed neighbours, permitted or not, leads from the block back to it. O(blocks + listed neighbours).
pub fn is_cyclic<G: Graph>(
    graph: &G,
    block: u32,
    marks: &mut [u8],
    frames: &mut [Frame<G::Place>],
) -> Result<bool, Refusal>
    ensures marks { marks.new ≡ marks.old }
    ensures frames { FramesAfter (walk_refusal (G.Graph.meaning graph.now) (block ∷ []) marks.old frames.old)
        frames.old frames.new }
    ensures answer { result ≡ told (walk_refusal (G.Graph.meaning graph.now) (block ∷ []) marks.old frames.old)
        (cyclic (G.Graph.meaning graph.now) block) }
    ensures law { IfOk result (CycleIsWayBack (G.Graph.meaning graph.now) block) }
{
    let mut visitor = CycleVisitor { block };
    let stop = set_depth_first_search(graph, &[block], &mut visitor, marks, frames)?;
    Ok(stop.is_some())
}
