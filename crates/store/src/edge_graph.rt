// An edge store as a graph: a block lists the targets of its outgoing edges, newest first.
ghost use Rattle.std.specs.Prelude.{◌≡◌};
ghost use Rattle.store.specs.Edges.{rest};
ghost use Rattle.store.specs.Paths.{leads, meaning_of, targets};
ghost use Rattle.store.specs.Soundness.{store_sound, store_within};
ghost use Rattle.store.specs.View.{edges_of};
ghost use Rattle.store.specs.declared.direction.Direction.TheVariants.{Outgoing};

use crate::direction::Direction;
use crate::edge_store::EdgeStore;
use graph::graph::{Graph, Step};
use kinds::block::BlockNodeId;
use kinds::edge::{Edge, EdgeType};

// Whether an edge leads to the block, and its kind permits a step along it. O(1).
fn leads(edge: Edge, block: BlockNodeId) -> bool
    ensures { result ≡ leads block edge }
{
    edge.target == block && !matches!(edge.kind, EdgeType::NewFunction | EdgeType::Unreachable)
}

impl Graph for EdgeStore {
    // the number of the edge that is next to be read
    type Place = Option<usize>;

    ghost meaning = { meaning_of };

    ghost rest = { λ s p. targets (rest Outgoing (edges_of s) p) };

    ghost sound = { store_sound };

    ghost within = { store_within };

    fn node_count(&self) -> usize {
        self.node_count()
    }

    fn head(&self, block: u32) -> Option<usize> {
        self.first_edge(block, Direction::Outgoing)
    }

    fn next(&self, place: Option<usize>) -> Option<Step<Option<usize>>> {
        let step = self.next_edge(place, Direction::Outgoing)?;
        Some(Step {
            block: step.edge.target,
            next: step.next,
        })
    }

    fn permitted(&self, from: u32, to: u32) -> bool {
        self.edges(from, Direction::Outgoing)
            .any(|edge| leads(edge, to))
    }
}
