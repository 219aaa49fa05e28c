// What the layers above ask of an edge store. Those calls with a `requires` are for them alone: they have tried the limits before.
ghost use Rattle.std.specs.Prelude.{◌≡◌, ◌+◌, ◌<◌, [], ◌∷◌, ◌++◌, length, IfOk, Some};
ghost use Rattle.store.specs.Edges.{listed, has_edge, HeadOf, StepsTo};
ghost use Rattle.store.specs.Links.{toward};
ghost use Rattle.store.specs.View.{edges_of, nodes_of, left};
ghost use Rattle.store.specs.declared.direction.Direction.{Direction};
ghost use Rattle.store.specs.declared.direction.Direction.TheVariants.{Incoming};

use super::EdgeStore;
use crate::direction::{Direction, PerDirection};
use crate::edges::Edges;
use crate::link::{Link, Node};
use kinds::block::BlockNodeId;
use kinds::edge::{Edge, EdgeType};
use std::alloc::{AllocError, Global};

// A node with no edges.
const ISOLATED: Node = Node {
    first: PerDirection {
        outgoing: None,
        incoming: None,
    },
};

// An edge of a list, and the place that follows it.
#[derive(Clone, Copy)]
pub struct EdgeStep {
    pub edge: Edge,
    pub next: Option<usize>,
}

impl EdgeStore {
    // A store with no nodes and no edges.
    pub fn new(heap: Global) -> Result<EdgeStore, AllocError>
        ensures nodes { IfOk result (λ s. nodes_of s ≡ 0) }
        ensures edges { IfOk result (λ s. edges_of s ≡ []) }
    {
        let nodes = Vec::with_capacity(heap, 512)?;
        let links = Vec::with_capacity(heap, 2048)?;
        Ok(EdgeStore { nodes, links })
    }

    // The number of nodes. O(1).
    pub fn node_count(&self) -> usize
        ensures { result ≡ nodes_of self.now }
    {
        self.nodes.len()
    }

    // The number of edges. O(1).
    pub fn edge_count(&self) -> usize
        ensures { result ≡ length (edges_of self.now) }
    {
        self.links.len()
    }

    // One node more, with no edges. O(1).
    pub fn add_node(&mut self)
        requires { nodes_of self.old < 512 }
        ensures nodes { nodes_of self.new ≡ nodes_of self.old + 1 }
        ensures edges { edges_of self.new ≡ edges_of self.old }
    {
        self.nodes.push_reserved(ISOLATED);
    }

    // One edge more, the newest at both its ends. O(1).
    pub fn add_edge(&mut self, source: BlockNodeId, target: BlockNodeId, kind: EdgeType)
        requires from { source < nodes_of self.old }
        requires to { target < nodes_of self.old }
        requires room { length (edges_of self.old) < 2048 }
        ensures nodes { nodes_of self.new ≡ nodes_of self.old }
        ensures edges { edges_of self.new ≡ edges_of self.old ++ record { source = source; target = target; kind = kind } ∷ [] }
        ensures count { length (edges_of self.new) ≡ length (edges_of self.old) + 1 }
    {
        let at = self.links.len();
        let next = PerDirection {
            outgoing: self.nodes[source as usize].first.outgoing,
            incoming: self.nodes[target as usize].first.incoming,
        };
        self.links.push_reserved(Link {
            edge: Edge {
                source,
                target,
                kind,
            },
            next,
        });
        self.nodes[source as usize].first.outgoing = Some(at);
        self.nodes[target as usize].first.incoming = Some(at);
    }

    // The node of a block; a number that is no block has one with no edges.
    fn node(&self, block: BlockNodeId) -> Node
        ensures { (d : Direction) → HeadOf d block (edges_of self.now) (toward d result.first) }
    {
        self.nodes.get(block as usize).copied().unwrap_or(ISOLATED)
    }

    // The place at the head of a block's edges in a direction, newest first; a number that is no block has none. O(1).
    pub fn first_edge(&self, block: BlockNodeId, direction: Direction) -> Option<usize>
        ensures { HeadOf direction block (edges_of self.now) result }
    {
        self.node(block).first.get(direction)
    }

    // Whether an edge comes into the block. O(1).
    pub fn has_incoming(&self, block: BlockNodeId) -> bool
        ensures { result ≡ has_edge Incoming block (edges_of self.now) }
    {
        self.node(block).first.incoming.is_some()
    }

    // The edge at a place and the place that follows in that direction, or none at the end of the list. O(1).
    pub fn next_edge(&self, place: Option<usize>, direction: Direction) -> Option<EdgeStep>
        ensures { StepsTo direction (edges_of self.now) place result }
    {
        let link = self.links.get(place?)?;
        Some(EdgeStep {
            edge: link.edge,
            next: link.next.get(direction),
        })
    }

    // The edges that leave a block or come into it, newest first; a number that is no block has none. O(1), and O(1) for each that is read.
    pub fn edges(&self, block: BlockNodeId, direction: Direction) -> Edges<'_>
        ensures { left result ≡ listed direction block (edges_of self.now) }
    {
        Edges {
            store: self,
            place: self.first_edge(block, direction),
            direction,
        }
    }
}
