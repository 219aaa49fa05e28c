// The visitors of the queries.
ghost use Rattle.walk.specs.Cycle.{cycle_reply};
ghost use Rattle.walk.specs.Reach.{reach_reply};

use crate::filter::Filter;
use graph::graph::Graph;
use visit::visitor::Visitor;
use walk::event::{Control, DfsEvent};

// Seeks the target over permitted steps that leave blocks which the filter lets pass.
#[derive(Drop)]
pub struct ReachVisitor<'a, 'b, G, F> {
    pub graph: &'a G,
    pub filter: &'b F,
    pub target: u32,
}

impl<'a, 'b, G: Graph, F: Filter> Visitor for ReachVisitor<'a, 'b, G, F> {
    type Stop = bool;

    ghost meaning = { record { reply = λ s e. reach_reply (G.Graph.meaning s.graph.now) (F.Filter.meaning s.filter.now) s.target e; next = λ s _. s } };

    fn visit(&mut self, event: DfsEvent) -> Control<bool> {
        let DfsEvent::TreeEdge(u, v) = event else {
            return Control::Continue;
        };
        match self.filter.filter(u) {
            Control::Continue if !self.graph.permitted(u, v) => Control::Prune,
            Control::Continue if v == self.target => Control::Break(true),
            reply => reply,
        }
    }
}

// Ends the walk where an edge leads back to the block.
#[derive(Clone, Copy)]
pub struct CycleVisitor {
    pub block: u32,
}

impl Visitor for CycleVisitor {
    type Stop = ();

    ghost meaning = { record { reply = λ s e. cycle_reply s.block e; next = λ s _. s } };

    fn visit(&mut self, event: DfsEvent) -> Control<()> {
        match event {
            DfsEvent::BackEdge(_, v) if v == self.block => Control::Break(()),
            _ => Control::Continue,
        }
    }
}
