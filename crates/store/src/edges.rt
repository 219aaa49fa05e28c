// The edges of a block, one after another.
ghost use Rattle.std.specs.Iterator.{YieldsFirst, item_count};
ghost use Rattle.store.specs.View.{left};

use crate::direction::Direction;
use crate::edge_store::EdgeStore;
use kinds::edge::Edge;

// What is left of a block's edges in a direction, newest first.
#[derive(Clone, Copy)]
pub struct Edges<'a> {
    pub(crate) store: &'a EdgeStore,
    pub(crate) place: Option<usize>,
    pub(crate) direction: Direction,
}

impl Iterator for Edges<'_> {
    type Item = Edge;

    ghost next_gives = { YieldsFirst left };

    ghost remaining = { item_count left };

    fn next(&mut self) -> Option<Edge> {
        let step = self.store.next_edge(self.place, self.direction)?;
        self.place = step.next;
        Some(step.edge)
    }
}
