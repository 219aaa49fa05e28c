// The rows of the two tables of an edge store.
use crate::direction::PerDirection;
use kinds::edge::Edge;

// A node: the number of its newest edge in each direction.
#[derive(Clone, Copy)]
pub struct Node {
    pub first: PerDirection<Option<usize>>,
}

// An edge: in each direction, the number of the next older one at the same block.
#[derive(Clone, Copy)]
pub struct Link {
    pub edge: Edge,
    pub next: PerDirection<Option<usize>>,
}
