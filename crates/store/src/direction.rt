// The two lists of a block.
ghost use Rattle.std.specs.Prelude.{◌≡◌};
ghost use Rattle.store.specs.Links.{toward};

// Along which end an edge is listed.
#[derive(Clone, Copy)]
pub enum Direction {
    // at its source
    Outgoing,
    // at its target
    Incoming,
}

// A value for each direction.
#[derive(Clone, Copy)]
pub struct PerDirection<T> {
    pub outgoing: T,
    pub incoming: T,
}

impl<T: Copy> PerDirection<T> {
    // The value for a direction. O(1).
    pub fn get(self, direction: Direction) -> T
        ensures { result ≡ toward direction self }
    {
        match direction {
            Direction::Outgoing => self.outgoing,
            Direction::Incoming => self.incoming,
        }
    }
}
