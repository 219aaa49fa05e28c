// The events of a walk, and the replies to them.
ghost use Rattle.std.specs.Prelude.{◌≡◌};
ghost use Rattle.walk.specs.Replies.{flow_of};

use std::ops::ControlFlow;

// What a walk reports.
#[derive(Clone, Copy, Debug, PartialEq, Eq)]
pub enum DfsEvent {
    // a block is discovered, with its discovery number
    Discover(u32, u32),
    // a neighbour that is not discovered yet
    TreeEdge(u32, u32),
    // a neighbour that is discovered and not finished
    BackEdge(u32, u32),
    // a neighbour that is finished
    CrossForwardEdge(u32, u32),
    // a block is finished, with its finish number
    Finish(u32, u32),
}

// What a visitor replies.
#[derive(Drop)]
pub enum Control<B> {
    // the walk goes on
    Continue,
    // at Discover the block's list is not read, at TreeEdge the neighbour is passed over; elsewhere as Continue
    Prune,
    // the walk ends with a value
    Break(B),
}

impl<B> Control<B> {
    // Whether the walk follows what it was told of, or the value that it ends with. O(1).
    pub fn flow(self) -> ControlFlow<B, bool>
        ensures { result ≡ flow_of self }
    {
        match self {
            Control::Continue => ControlFlow::Continue(true),
            Control::Prune => ControlFlow::Continue(false),
            Control::Break(value) => ControlFlow::Break(value),
        }
    }
}
