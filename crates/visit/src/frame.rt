// The frames of a walk.

// A block that is open, and the place that it has come to in its list of neighbours.
#[derive(Clone, Copy)]
pub struct Frame<P> {
    pub block: u32,
    pub place: P,
}
