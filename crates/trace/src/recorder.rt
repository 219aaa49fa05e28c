// A visitor that writes down what it hears.
use crate::options::TraceOptions;
use walk::event::DfsEvent;

pub mod visits;

// The first `used` entries of the log are the events heard, as far as the log is long enough. The log is lent: a Vec would allocate.
#[derive(Drop)]
pub struct Recorder<'a, 'b, 'c> {
    pub options: TraceOptions<'a, 'b>,
    // how many events are to come up to the one that ends the walk, that one included
    pub until: Option<u32>,
    pub log: &'c mut [DfsEvent],
    pub used: usize,
}
