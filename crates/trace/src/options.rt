// What a traced walk prunes and when it ends, and what it came to.

#[derive(Clone, Copy)]
pub struct TraceOptions<'a, 'b> {
    // the discovery of one of these is answered by Prune
    pub prune_at: &'a [u32],
    // a tree edge into one of these is answered by Prune
    pub prune_into: &'b [u32],
    // the event of this number, counting from 1, is answered by Break with the number; no event has the number 0
    pub break_after: Option<u32>,
}

// What a traced walk came to.
#[derive(Clone, Copy)]
pub struct TraceEnd {
    // how many events the log holds
    pub events: usize,
    // the value of the Break that ended the walk
    pub stop: Option<u32>,
}
