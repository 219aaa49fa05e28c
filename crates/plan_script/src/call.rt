// What a line of a plan script can ask, and what comes of it.
use belt::segments::Segments;

// A call on a plan, by the segments that it names.
#[derive(Clone, Copy)]
pub enum PlanCall {
    SetTransfer(u32, u32),
    ClearTransfer(u32, u32),
    SetLock(u32),
    ClearLock(u32),
    // the segments that one feeds
    Transfers(u32),
    // whether the step from the first segment to the second is permitted
    Permitted(u32, u32),
    // how many segments there are
    Segments,
}

// What an accepted call answers.
#[derive(Clone, Copy)]
pub enum Answer {
    // the edit is made
    Done,
    Listed(Segments),
    Said(bool),
    Counted(u32),
}
