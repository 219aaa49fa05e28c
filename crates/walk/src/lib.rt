// What a depth-first walk reports, what its visitor replies, and how it marks blocks. The walk itself and its laws are defined in specs/.
#![tactic(auto)]

pub mod event;
pub mod mark;
