// What a walk works with: visitors, marks, the stack of frames, and one turn of the walk.
#![tactic(auto)]

pub mod frame;
pub mod guard;
pub mod stack;
pub mod turn;
pub mod visitor;
