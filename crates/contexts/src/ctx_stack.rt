// The stack of open contexts.
ghost use Rattle.std.specs.Prelude.{◌≤◌, length, vec_capacity};
ghost use Rattle.blocks.specs.Highest.{highest};
ghost use Rattle.contexts.specs.Tables.{LabelsFit, above_context};

use crate::ctx::{Ctx, WaitingEntry};

mod entries;
mod methods;
mod resolve;
mod search;

// Up to 64 open contexts, the topmost last, and up to 512 entries of all of them in the order filed. Labels are parts of the text.
#[derive(Drop)]
pub struct CtxStack<'a> {
    text: &'a [u8],
    stack: Vec<Ctx>,
    waiting: Vec<WaitingEntry>,
    ghost stack_fits: { 64 ≤ vec_capacity stack },
    ghost waiting_fits: { 512 ≤ vec_capacity waiting },
    ghost labels_fit: { LabelsFit text.now stack.items },
    ghost contexts_known: { highest above_context waiting.items ≤ length stack.items },
}
