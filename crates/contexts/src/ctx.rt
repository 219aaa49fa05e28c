// The rows of the two tables of contexts.
ghost use Rattle.std.specs.Prelude.{◌≡◌, not, ◌&&◌, is_some};
ghost use Rattle.contexts.specs.Contexts.{has_flag};
ghost use Rattle.contexts.specs.Tables.{jump_of, with_jump, allowing};

use kinds::block::BlockNodeId;
use kinds::context::{CtxFlags, EntryKind, Label};

// An open context without its entries: its flags and label, and where its breaks and continues lead, once that is marked.
#[derive(Clone, Copy)]
pub struct Ctx {
    pub flags: CtxFlags,
    pub label: Option<Label>,
    pub break_jmp: Option<BlockNodeId>,
    pub continue_jmp: Option<BlockNodeId>,
}

impl Ctx {
    // Whether it has the flag of a kind.
    pub fn allows(self, kind: EntryKind) -> bool
        ensures { result ≡ has_flag kind self.flags }
    {
        match kind {
            EntryKind::Break => self.flags.breaks,
            EntryKind::Continue => self.flags.continues,
        }
    }

    // The target of a kind, if it is marked.
    pub fn target(self, kind: EntryKind) -> Option<BlockNodeId>
        ensures { result ≡ jump_of kind self }
    {
        match kind {
            EntryKind::Break => self.break_jmp,
            EntryKind::Continue => self.continue_jmp,
        }
    }

    // Marks the target of a kind.
    pub fn set_target(&mut self, kind: EntryKind, target: BlockNodeId)
        ensures { self.new ≡ with_jump kind target self.old }
    {
        match kind {
            EntryKind::Break => self.break_jmp = Some(target),
            EntryKind::Continue => self.continue_jmp = Some(target),
        }
    }

    // Sets the flag of a kind.
    pub fn allow(&mut self, kind: EntryKind)
        ensures { self.new ≡ allowing kind self.old }
    {
        match kind {
            EntryKind::Break => self.flags.breaks = true,
            EntryKind::Continue => self.flags.continues = true,
        }
    }
}

// The topmost context and its number.
#[derive(Clone, Copy)]
pub struct Top {
    pub number: usize,
    pub ctx: Ctx,
}

impl Top {
    // Whether it is labelled and has no continue target.
    pub fn lacks_continue(self) -> bool
        ensures { result ≡ (is_some self.ctx.label && not (is_some self.ctx.continue_jmp)) }
    {
        self.ctx.label.is_some() && self.ctx.continue_jmp.is_none()
    }
}

// An entry that waits in the open context of a number, counted from the bottom. One table of a fixed size has the entries of all contexts.
#[derive(Clone, Copy)]
pub struct WaitingEntry {
    pub context: usize,
    pub kind: EntryKind,
    pub block: BlockNodeId,
}
