// One context at a time, by its number; the others stay as they are. All of it is for the layers above.
ghost use Rattle.std.specs.Prelude.{◌≡◌, suc, ◌<◌, true, [], ◌∷◌, length, IfOk};
ghost use Rattle.contexts.specs.Contexts.{label_fits, target_at, with_target, with_entry, with_flag, opened, changed_at, waiting_count};
ghost use Rattle.contexts.specs.View.{Changed, contexts_of};

use super::CtxStack;
use crate::ctx::{Ctx, WaitingEntry};
use kinds::block::BlockNodeId;
use kinds::context::{CtxFlags, EntryKind, Label};
use std::alloc::{AllocError, Global};

impl<'a> CtxStack<'a> {
    // No open context, over a text.
    pub fn new(heap: Global, text: &'a [u8]) -> Result<CtxStack<'a>, AllocError>
        ensures text { IfOk result (λ s. s.text.now ≡ text.now) }
        ensures contexts { IfOk result (λ s. contexts_of s ≡ []) }
    {
        let stack = Vec::with_capacity(heap, 64)?;
        let waiting = Vec::with_capacity(heap, 512)?;
        Ok(CtxStack {
            text,
            stack,
            waiting,
        })
    }

    // How many contexts are open. O(1).
    pub fn len(&self) -> usize
        ensures { result ≡ length (contexts_of self.now) }
    {
        self.stack.len()
    }

    // How many entries wait in them. O(1).
    pub fn waiting_count(&self) -> usize
        ensures { result ≡ waiting_count (contexts_of self.now) }
    {
        self.waiting.len()
    }

    // Opens a context on top. O(1).
    pub fn push(&mut self, flags: CtxFlags, label: Option<Label>)
        requires room { length (contexts_of self.old) < 64 }
        requires label { label_fits self.old.text.now label ≡ true }
        ensures { Changed self.old self.new (opened flags label ∷ contexts_of self.old) 0 0 }
    {
        self.stack.push_reserved(Ctx {
            flags,
            label,
            break_jmp: None,
            continue_jmp: None,
        });
    }

    // Files an entry in the context of a number, behind those it has. O(1).
    pub fn add_entry(&mut self, context: usize, kind: EntryKind, block: BlockNodeId)
        requires within { context < length (contexts_of self.old) }
        requires room { waiting_count (contexts_of self.old) < 512 }
        ensures { Changed self.old self.new (changed_at (with_entry kind block) context (contexts_of self.old)) 1 (suc block) }
    {
        self.waiting.push_reserved(WaitingEntry {
            context,
            kind,
            block,
        });
    }

    // The target of a kind in the context of a number, if it is marked. O(1).
    pub fn target(&self, context: usize, kind: EntryKind) -> Option<BlockNodeId>
        requires { context < length (contexts_of self.now) }
        ensures { result ≡ target_at kind context (contexts_of self.now) }
    {
        self.stack[context].target(kind)
    }

    // Marks the target of a kind in the context of a number. O(1).
    pub fn mark(&mut self, context: usize, kind: EntryKind, target: BlockNodeId)
        requires { context < length (contexts_of self.old) }
        ensures { Changed self.old self.new (changed_at (with_target kind target) context (contexts_of self.old)) 0 (suc target) }
    {
        self.stack[context].set_target(kind, target);
    }

    // Sets the flag of a kind in the context of a number. O(1).
    pub fn allow(&mut self, context: usize, kind: EntryKind)
        requires { context < length (contexts_of self.old) }
        ensures { Changed self.old self.new (changed_at (with_flag kind) context (contexts_of self.old)) 0 0 }
    {
        self.stack[context].allow(kind);
    }
}
