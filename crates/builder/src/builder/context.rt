// Contexts, and the breaks and continues that lead out of them. Each call does what the book says of it, refused or not.
// A break and a continue have calls of their own, by the reference's names, each in one line over the call of the kind.
ghost use Rattle.std.specs.Prelude.{◌≡◌, ◌+◌, ◌<◌, ◌≤◌, true, length, None, IfOk, MatchOption};
ghost use Rattle.block_builder.specs.BlockState.{block_count, count_of};
ghost use Rattle.book.specs.Book.{Follows, bad_label, no_reply, entries_full, filed, instruction_of, found_for, yes, counts_of, beyond as beyond-of, with_contexts, continue_given};
ghost use Rattle.book.specs.declared.call.Call.TheVariants as call;
ghost use Rattle.builder.specs.View.{book_of};
ghost use Rattle.contexts.specs.Contexts.{label_fits, waiting_count, upper_label};
ghost use Rattle.kinds.specs.Replies.{row, told};
ghost use Rattle.kinds.specs.declared.context.EntryKind.TheVariants.{Break, Continue};
ghost use Rattle.kinds.specs.declared.refusal.Refusal.TheVariants.{BadLabel};
ghost use Rattle.blocks.specs.Highest.{above};

use super::ControlFlowGraphBuilder;
use block_builder::room::Room;
use kinds::block::{BlockNodeId, InstructionKind, LabeledInstruction, NodeId};
use kinds::context::{CtxFlags, EntryKind, Label};
use kinds::refusal::Refusal;
use kinds::table::Table;

// Whether some flag is set that is not expected.
fn beyond(flags: CtxFlags, expectation: CtxFlags) -> bool
    ensures { result ≡ beyond-of flags expectation }
{
    (flags.function && !expectation.function)
        || (flags.breaks && !expectation.breaks)
        || (flags.continues && !expectation.continues)
}

// The instruction of a break or a continue, by whether it names a label.
fn instruction(kind: EntryKind, label: Option<Label>) -> InstructionKind
    ensures { result ≡ instruction_of kind label }
{
    let form = match label {
        Some(_) => LabeledInstruction::Labeled,
        None => LabeledInstruction::Unlabeled,
    };
    match kind {
        EntryKind::Break => InstructionKind::Break(form),
        EntryKind::Continue => InstructionKind::Continue(form),
    }
}

impl<'a> ControlFlowGraphBuilder<'a> {
    // BAD_LABEL where a label reaches past the end of the text.
    fn check_label(&self, label: Option<Label>) -> Result<(), Refusal>
        ensures value { result ≡ told (row (bad_label label (book_of self.now)) BadLabel None) tt }
        ensures fits { IfOk result (λ _. label_fits (book_of self.now).text label ≡ true) }
    {
        if !self.contexts.label_fits(label) {
            return Err(Refusal::BadLabel);
        }
        Ok(())
    }

    // Opens a context. O(1).
    pub fn new_ctx(&mut self, label: Option<Label>, flags: CtxFlags) -> Result<(), Refusal>
        ensures { Follows (call.New label flags) no_reply (book_of self.old) (book_of self.new) result }
    {
        self.check_label(label)?;
        if self.contexts.len() >= 64 {
            return Err(Refusal::Full(Table::Contexts));
        }
        self.contexts.push(flags, label);
        Ok(())
    }

    // Opens a context with no flags. O(1).
    pub fn default_ctx(&mut self, label: Option<Label>) -> Result<(), Refusal>
        ensures { Follows (call.Default label) no_reply (book_of self.old) (book_of self.new) result }
    {
        self.new_ctx(label, CtxFlags::NONE)
    }

    // Opens the context of a function. O(1).
    pub fn new_function_ctx(&mut self, label: Option<Label>) -> Result<(), Refusal>
        ensures { Follows (call.NewFunction label) no_reply (book_of self.old) (book_of self.new) result }
    {
        self.new_ctx(
            label,
            CtxFlags {
                function: true,
                ..CtxFlags::NONE
            },
        )
    }

    // FULL where there is no room for one more break or continue, filed where it was found.
    fn check_entry(&self, found: Option<usize>) -> Result<(), Refusal>
        ensures value { result ≡ told (entries_full (count_of found) (book_of self.now)) tt }
        ensures room { IfOk result (λ _. (waiting_count (book_of self.now).contexts + count_of found ≤ 512) × ((book_of self.now).given + 1 ≤ 65535)) }
    {
        if self.contexts.waiting_count() > 512 - usize::from(found.is_some()) {
            return Err(Refusal::Full(Table::Entries));
        }
        if self.given >= 65535 {
            return Err(Refusal::Full(Table::Given));
        }
        Ok(())
    }

    // Counts a break or a continue from a block, and files it in the context found, if one was.
    fn file_in(&mut self, kind: EntryKind, block: BlockNodeId, found: Option<usize>)
        requires block { block < block_count (book_of self.old).blocks }
        requires within { MatchOption found (⊥ → ⊥) (λ i. i < length (book_of self.old).contexts) }
        requires entries { waiting_count (book_of self.old).contexts + count_of found ≤ 512 }
        requires given { (book_of self.old).given + 1 ≤ 65535 }
        ensures { book_of self.new ≡ filed kind block found (book_of self.old) }
    {
        self.given += 1;
        match found {
            Some(context) => self.contexts.add_entry(context, kind, block),
            None => self.unfiled += 1,
        }
    }

    // A break or a continue from the current block, filed in the context that the label finds; answers whether one was found. O(open contexts).
    pub fn file(&mut self, kind: EntryKind, label: Option<Label>) -> Result<bool, Refusal>
        ensures { Follows (call.File kind label) (found_for kind label) (book_of self.old) (book_of self.new) result }
    {
        let block = self.blocks.current();
        self.blocks.check_block(block)?;
        self.check_label(label)?;
        let found = self.contexts.find(kind, label);
        self.check_entry(found)?;
        self.file_in(kind, block, found);
        Ok(found.is_some())
    }

    // A break from the current block, filed in the context that the label finds; answers whether one was found. O(open contexts).
    pub fn break_entry(&mut self, label: Option<Label>) -> Result<bool, Refusal>
        ensures { Follows (call.File Break label) (found_for Break label) (book_of self.old) (book_of self.new) result }
    {
        self.file(EntryKind::Break, label)
    }

    // A continue from the current block, filed in the context that the label finds; answers whether one was found. O(open contexts).
    pub fn continue_entry(&mut self, label: Option<Label>) -> Result<bool, Refusal>
        ensures { Follows (call.File Continue label) (found_for Continue label) (book_of self.old) (book_of self.new) result }
    {
        self.file(EntryKind::Continue, label)
    }

    // A break or a continue from the current block, filed in the topmost context, its flags unread. O(1).
    pub fn file_on_top(&mut self, kind: EntryKind) -> Result<bool, Refusal>
        ensures { Follows (call.FileOnTop kind) yes (book_of self.old) (book_of self.new) result }
    {
        let block = self.blocks.current();
        self.blocks.check_block(block)?;
        let top = self.contexts.top().ok_or(Refusal::NoContext)?;
        self.check_entry(Some(top))?;
        self.file_in(kind, block, Some(top));
        Ok(true)
    }

    // A break from the current block, filed in the topmost context, its flags unread. O(1).
    pub fn top_break_entry(&mut self) -> Result<bool, Refusal>
        ensures { Follows (call.FileOnTop Break) yes (book_of self.old) (book_of self.new) result }
    {
        self.file_on_top(EntryKind::Break)
    }

    // A continue from the current block, filed in the topmost context, its flags unread. O(1).
    pub fn top_continue_entry(&mut self) -> Result<bool, Refusal>
        ensures { Follows (call.FileOnTop Continue) yes (book_of self.old) (book_of self.new) result }
    {
        self.file_on_top(EntryKind::Continue)
    }

    // Adds a break or a continue to the current block, goes on in an unreachable one, and files the block before by label. O(open contexts).
    pub fn append(
        &mut self,
        kind: EntryKind,
        node: NodeId,
        label: Option<Label>,
    ) -> Result<bool, Refusal>
        ensures { Follows (call.Append kind node label) (found_for kind label) (book_of self.old) (book_of self.new) result }
    {
        let block = self.blocks.current();
        self.blocks.check_block(block)?;
        self.check_label(label)?;
        self.blocks.check_terminator()?;
        let context = self.contexts.find(kind, label);
        self.check_entry(context)?;
        let _ = self
            .blocks
            .append_terminator(instruction(kind, label), Some(node));
        self.file_in(kind, block, context);
        Ok(context.is_some())
    }

    // Adds a break to the current block, goes on in an unreachable one, and files the block before by label. O(open contexts).
    pub fn append_break(&mut self, node: NodeId, label: Option<Label>) -> Result<bool, Refusal>
        ensures { Follows (call.Append Break node label) (found_for Break label) (book_of self.old) (book_of self.new) result }
    {
        self.append(EntryKind::Break, node, label)
    }

    // Adds a continue to the current block, goes on in an unreachable one, and files the block before by label. O(open contexts).
    pub fn append_continue(&mut self, node: NodeId, label: Option<Label>) -> Result<bool, Refusal>
        ensures { Follows (call.Append Continue node label) (found_for Continue label) (book_of self.old) (book_of self.new) result }
    {
        self.append(EntryKind::Continue, node, label)
    }

    // Marks a target in the context that the label finds; answers whether one was found. O(open contexts).
    pub fn mark(
        &mut self,
        kind: EntryKind,
        label: Option<Label>,
        jmp_pos: BlockNodeId,
    ) -> Result<bool, Refusal>
        ensures { Follows (call.Mark kind label jmp_pos) (found_for kind label) (book_of self.old) (book_of self.new) result }
    {
        self.blocks.check_block(jmp_pos)?;
        self.check_label(label)?;
        let Some(context) = self.contexts.find(kind, label) else {
            return Ok(false);
        };
        if self.contexts.target(context, kind).is_some() {
            return Err(Refusal::Marked);
        }
        self.contexts.mark(context, kind, jmp_pos);
        Ok(true)
    }

    // Marks where breaks lead in the context that the label finds; answers whether one was found. O(open contexts).
    pub fn mark_break(
        &mut self,
        label: Option<Label>,
        jmp_pos: BlockNodeId,
    ) -> Result<bool, Refusal>
        ensures { Follows (call.Mark Break label jmp_pos) (found_for Break label) (book_of self.old) (book_of self.new) result }
    {
        self.mark(EntryKind::Break, label, jmp_pos)
    }

    // Marks where continues lead in the context that the label finds; answers whether one was found. O(open contexts).
    pub fn mark_continue(
        &mut self,
        label: Option<Label>,
        jmp_pos: BlockNodeId,
    ) -> Result<bool, Refusal>
        ensures { Follows (call.Mark Continue label jmp_pos) (found_for Continue label) (book_of self.old) (book_of self.new) result }
    {
        self.mark(EntryKind::Continue, label, jmp_pos)
    }

    // Marks a target in the topmost context, its flags unread. O(1).
    pub fn mark_on_top(&mut self, kind: EntryKind, jmp_pos: BlockNodeId) -> Result<bool, Refusal>
        ensures { Follows (call.MarkOnTop kind jmp_pos) yes (book_of self.old) (book_of self.new) result }
    {
        self.blocks.check_block(jmp_pos)?;
        let top = self.contexts.top().ok_or(Refusal::NoContext)?;
        if self.contexts.target(top, kind).is_some() {
            return Err(Refusal::Marked);
        }
        self.contexts.mark(top, kind, jmp_pos);
        Ok(true)
    }

    // Marks where breaks lead in the topmost context, its flags unread. O(1).
    pub fn top_mark_break(&mut self, jmp_pos: BlockNodeId) -> Result<bool, Refusal>
        ensures { Follows (call.MarkOnTop Break jmp_pos) yes (book_of self.old) (book_of self.new) result }
    {
        self.mark_on_top(EntryKind::Break, jmp_pos)
    }

    // Marks where continues lead in the topmost context, its flags unread. O(1).
    pub fn top_mark_continue(&mut self, jmp_pos: BlockNodeId) -> Result<bool, Refusal>
        ensures { Follows (call.MarkOnTop Continue jmp_pos) yes (book_of self.old) (book_of self.new) result }
    {
        self.mark_on_top(EntryKind::Continue, jmp_pos)
    }

    // Lets the topmost context take breaks or continues by label. O(1).
    pub fn allow(&mut self, kind: EntryKind) -> Result<bool, Refusal>
        ensures { Follows (call.Allow kind) yes (book_of self.old) (book_of self.new) result }
    {
        let top = self.contexts.top().ok_or(Refusal::NoContext)?;
        self.contexts.allow(top, kind);
        Ok(true)
    }

    // Lets the topmost context take breaks by label. O(1).
    pub fn allow_break(&mut self) -> Result<bool, Refusal>
        ensures { Follows (call.Allow Break) yes (book_of self.old) (book_of self.new) result }
    {
        self.allow(EntryKind::Break)
    }

    // Lets the topmost context take continues by label. O(1).
    pub fn allow_continue(&mut self) -> Result<bool, Refusal>
        ensures { Follows (call.Allow Continue) yes (book_of self.old) (book_of self.new) result }
    {
        self.allow(EntryKind::Continue)
    }

    // Closes the topmost context and draws a Jump edge for each of its entries that has a target, in their order.
    // Answers how many were drawn and how many had no target; none with no context open. O(waiting entries).
    pub fn resolve(&mut self) -> Result<Option<(usize, usize)>, Refusal>
        ensures follows { Follows call.Resolve counts_of (book_of self.old) (book_of self.new) result }
        ensures count { block_count (book_of self.new).blocks ≡ block_count (book_of self.old).blocks }
    {
        let Some((drawn, untargeted)) = self.contexts.resolve_counts() else {
            return Ok(None);
        };
        self.blocks.check_room(Room {
            edges: drawn,
            ..Room::NONE
        })?;
        self.blocks.resolve(&mut self.contexts);
        self.drawn += drawn;
        self.untargeted += untargeted;
        Ok(Some((drawn, untargeted)))
    }

    // Resolves the topmost context, which has no flag beyond those expected. O(waiting entries).
    pub fn resolve_expect(
        &mut self,
        expectation: CtxFlags,
    ) -> Result<Option<(usize, usize)>, Refusal>
        ensures { Follows (call.ResolveExpect expectation) counts_of (book_of self.old) (book_of self.new) result }
    {
        let flags = self.contexts.top_flags().ok_or(Refusal::NoContext)?;
        if beyond(flags, expectation) {
            return Err(Refusal::Flags);
        }
        self.resolve()
    }

    // Gives a continue target to the topmost context, if that is labelled and has none.
    fn give_continue(&mut self, target: Option<BlockNodeId>)
        requires { above target ≤ block_count (book_of self.old).blocks }
        ensures { book_of self.new ≡ with_contexts (continue_given target (upper_label (book_of self.old).contexts) (book_of self.old).contexts) (book_of self.old) }
    {
        if let (Some(target), Some(context)) = (target, self.contexts.upper_label()) {
            self.contexts.mark(context, EntryKind::Continue, target);
        }
    }

    // Resolves the topmost context, and gives its continue target to the one below, if that is labelled and has none. O(waiting entries).
    pub fn resolve_with_upper_label(&mut self) -> Result<Option<(usize, usize)>, Refusal>
        ensures { Follows call.ResolveWithUpperLabel counts_of (book_of self.old) (book_of self.new) result }
    {
        let target = self.contexts.top_continue();
        let counts = self.resolve()?;
        self.give_continue(target);
        Ok(counts)
    }
}
