// Calls applied to a builder, one or many.
ghost use Rattle.std.specs.Prelude.{◌≡◌, IfOk};
ghost use Rattle.book.specs.Book.{Follows, found_for, yes, new_book, step, answer, run};
ghost use Rattle.book.specs.LawOfCounts.{Law, Different};
ghost use Rattle.book.specs.Ledger.{Ledger, ledger_step, ledger_run, new_ledger};
ghost use Rattle.book.specs.declared.call.Call.TheVariants as call-of;
ghost use Rattle.builder.specs.View.{book_of};
ghost use Rattle.calls.specs.Results.{Applied};

use crate::replies::told;
use book::call::Call;
use book::reply::Reply;
use builder::builder::ControlFlowGraphBuilder;
use kinds::block::{BlockNodeId, NodeId};
use kinds::context::{EntryKind, Label};
use kinds::refusal::Refusal;
use std::alloc::{AllocError, Global};

// The builder's method for each call.
fn dispatch(builder: &mut ControlFlowGraphBuilder, call: Call) -> Reply
    ensures { Applied call (book_of builder.old) (book_of builder.new) result }
{
    match call {
        Call::AttachErrorHarness(kind) => told(builder.attach_error_harness(kind), Reply::Block),
        Call::ReleaseErrorHarness(block) => told(
            builder.release_error_harness(block),
            |()| Reply::Done,
        ),
        Call::AttachFinalizer => told(builder.attach_finalizer(), Reply::Block),
        Call::ReleaseFinalizer(block) => told(builder.release_finalizer(block), |()| Reply::Done),
        Call::PushFinalizationStack => told(builder.push_finalization_stack(), |()| Reply::Done),
        Call::PopFinalizationStack => told(builder.pop_finalization_stack(), |()| Reply::Done),
        Call::NewBasicBlockNormal => told(builder.new_basic_block_normal(), Reply::Block),
        Call::NewBasicBlockFunction => told(builder.new_basic_block_function(), Reply::Block),
        Call::Current => Reply::Block(builder.current()),
        Call::SetCurrent(block) => told(builder.set_current(block), |()| Reply::Done),
        Call::MarkAsReachable(block) => told(builder.mark_as_reachable(block), |()| Reply::Done),
        Call::MarkAsUnreachable(block) => told(
            builder.mark_as_unreachable(block),
            |()| Reply::Done,
        ),
        Call::AddEdge(a, b, kind) => told(builder.add_edge(a, b, kind), |()| Reply::Done),
        Call::PushStatement(node) => told(builder.push_statement(node), |()| Reply::Done),
        Call::EnterStatement(node) => told(builder.enter_statement(node), |()| Reply::Done),
        Call::PushReturn(kind, node) => told(builder.push_return(kind, node), |()| Reply::Done),
        Call::PushImplicitReturn => told(builder.push_implicit_return(), |()| Reply::Done),
        Call::AppendIteration(node, kind) => told(
            builder.append_iteration(node, kind),
            |()| Reply::Done,
        ),
        Call::AppendConditionTo(block, node) => told(
            builder.append_condition_to(block, node),
            |()| Reply::Done,
        ),
        Call::AppendUnreachable => told(builder.append_unreachable(), |()| Reply::Done),
        Call::AppendThrow(node) => told(builder.append_throw(node), |()| Reply::Done),
        Call::Append(kind, node, label) => told(builder.append(kind, node, label), Reply::Found),
        Call::New(label, flags) => told(builder.new_ctx(label, flags), |()| Reply::Done),
        Call::Default(label) => told(builder.default_ctx(label), |()| Reply::Done),
        Call::NewFunction(label) => told(builder.new_function_ctx(label), |()| Reply::Done),
        Call::File(kind, label) => told(builder.file(kind, label), Reply::Found),
        Call::FileOnTop(kind) => told(builder.file_on_top(kind), Reply::Found),
        Call::Mark(kind, label, jmp_pos) => told(builder.mark(kind, label, jmp_pos), Reply::Found),
        Call::MarkOnTop(kind, jmp_pos) => told(builder.mark_on_top(kind, jmp_pos), Reply::Found),
        Call::Allow(kind) => told(builder.allow(kind), Reply::Found),
        Call::Resolve => told(builder.resolve(), Reply::Resolved),
        Call::ResolveExpect(flags) => told(builder.resolve_expect(flags), Reply::Resolved),
        Call::ResolveWithUpperLabel => told(builder.resolve_with_upper_label(), Reply::Resolved),
        Call::Tally => Reply::Tallied(builder.tally()),
    }
}

// One call, as the book has it. Where the law of the counts holds, it holds after the call, on the ledger moved by the call.
pub fn apply(builder: &mut ControlFlowGraphBuilder, call: Call) -> Reply
    ensures book { book_of builder.new ≡ step (book_of builder.old) call }
    ensures reply { result ≡ answer (book_of builder.old) call }
    ensures law { (l : Ledger) → Law (book_of builder.old) l → Law (book_of builder.new) (ledger_step (book_of builder.old) call l) }
{
    dispatch(builder, call)
}

// A list of calls, in order. Where the law of the counts holds, it holds after them.
pub fn replay(builder: &mut ControlFlowGraphBuilder, calls: &[Call])
    ensures book { book_of builder.new ≡ run calls.now (book_of builder.old) }
    ensures law { (l : Ledger) → Law (book_of builder.old) l → Law (book_of builder.new) (ledger_run calls.now (book_of builder.old) l) }
{
    for call in calls {
        let _ = apply(builder, *call);
    }
}

// A new builder, and a list of calls on it. The law of the counts holds of it, and no two breaks or continues are drawn as one edge.
pub fn replay_new<'a>(
    heap: Global,
    text: &'a [u8],
    calls: &[Call],
) -> Result<ControlFlowGraphBuilder<'a>, AllocError>
    ensures book { IfOk result (λ b. book_of b ≡ run calls.now (new_book text.now)) }
    ensures law { IfOk result (λ b. Law (book_of b) (ledger_run calls.now (new_book text.now) new_ledger)) }
    ensures different { Different (ledger_run calls.now (new_book text.now) new_ledger) }
{
    let mut builder = ControlFlowGraphBuilder::new(heap, text)?;
    replay(&mut builder, calls);
    Ok(builder)
}
