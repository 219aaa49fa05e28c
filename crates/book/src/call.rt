// The calls of the builder, as values.
use kinds::block::{BlockNodeId, IterationInstructionKind, NodeId, ReturnInstructionKind};
use kinds::context::{CtxFlags, EntryKind, Label};
use kinds::edge::{EdgeType, ErrorEdgeKind};

// A call with its arguments. A break and the continue like it are one case with a kind.
#[derive(Clone, Copy)]
pub enum Call {
    AttachErrorHarness(ErrorEdgeKind),
    ReleaseErrorHarness(BlockNodeId),
    AttachFinalizer,
    ReleaseFinalizer(BlockNodeId),
    PushFinalizationStack,
    PopFinalizationStack,
    NewBasicBlockNormal,
    NewBasicBlockFunction,
    // reads the current block
    Current,
    SetCurrent(BlockNodeId),
    MarkAsReachable(BlockNodeId),
    MarkAsUnreachable(BlockNodeId),
    AddEdge(BlockNodeId, BlockNodeId, EdgeType),
    PushStatement(NodeId),
    EnterStatement(NodeId),
    PushReturn(ReturnInstructionKind, Option<NodeId>),
    PushImplicitReturn,
    AppendIteration(Option<NodeId>, IterationInstructionKind),
    AppendConditionTo(BlockNodeId, Option<NodeId>),
    AppendUnreachable,
    AppendThrow(NodeId),
    // append_break and append_continue
    Append(EntryKind, NodeId, Option<Label>),
    // opens a context with the flags given, with none, or with FUNCTION alone
    New(Option<Label>, CtxFlags),
    Default(Option<Label>),
    NewFunction(Option<Label>),
    // a break or a continue from the current block: by label, and on the topmost context
    File(EntryKind, Option<Label>),
    FileOnTop(EntryKind),
    // mark_break and mark_continue: by label, and on the topmost context
    Mark(EntryKind, Option<Label>, BlockNodeId),
    MarkOnTop(EntryKind, BlockNodeId),
    // allow_break and allow_continue
    Allow(EntryKind),
    Resolve,
    ResolveExpect(CtxFlags),
    ResolveWithUpperLabel,
    Tally,
}
