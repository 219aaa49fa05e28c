// The calls that need no context. Each does what the book says of the call of its name, refused or not.
ghost use Rattle.std.specs.Prelude.{◌≡◌, IfOk};
ghost use Rattle.cfg.specs.View.{graph_of};
ghost use Rattle.book.specs.Book.{Follows, no_reply, new_block, new_book, tally_of};
ghost use Rattle.book.specs.declared.call.Call.TheVariants as call;
ghost use Rattle.builder.specs.View.{book_of};

use super::ControlFlowGraphBuilder;
use block_builder::block_builder::BlockBuilder;
use book::reply::Tally;
use cfg::control_flow_graph::ControlFlowGraph;
use contexts::ctx_stack::CtxStack;
use kinds::block::{
    BlockNodeId, InstructionKind, IterationInstructionKind, NodeId, ReturnInstructionKind,
};
use kinds::edge::{EdgeType, ErrorEdgeKind};
use kinds::refusal::Refusal;
use std::alloc::{AllocError, Global};

#[tactic(auto, using(crate::proofs::Forwards::forwarded))]
impl<'a> ControlFlowGraphBuilder<'a> {
    // A builder over a text. All tables are made at their full size here, so that no later call can want memory.
    pub fn new(heap: Global, text: &'a [u8]) -> Result<ControlFlowGraphBuilder<'a>, AllocError>
        ensures { IfOk result (λ b. book_of b ≡ new_book text.now) }
    {
        let blocks = BlockBuilder::new(heap)?;
        let contexts = CtxStack::new(heap, text)?;
        Ok(ControlFlowGraphBuilder {
            blocks,
            contexts,
            given: 0,
            unfiled: 0,
            drawn: 0,
            untargeted: 0,
        })
    }

    // The current block, whether or not it exists. O(1).
    pub fn current(&self) -> BlockNodeId
        ensures { result ≡ (book_of self.now).blocks.current }
    {
        self.blocks.current()
    }

    // How many breaks and continues were given, and what became of them. O(1).
    pub fn tally(&self) -> Tally
        ensures { result ≡ tally_of (book_of self.now) }
    {
        Tally {
            given: self.given,
            unfiled: self.unfiled,
            waiting: self.contexts.waiting_count(),
            drawn: self.drawn,
            untargeted: self.untargeted,
        }
    }

    // The graph of what was built, with contexts open or not; the tally goes with it. The builder is spent.
    pub fn build(self) -> ControlFlowGraph
        ensures graph { graph_of result ≡ (book_of self.entry).blocks.graph }
        ensures tally { result.tally ≡ tally_of (book_of self.entry) }
    {
        let tally = self.tally();
        let ControlFlowGraphBuilder {
            blocks,
            contexts: _,
            given: _,
            unfiled: _,
            drawn: _,
            untargeted: _,
        } = self;
        ControlFlowGraph::new(blocks.into_graph(), tally)
    }

    // Makes a block that errors lead to, on top of the error path, and answers its number; the current block stays. O(1).
    pub fn attach_error_harness(&mut self, kind: ErrorEdgeKind) -> Result<BlockNodeId, Refusal>
        ensures { Follows (call.AttachErrorHarness kind) new_block (book_of self.old) (book_of self.new) result }
    {
        self.blocks.attach_error_harness(kind)
    }

    // Takes the named harness off the top of the error path. O(1).
    pub fn release_error_harness(&mut self, expect: BlockNodeId) -> Result<(), Refusal>
        ensures { Follows (call.ReleaseErrorHarness expect) no_reply (book_of self.old) (book_of self.new) result }
    {
        self.blocks.release_error_harness(expect)
    }

    // Makes a block that new blocks get a Finalize edge to, and answers its number; the current block stays. O(1).
    pub fn attach_finalizer(&mut self) -> Result<BlockNodeId, Refusal>
        ensures { Follows (call.AttachFinalizer) new_block (book_of self.old) (book_of self.new) result }
    {
        self.blocks.attach_finalizer()
    }

    // Takes the named finalizer off the top; does nothing on an empty stack. O(1).
    pub fn release_finalizer(&mut self, expect: BlockNodeId) -> Result<(), Refusal>
        ensures { Follows (call.ReleaseFinalizer expect) no_reply (book_of self.old) (book_of self.new) result }
    {
        self.blocks.release_finalizer(expect)
    }

    // Puts an empty mark on the finalizers, so that new blocks get no Finalize edge. O(1).
    pub fn push_finalization_stack(&mut self) -> Result<(), Refusal>
        ensures { Follows (call.PushFinalizationStack) no_reply (book_of self.old) (book_of self.new) result }
    {
        self.blocks.push_finalization_stack()
    }

    // Takes the empty mark off again. O(1).
    pub fn pop_finalization_stack(&mut self) -> Result<(), Refusal>
        ensures { Follows (call.PopFinalizationStack) no_reply (book_of self.old) (book_of self.new) result }
    {
        self.blocks.pop_finalization_stack()
    }

    // Makes a block tied to the newest harness and finalizer, makes it current and answers its number. O(1).
    pub fn new_basic_block_normal(&mut self) -> Result<BlockNodeId, Refusal>
        ensures { Follows (call.NewBasicBlockNormal) new_block (book_of self.old) (book_of self.new) result }
    {
        self.blocks.new_basic_block_normal()
    }

    // Makes the first block of a function, tied and made current as a normal one. O(1).
    pub fn new_basic_block_function(&mut self) -> Result<BlockNodeId, Refusal>
        ensures { Follows (call.NewBasicBlockFunction) new_block (book_of self.old) (book_of self.new) result }
    {
        self.blocks.new_basic_block_normal()
    }

    // Makes an existing block current. O(1).
    pub fn set_current(&mut self, block: BlockNodeId) -> Result<(), Refusal>
        ensures { Follows (call.SetCurrent block) no_reply (book_of self.old) (book_of self.new) result }
    {
        self.blocks.set_current(block)
    }

    // Marks one block reachable, and no other. O(1).
    pub fn mark_as_reachable(&mut self, block: BlockNodeId) -> Result<(), Refusal>
        ensures { Follows (call.MarkAsReachable block) no_reply (book_of self.old) (book_of self.new) result }
    {
        self.blocks.set_unreachable(block, false)
    }

    // Marks one block unreachable, and no other. O(1).
    pub fn mark_as_unreachable(&mut self, block: BlockNodeId) -> Result<(), Refusal>
        ensures { Follows (call.MarkAsUnreachable block) no_reply (book_of self.old) (book_of self.new) result }
    {
        self.blocks.set_unreachable(block, true)
    }

    // Adds an edge; its target's mark is set first, by the edges that came in before. O(1).
    pub fn add_edge(
        &mut self,
        a: BlockNodeId,
        b: BlockNodeId,
        kind: EdgeType,
    ) -> Result<(), Refusal>
        ensures { Follows (call.AddEdge a b kind) no_reply (book_of self.old) (book_of self.new) result }
    {
        self.blocks.add_edge(a, b, kind)
    }

    // Adds a statement to the current block. O(1).
    pub fn push_statement(&mut self, stmt: NodeId) -> Result<(), Refusal>
        ensures { Follows (call.PushStatement stmt) no_reply (book_of self.old) (book_of self.new) result }
    {
        self.blocks
            .push_instruction(InstructionKind::Statement, Some(stmt))
    }

    // Adds a statement to the current block, as it is entered. O(1).
    pub fn enter_statement(&mut self, stmt: NodeId) -> Result<(), Refusal>
        ensures { Follows (call.EnterStatement stmt) no_reply (book_of self.old) (book_of self.new) result }
    {
        self.blocks
            .push_instruction(InstructionKind::Statement, Some(stmt))
    }

    // Adds a return to the current block. O(1).
    pub fn push_return(
        &mut self,
        kind: ReturnInstructionKind,
        node: Option<NodeId>,
    ) -> Result<(), Refusal>
        ensures { Follows (call.PushReturn kind node) no_reply (book_of self.old) (book_of self.new) result }
    {
        self.blocks
            .push_instruction(InstructionKind::Return(kind), node)
    }

    // Adds the return at a function's end to the current block. O(1).
    pub fn push_implicit_return(&mut self) -> Result<(), Refusal>
        ensures { Follows (call.PushImplicitReturn) no_reply (book_of self.old) (book_of self.new) result }
    {
        self.blocks
            .push_instruction(InstructionKind::ImplicitReturn, None)
    }

    // Adds the step of an iteration to the current block. O(1).
    pub fn append_iteration(
        &mut self,
        node: Option<NodeId>,
        kind: IterationInstructionKind,
    ) -> Result<(), Refusal>
        ensures { Follows (call.AppendIteration node kind) no_reply (book_of self.old) (book_of self.new) result }
    {
        self.blocks
            .push_instruction(InstructionKind::Iteration(kind), node)
    }

    // Adds a condition to a named block. O(1).
    pub fn append_condition_to(
        &mut self,
        block: BlockNodeId,
        node: Option<NodeId>,
    ) -> Result<(), Refusal>
        ensures { Follows (call.AppendConditionTo block node) no_reply (book_of self.old) (book_of self.new) result }
    {
        self.blocks
            .push_instruction_to(block, InstructionKind::Condition, node)
    }

    // Goes on in a new block that control does not get to. O(1).
    pub fn append_unreachable(&mut self) -> Result<(), Refusal>
        ensures { Follows (call.AppendUnreachable) no_reply (book_of self.old) (book_of self.new) result }
    {
        self.blocks.append_unreachable()
    }

    // Adds a throw to the current block, and goes on in an unreachable one. O(1).
    pub fn append_throw(&mut self, node: NodeId) -> Result<(), Refusal>
        ensures { Follows (call.AppendThrow node) no_reply (book_of self.old) (book_of self.new) result }
    {
        self.blocks
            .append_terminator(InstructionKind::Throw, Some(node))
    }
}
