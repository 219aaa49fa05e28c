// Whether a block starts an infinite loop.
ghost use Rattle.std.specs.Prelude.{◌≡◌, Bool};
ghost use Rattle.kinds.specs.Replies.{told};
ghost use Rattle.kinds.specs.declared.block.Instruction.{Instruction as AnInstruction};
ghost use Rattle.cfg.specs.Loops.{first_fit, after_fit, is_backedge, jump_target, only, bare, loop_from, loop_start, loop_refusal};
ghost use Rattle.cfg.specs.View.{graph_of};
ghost use Rattle.blocks.specs.Blocks.{instructions_in};
ghost use Rattle.store.specs.View.{left};

use crate::control_flow_graph::ControlFlowGraph;
use kinds::block::{BlockNodeId, Instruction};
use kinds::edge::{Edge, EdgeType};
use kinds::refusal::Refusal;
use store::direction::Direction;
use store::edges::Edges;

// Who says whether an instruction is a condition that always holds, by a trait and not a closure, as the query is defined by a function of it.
pub trait EvalConstCondition {
    // whether it finds an instruction true
    ghost holds: { Self → AnInstruction → Bool };

    fn eval(&self, instruction: Instruction) -> bool
        ensures { result ≡ holds self.now instruction };
}

// The next Backedge among the edges left; those after it are left then.
fn next_backedge(edges: &mut Edges) -> Option<Edge>
    ensures first { result ≡ first_fit is_backedge (left edges.old) }
    ensures after { left edges.new ≡ after_fit is_backedge (left edges.old) }
{
    edges.find(|edge| edge.kind == EdgeType::Backedge)
}

impl ControlFlowGraph {
    // The two ends of the infinite loop that a block starts, where it starts one. O(e + n), the edges at the block and all instructions.
    pub fn is_infinite_loop_start<E: EvalConstCondition>(
        &self,
        node: BlockNodeId,
        evaluator: &E,
    ) -> Result<Option<(BlockNodeId, BlockNodeId)>, Refusal>
        ensures { result ≡ told (loop_refusal node (graph_of self.now)) (loop_start (E.EvalConstCondition.holds evaluator.now) node (graph_of self.now)) }
    {
        self.blocks.check_block(node)?;
        let mut incoming = self.edges_at(node, Direction::Incoming);
        let Some(backedge) = next_backedge(&mut incoming) else {
            return Ok(None);
        };
        if next_backedge(&mut incoming).is_some() {
            return Err(Refusal::TwoBackedges);
        }
        Ok(self.loop_from(node, backedge.source, evaluator))
    }

    // The answer where a Backedge comes in from the block `source`.
    fn loop_from<E: EvalConstCondition>(
        &self,
        node: BlockNodeId,
        source: BlockNodeId,
        evaluator: &E,
    ) -> Option<(BlockNodeId, BlockNodeId)>
        ensures { result ≡ loop_from (E.EvalConstCondition.holds evaluator.now) node (graph_of self.now) source }
    {
        let target = self.jump_target(node);
        if self.is_bare(node) || evaluator.eval(self.only_instruction(node)?) {
            return target.map(|target| (target, node));
        }
        if evaluator.eval(self.only_instruction(source)?) {
            return target.map(|target| (node, target));
        }
        None
    }

    // Whether a block holds no instruction and no Backedge leaves it.
    fn is_bare(&self, node: BlockNodeId) -> bool
        ensures { result ≡ bare node (graph_of self.now) }
    {
        let mut outgoing = self.edges_at(node, Direction::Outgoing);
        self.blocks.instruction(node, 0).is_none() && next_backedge(&mut outgoing).is_none()
    }

    // The instruction of a block that holds exactly one.
    fn only_instruction(&self, block: BlockNodeId) -> Option<Instruction>
        ensures { result ≡ only (instructions_in block (graph_of self.now).instructions) }
    {
        let first = self.blocks.instruction(block, 0)?;
        let second = self.blocks.instruction(block, 1);
        second.is_none().then_some(first)
    }

    // The target of the newest Jump that leaves a block, or else of the newest edge that does.
    fn jump_target(&self, node: BlockNodeId) -> Option<BlockNodeId>
        ensures { result ≡ jump_target node (graph_of self.now) }
    {
        let newest = self.edges_at(node, Direction::Outgoing).next();
        self.edges_at(node, Direction::Outgoing)
            .find(|edge| edge.kind == EdgeType::Jump)
            .or(newest)
            .map(|edge| edge.target)
    }
}
