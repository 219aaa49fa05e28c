// The evaluators of the loop query: by the kind of an instruction, and by the node that it comes from.
ghost use Rattle.cfg.specs.Evaluators.{same_kind, of_node};

use crate::loop_query::EvalConstCondition;
use graph::among::is_among;
use kinds::block::{Instruction, InstructionKind, NodeId};

// Finds the instructions of one kind true.
#[derive(Clone, Copy)]
pub struct TrueKind {
    pub kind: InstructionKind,
}

impl EvalConstCondition for TrueKind {
    ghost holds = { λ e i. same_kind e.kind i.kind };

    fn eval(&self, instruction: Instruction) -> bool {
        instruction.kind == self.kind
    }
}

// Finds the instructions of some nodes true.
#[derive(Clone, Copy)]
pub struct TrueNodes<'a> {
    pub nodes: &'a [NodeId],
}

impl<'a> EvalConstCondition for TrueNodes<'a> {
    ghost holds = { λ e i. of_node e.nodes.now i.node_id };

    fn eval(&self, instruction: Instruction) -> bool {
        instruction
            .node_id
            .is_some_and(|node| is_among(node, self.nodes))
    }
}
