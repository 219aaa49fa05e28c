// The kinds of edges, returns, iterations and instructions, by the names that a script has for them.
ghost use Rattle.std.specs.Prelude.{◌≡◌, Some};
ghost use Rattle.line.specs.Kinds.{edge_named, error_named, return_named, iteration_named, instruction_named};

use crate::arguments::Argument;
use kinds::block::{
    InstructionKind, IterationInstructionKind, LabeledInstruction, ReturnInstructionKind,
};
use kinds::edge::{EdgeType, ErrorEdgeKind};

impl Argument for ErrorEdgeKind {
    ghost reads = { error_named };

    fn read(word: &str) -> Option<ErrorEdgeKind> {
        match word {
            "explicit" => Some(ErrorEdgeKind::Explicit),
            "implicit" => Some(ErrorEdgeKind::Implicit),
            _ => None,
        }
    }
}

impl Argument for EdgeType {
    ghost reads = { edge_named };

    fn read(word: &str) -> Option<EdgeType> {
        match word {
            "jump" => Some(EdgeType::Jump),
            "normal" => Some(EdgeType::Normal),
            "backedge" => Some(EdgeType::Backedge),
            "new_function" => Some(EdgeType::NewFunction),
            "finalize" => Some(EdgeType::Finalize),
            "error_explicit" => Some(EdgeType::Error(ErrorEdgeKind::Explicit)),
            "error_implicit" => Some(EdgeType::Error(ErrorEdgeKind::Implicit)),
            "unreachable" => Some(EdgeType::Unreachable),
            "join" => Some(EdgeType::Join),
            _ => None,
        }
    }
}

impl Argument for ReturnInstructionKind {
    ghost reads = { return_named };

    fn read(word: &str) -> Option<ReturnInstructionKind> {
        match word {
            "implicit_undefined" => Some(ReturnInstructionKind::ImplicitUndefined),
            "not_implicit_undefined" => Some(ReturnInstructionKind::NotImplicitUndefined),
            _ => None,
        }
    }
}

impl Argument for IterationInstructionKind {
    ghost reads = { iteration_named };

    fn read(word: &str) -> Option<IterationInstructionKind> {
        match word {
            "of" => Some(IterationInstructionKind::Of),
            "in" => Some(IterationInstructionKind::In),
            _ => None,
        }
    }
}

impl Argument for InstructionKind {
    ghost reads = { instruction_named };

    fn read(word: &str) -> Option<InstructionKind> {
        match word {
            "unreachable" => Some(InstructionKind::Unreachable),
            "statement" => Some(InstructionKind::Statement),
            "implicit_return" => Some(InstructionKind::ImplicitReturn),
            "return_implicit_undefined" => Some(InstructionKind::Return(
                ReturnInstructionKind::ImplicitUndefined,
            )),
            "return_not_implicit_undefined" => Some(InstructionKind::Return(
                ReturnInstructionKind::NotImplicitUndefined,
            )),
            "break_labeled" => Some(InstructionKind::Break(LabeledInstruction::Labeled)),
            "break_unlabeled" => Some(InstructionKind::Break(LabeledInstruction::Unlabeled)),
            "continue_labeled" => Some(InstructionKind::Continue(LabeledInstruction::Labeled)),
            "continue_unlabeled" => Some(InstructionKind::Continue(LabeledInstruction::Unlabeled)),
            "throw" => Some(InstructionKind::Throw),
            "condition" => Some(InstructionKind::Condition),
            "iteration_of" => Some(InstructionKind::Iteration(IterationInstructionKind::Of)),
            "iteration_in" => Some(InstructionKind::Iteration(IterationInstructionKind::In)),
            _ => None,
        }
    }
}

// The name by which a script has a kind of edge. O(1).
pub fn edge_name(kind: EdgeType) -> &'static str
    ensures { edge_named result.now ≡ Some kind }
{
    match kind {
        EdgeType::Jump => "jump",
        EdgeType::Normal => "normal",
        EdgeType::Backedge => "backedge",
        EdgeType::NewFunction => "new_function",
        EdgeType::Finalize => "finalize",
        EdgeType::Error(ErrorEdgeKind::Explicit) => "error_explicit",
        EdgeType::Error(ErrorEdgeKind::Implicit) => "error_implicit",
        EdgeType::Unreachable => "unreachable",
        EdgeType::Join => "join",
    }
}

// The name by which a script has a kind of instruction. O(1).
pub fn instruction_name(kind: InstructionKind) -> &'static str
    ensures { instruction_named result.now ≡ Some kind }
{
    match kind {
        InstructionKind::Unreachable => "unreachable",
        InstructionKind::Statement => "statement",
        InstructionKind::ImplicitReturn => "implicit_return",
        InstructionKind::Return(ReturnInstructionKind::ImplicitUndefined) => {
            "return_implicit_undefined"
        }
        InstructionKind::Return(ReturnInstructionKind::NotImplicitUndefined) => {
            "return_not_implicit_undefined"
        }
        InstructionKind::Break(LabeledInstruction::Labeled) => "break_labeled",
        InstructionKind::Break(LabeledInstruction::Unlabeled) => "break_unlabeled",
        InstructionKind::Continue(LabeledInstruction::Labeled) => "continue_labeled",
        InstructionKind::Continue(LabeledInstruction::Unlabeled) => "continue_unlabeled",
        InstructionKind::Throw => "throw",
        InstructionKind::Condition => "condition",
        InstructionKind::Iteration(IterationInstructionKind::Of) => "iteration_of",
        InstructionKind::Iteration(IterationInstructionKind::In) => "iteration_in",
    }
}
