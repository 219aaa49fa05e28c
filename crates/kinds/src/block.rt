// Blocks by their numbers, and the kinds of instructions in them.
ghost use Rattle.std.specs.Prelude.{◌≡◌};
ghost use Rattle.kinds.specs.Instructions.{kind_number};

// The number of a block, from 0 in the order of making.
pub type BlockNodeId = u32;

// The number of a syntax node.
pub type NodeId = u32;

// What a return gives back.
#[derive(Clone, Copy, PartialEq, Eq)]
pub enum ReturnInstructionKind {
    // nothing: a return with no value
    ImplicitUndefined,
    // the value that is written
    NotImplicitUndefined,
}

// Whether a break or a continue names a label.
#[derive(Clone, Copy, PartialEq, Eq)]
pub enum LabeledInstruction {
    // it does
    Labeled,
    // it does not, and leads out of the nearest context of its kind
    Unlabeled,
}

// What a loop runs over.
#[derive(Clone, Copy, PartialEq, Eq)]
pub enum IterationInstructionKind {
    // the elements
    Of,
    // the keys
    In,
}

// What an instruction does.
#[derive(Clone, Copy, PartialEq, Eq)]
pub enum InstructionKind {
    // marks a block that control does not get to
    Unreachable,
    // a statement
    Statement,
    // the end of a function without a return
    ImplicitReturn,
    // a return
    Return(ReturnInstructionKind),
    // out of a loop or a labelled statement
    Break(LabeledInstruction),
    // on to the next turn of a loop
    Continue(LabeledInstruction),
    // raises an error
    Throw,
    // a test that decides which way control goes
    Condition,
    // a turn of a loop over elements or keys
    Iteration(IterationInstructionKind),
}

impl InstructionKind {
    // The number of the kind, from 1 on; different kinds have different numbers. O(1).
    pub fn number(self) -> u32
        ensures { result ≡ kind_number self }
    {
        match self {
            InstructionKind::Unreachable => 1,
            InstructionKind::Statement => 2,
            InstructionKind::ImplicitReturn => 3,
            InstructionKind::Return(ReturnInstructionKind::ImplicitUndefined) => 4,
            InstructionKind::Return(ReturnInstructionKind::NotImplicitUndefined) => 5,
            InstructionKind::Break(LabeledInstruction::Labeled) => 6,
            InstructionKind::Break(LabeledInstruction::Unlabeled) => 7,
            InstructionKind::Continue(LabeledInstruction::Labeled) => 8,
            InstructionKind::Continue(LabeledInstruction::Unlabeled) => 9,
            InstructionKind::Throw => 10,
            InstructionKind::Condition => 11,
            InstructionKind::Iteration(IterationInstructionKind::Of) => 12,
            InstructionKind::Iteration(IterationInstructionKind::In) => 13,
        }
    }
}

// An instruction, and the syntax node that it comes from, if it comes from one.
#[derive(Clone, Copy)]
pub struct Instruction {
    pub kind: InstructionKind,
    pub node_id: Option<NodeId>,
}
