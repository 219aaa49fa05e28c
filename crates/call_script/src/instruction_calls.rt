// The calls that add instructions, by name.
ghost use Rattle.std.specs.Prelude.{◌≡◌};
ghost use Rattle.line.specs.Cursor.{left};
ghost use Rattle.line.specs.Rows.{chosen};
ghost use Rattle.call_script.specs.Lines.{instruction_calls};

use book::call::Call;
use kinds::block::{IterationInstructionKind, ReturnInstructionKind};
use kinds::context::{EntryKind, Label};
use line::arguments::{alone, one, two};
use line::words::Command;

// The call of that name, with what the words left stand for.
pub fn read_instruction_call(command: Command) -> Option<Call>
    ensures { result ≡ chosen command.entry.name.now (instruction_calls (left command.entry.words)) }
{
    let words = command.words;
    match command.name {
        "push_statement" => Some(Call::PushStatement(one::<u32>(words)?)),
        "enter_statement" => Some(Call::EnterStatement(one::<u32>(words)?)),
        "push_return" => {
            let (kind, node) = two::<ReturnInstructionKind, Option<u32>>(words)?;
            Some(Call::PushReturn(kind, node))
        }
        "push_implicit_return" => alone(Call::PushImplicitReturn, words),
        "append_iteration" => {
            let (node, kind) = two::<Option<u32>, IterationInstructionKind>(words)?;
            Some(Call::AppendIteration(node, kind))
        }
        "append_condition_to" => {
            let (block, node) = two::<u32, Option<u32>>(words)?;
            Some(Call::AppendConditionTo(block, node))
        }
        "append_unreachable" => alone(Call::AppendUnreachable, words),
        "append_throw" => Some(Call::AppendThrow(one::<u32>(words)?)),
        "append_break" => {
            let (node, label) = two::<u32, Option<Label>>(words)?;
            Some(Call::Append(EntryKind::Break, node, label))
        }
        "append_continue" => {
            let (node, label) = two::<u32, Option<Label>>(words)?;
            Some(Call::Append(EntryKind::Continue, node, label))
        }
        _ => None,
    }
}
