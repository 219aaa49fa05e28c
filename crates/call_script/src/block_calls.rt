// The calls on blocks, edges, harnesses and finalizers, by name.
ghost use Rattle.std.specs.Prelude.{◌≡◌};
ghost use Rattle.line.specs.Cursor.{left};
ghost use Rattle.line.specs.Rows.{chosen};
ghost use Rattle.call_script.specs.Lines.{block_calls};

use book::call::Call;
use kinds::edge::{EdgeType, ErrorEdgeKind};
use line::arguments::{alone, one, three};
use line::words::Command;

// The call of that name, with what the words left stand for.
pub fn read_block_call(command: Command) -> Option<Call>
    ensures { result ≡ chosen command.entry.name.now (block_calls (left command.entry.words)) }
{
    let words = command.words;
    match command.name {
        "attach_error_harness" => Some(Call::AttachErrorHarness(one::<ErrorEdgeKind>(words)?)),
        "release_error_harness" => Some(Call::ReleaseErrorHarness(one::<u32>(words)?)),
        "attach_finalizer" => alone(Call::AttachFinalizer, words),
        "release_finalizer" => Some(Call::ReleaseFinalizer(one::<u32>(words)?)),
        "push_finalization_stack" => alone(Call::PushFinalizationStack, words),
        "pop_finalization_stack" => alone(Call::PopFinalizationStack, words),
        "new_basic_block_normal" => alone(Call::NewBasicBlockNormal, words),
        "new_basic_block_function" => alone(Call::NewBasicBlockFunction, words),
        "current" => alone(Call::Current, words),
        "set_current" => Some(Call::SetCurrent(one::<u32>(words)?)),
        "mark_as_reachable" => Some(Call::MarkAsReachable(one::<u32>(words)?)),
        "mark_as_unreachable" => Some(Call::MarkAsUnreachable(one::<u32>(words)?)),
        "add_edge" => {
            let (from, to, kind) = three::<u32, u32, EdgeType>(words)?;
            Some(Call::AddEdge(from, to, kind))
        }
        _ => None,
    }
}
