// The calls on contexts, by name.
ghost use Rattle.std.specs.Prelude.{◌≡◌};
ghost use Rattle.line.specs.Cursor.{left};
ghost use Rattle.line.specs.Rows.{chosen};
ghost use Rattle.call_script.specs.Lines.{context_calls, entry_calls};

use book::call::Call;
use kinds::context::{CtxFlags, EntryKind, Label};
use line::arguments::{alone, one, two};
use line::words::Command;

// The call of that name that opens a context or resolves one, with what the words left stand for.
pub fn read_context_call(command: Command) -> Option<Call>
    ensures { result ≡ chosen command.entry.name.now (context_calls (left command.entry.words)) }
{
    let words = command.words;
    match command.name {
        "ctx_new" => {
            let (label, flags) = two::<Option<Label>, CtxFlags>(words)?;
            Some(Call::New(label, flags))
        }
        "ctx_default" => Some(Call::Default(one::<Option<Label>>(words)?)),
        "ctx_new_function" => Some(Call::NewFunction(one::<Option<Label>>(words)?)),
        "resolve" => alone(Call::Resolve, words),
        "resolve_expect" => Some(Call::ResolveExpect(one::<CtxFlags>(words)?)),
        "resolve_with_upper_label" => alone(Call::ResolveWithUpperLabel, words),
        "tally" => alone(Call::Tally, words),
        _ => None,
    }
}

// The call of that name that files a break or a continue, marks a target or sets a flag.
pub fn read_entry_call(command: Command) -> Option<Call>
    ensures { result ≡ chosen command.entry.name.now (entry_calls (left command.entry.words)) }
{
    let words = command.words;
    match command.name {
        "break" => Some(Call::File(EntryKind::Break, one::<Option<Label>>(words)?)),
        "continue" => Some(Call::File(EntryKind::Continue, one::<Option<Label>>(words)?)),
        "mark_break" => {
            let (label, block) = two::<Option<Label>, u32>(words)?;
            Some(Call::Mark(EntryKind::Break, label, block))
        }
        "mark_continue" => {
            let (label, block) = two::<Option<Label>, u32>(words)?;
            Some(Call::Mark(EntryKind::Continue, label, block))
        }
        "break_top" => alone(Call::FileOnTop(EntryKind::Break), words),
        "continue_top" => alone(Call::FileOnTop(EntryKind::Continue), words),
        "mark_break_top" => Some(Call::MarkOnTop(EntryKind::Break, one::<u32>(words)?)),
        "mark_continue_top" => Some(Call::MarkOnTop(EntryKind::Continue, one::<u32>(words)?)),
        "allow_break" => alone(Call::Allow(EntryKind::Break), words),
        "allow_continue" => alone(Call::Allow(EntryKind::Continue), words),
        _ => None,
    }
}
