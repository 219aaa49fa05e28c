// The call that a line makes.
ghost use Rattle.std.specs.Prelude.{◌≡◌};
ghost use Rattle.line.specs.Cursor.{left};
ghost use Rattle.line.specs.Words.{words};
ghost use Rattle.plan_script.specs.Lines.{call_of, call_named};

use crate::call::PlanCall;
use line::arguments::{alone, one, two};
use line::words::Command;

// The call that a line makes, or none where it is no call. O(n) in the line's length.
pub fn read_call(line: &str) -> Option<PlanCall>
    ensures { result ≡ call_of (words line.now) }
{
    read_named(Command::new(line))
}

// The call of that name, with the numbers that the words left write.
fn read_named(command: Command) -> Option<PlanCall>
    ensures { result ≡ call_named command.entry.name.now (left command.entry.words) }
{
    let words = command.words;
    match command.name {
        "set_transfer" => {
            let (from, to) = two::<u32, u32>(words)?;
            Some(PlanCall::SetTransfer(from, to))
        }
        "clear_transfer" => {
            let (from, to) = two::<u32, u32>(words)?;
            Some(PlanCall::ClearTransfer(from, to))
        }
        "set_lock" => Some(PlanCall::SetLock(one::<u32>(words)?)),
        "clear_lock" => Some(PlanCall::ClearLock(one::<u32>(words)?)),
        "transfers" => Some(PlanCall::Transfers(one::<u32>(words)?)),
        "permitted" => {
            let (from, to) = two::<u32, u32>(words)?;
            Some(PlanCall::Permitted(from, to))
        }
        "segments" => alone(PlanCall::Segments, words),
        _ => None,
    }
}
