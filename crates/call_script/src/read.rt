// The call that a line makes.
ghost use Rattle.std.specs.Prelude.{◌≡◌};
ghost use Rattle.line.specs.Words.{words};
ghost use Rattle.call_script.specs.Lines.{call_of};

use crate::block_calls::read_block_call;
use crate::context_calls::{read_context_call, read_entry_call};
use crate::instruction_calls::read_instruction_call;
use book::call::Call;
use line::words::Command;

// The call on the builder that a line makes, or none where it makes none. O(n) in the line's length.
pub fn read_call(line: &str) -> Option<Call>
    ensures { result ≡ call_of (words line.now) }
{
    let command = Command::new(line);
    if let Some(call) = read_block_call(command) {
        return Some(call);
    }
    if let Some(call) = read_instruction_call(command) {
        return Some(call);
    }
    if let Some(call) = read_context_call(command) {
        return Some(call);
    }
    read_entry_call(command)
}
