// What stands against a walk.
ghost use Rattle.std.specs.Prelude.{◌≡◌};
ghost use Rattle.kinds.specs.Replies.{told};
ghost use Rattle.search.specs.Refused.{dirty, no_block, refused};

use kinds::refusal::Refusal;

// Whether one of the starts is no block.
fn has_no_block(count: usize, starts: &[u32]) -> bool
    ensures { result ≡ no_block count starts.now }
{
    starts.iter().any(|start| *start as usize >= count)
}

// Whether one of the marks is not zero.
fn is_dirty(marks: &[u8]) -> bool
    ensures { result ≡ dirty marks.now }
{
    marks.iter().any(|mark| *mark != 0)
}

// Refuses a walk of `count` blocks from the starts, with memory for `room` frames, where something stands against it. O(starts + count).
pub fn refuse_walk(count: usize, starts: &[u32], marks: &[u8], room: usize) -> Result<(), Refusal>
    ensures { result ≡ told (refused count starts.now marks.now room) tt }
{
    if has_no_block(count, starts) {
        Err(Refusal::NoBlock)
    } else if marks.len() < count || room < count {
        Err(Refusal::Short)
    } else if is_dirty(&marks[..count]) {
        Err(Refusal::Dirty)
    } else {
        Ok(())
    }
}
