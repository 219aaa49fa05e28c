// The edits of a belt plan. Setting and clearing are calls of their own, as a script has them, over one function each.
ghost use Rattle.std.specs.Prelude.{◌≡◌, true, false, Ok};
ghost use Rattle.kinds.specs.Replies.{after, told};
ghost use Rattle.belt.specs.Edits.{with_transfer, with_lock, TransferIs, LockIs};
ghost use Rattle.belt.specs.Plan.{empty, no_segment, no_segments};

use crate::plan::{BeltPlan, known};
use crate::words::put_bit;
use kinds::refusal::Refusal;

impl BeltPlan {
    // A plan with no transfer and no lock. O(1).
    pub fn new() -> BeltPlan
        ensures { result ≡ empty }
    {
        BeltPlan {
            rows: [0; 64],
            locked: 0,
        }
    }

    // Sets the transfer from a segment to another. O(1).
    pub fn set_transfer(&mut self, from: u32, to: u32) -> Result<(), Refusal>
        ensures answer { result ≡ told (no_segments from to) tt }
        ensures plan { self.new ≡ after (no_segments from to) self.old (with_transfer from to true self.old) }
        ensures only { result ≡ Ok tt → TransferIs true from to self.old self.new }
    {
        self.put_transfer(from, to, true)
    }

    // Clears the transfer from a segment to another. O(1).
    pub fn clear_transfer(&mut self, from: u32, to: u32) -> Result<(), Refusal>
        ensures answer { result ≡ told (no_segments from to) tt }
        ensures plan { self.new ≡ after (no_segments from to) self.old (with_transfer from to false self.old) }
        ensures only { result ≡ Ok tt → TransferIs false from to self.old self.new }
    {
        self.put_transfer(from, to, false)
    }

    // Locks a segment. O(1).
    pub fn set_lock(&mut self, segment: u32) -> Result<(), Refusal>
        ensures answer { result ≡ told (no_segment segment) tt }
        ensures plan { self.new ≡ after (no_segment segment) self.old (with_lock segment true self.old) }
        ensures only { result ≡ Ok tt → LockIs true segment self.old self.new }
    {
        self.put_lock(segment, true)
    }

    // Unlocks a segment. O(1).
    pub fn clear_lock(&mut self, segment: u32) -> Result<(), Refusal>
        ensures answer { result ≡ told (no_segment segment) tt }
        ensures plan { self.new ≡ after (no_segment segment) self.old (with_lock segment false self.old) }
        ensures only { result ≡ Ok tt → LockIs false segment self.old self.new }
    {
        self.put_lock(segment, false)
    }

    // Sets or clears the transfer from a segment to another.
    fn put_transfer(&mut self, from: u32, to: u32, set: bool) -> Result<(), Refusal>
        ensures answer { result ≡ told (no_segments from to) tt }
        ensures plan { self.new ≡ after (no_segments from to) self.old (with_transfer from to set self.old) }
        ensures only { result ≡ Ok tt → TransferIs set from to self.old self.new }
    {
        known(from)?;
        known(to)?;
        self.rows[from as usize] = put_bit(self.rows[from as usize], to, set);
        Ok(())
    }

    // Locks or unlocks a segment.
    fn put_lock(&mut self, segment: u32, set: bool) -> Result<(), Refusal>
        ensures answer { result ≡ told (no_segment segment) tt }
        ensures plan { self.new ≡ after (no_segment segment) self.old (with_lock segment set self.old) }
        ensures only { result ≡ Ok tt → LockIs set segment self.old self.new }
    {
        known(segment)?;
        self.locked = put_bit(self.locked, segment, set);
        Ok(())
    }
}
