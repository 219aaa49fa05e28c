// The marks that a walk works on, lent to it and cleared when it ends.
ghost use Rattle.std.specs.Prelude.{◌≡◌, ◌<◌, length, replicate, slice_index, slice_set};
ghost use Rattle.walk.specs.Marks.{byte_of, mark_of};

use walk::mark::Mark;

// Holds the lent marks, one byte a block, and clears them when it is dropped, by whichever way out.
pub struct MarkGuard<'a> {
    pub marks: &'a mut [u8],
}

impl Drop for MarkGuard<'_> {
    fn drop(self)
        ensures { self.exit.0.now ≡ replicate (length self.entry.marks.now) 0 }
    {
        self.marks.fill(0);
        let MarkGuard { marks: _ } = self;
    }
}

impl<'a> MarkGuard<'a> {
    // The mark of a block. O(1).
    pub fn get(&self, block: u32) -> Mark
        requires { block < length self.now.marks.now }
        ensures { result ≡ mark_of (slice_index self.now.marks.now block) }
    {
        Mark::from(self.marks[block as usize])
    }

    // Marks a block. O(1).
    pub fn set(&mut self, block: u32, mark: Mark)
        requires { block < length self.old.marks.now }
        ensures marks { self.new.marks.now ≡ slice_set self.old.marks.now block (byte_of mark) }
        ensures same { self.new.marks.ghost_name ≡ self.old.marks.ghost_name }
    {
        self.marks[block as usize] = u8::from(mark);
    }
}
