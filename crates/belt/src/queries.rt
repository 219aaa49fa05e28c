// What a belt plan answers.
ghost use Rattle.std.specs.Prelude.{◌≡◌, IfOk};
ghost use Rattle.kinds.specs.Replies.{told};
ghost use Rattle.belt.specs.Counts.{feeding, transfers};
ghost use Rattle.belt.specs.Listing.{Lists};
ghost use Rattle.belt.specs.Plan.{locked, no_segment, no_segments, permitted, row_of, transfer};
ghost use Rattle.belt.specs.Sets.{listed, set_of};

use crate::plan::{BeltPlan, known};
use crate::segments::Segments;
use graph::graph::Graph;
use kinds::refusal::Refusal;

impl BeltPlan {
    // The segments that a segment feeds, by rising number. O(1), and O(1) for each that is read.
    pub fn transfers(&self, segment: u32) -> Result<Segments, Refusal>
        ensures answer { result ≡ told (no_segment segment) (set_of (row_of self.now segment)) }
        ensures lists { IfOk result (λ s. Lists (transfer self.now segment) (listed s)) }
    {
        known(segment)?;
        Ok(self.row(segment))
    }

    // The segments that a segment feeds; a number that is no segment feeds none. O(1).
    pub(crate) fn row(&self, segment: u32) -> Segments
        ensures answer { result ≡ set_of (row_of self.now segment) }
        ensures lists { Lists (transfer self.now segment) (listed result) }
    {
        Segments::of(self.rows.get(segment as usize).copied().unwrap_or(0))
    }

    // Whether a segment feeds another that is not locked. O(1).
    pub fn is_permitted(&self, from: u32, to: u32) -> Result<bool, Refusal>
        ensures { result ≡ told (no_segments from to) (permitted self.now from to) }
    {
        known(from)?;
        known(to)?;
        Ok(self.permitted(from, to))
    }

    // The locked segments, by rising number. O(1), and O(1) for each that is read.
    pub fn locked_segments(&self) -> Segments
        ensures answer { result ≡ set_of self.now.locked }
        ensures lists { Lists (locked self.now) (listed result) }
    {
        Segments::of(self.locked)
    }

    // How many segments feed others. O(n).
    pub fn feeding_count(&self) -> u32
        ensures { result ≡ feeding self.now.rows }
    {
        let mut feeding = 0;
        for row in self.rows {
            if row != 0 {
                feeding += 1;
            }
        }
        feeding
    }

    // How many transfers the plan has. O(n).
    pub fn transfer_count(&self) -> u32
        ensures { result ≡ transfers self.now.rows }
    {
        self.rows.iter().map(|row| Segments::of(*row).len()).sum()
    }
}
