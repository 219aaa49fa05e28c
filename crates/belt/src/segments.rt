// Sets of segments, listed by rising number.
ghost use Rattle.std.specs.Prelude.{◌≡◌, ◌≤◌, length};
ghost use Rattle.graph.specs.Places.{Steps};
ghost use Rattle.belt.specs.Listing.{Lists};
ghost use Rattle.belt.specs.Plan.{has};
ghost use Rattle.belt.specs.Sets.{listed, set_of};
ghost use Rattle.std.specs.Iterator.{YieldsFirst, item_count};

use crate::plan::SEGMENTS;
use crate::words::has_bit;
use graph::graph::Step;

// A set of segments, one bit each.
#[derive(Clone, Copy)]
pub struct Segments {
    pub(crate) bits: u64,
}

impl Segments {
    // The segments whose bits are set in a word. O(1).
    #[tactic(auto, using(crate::specs::Soundness::word_lists))]
    pub(crate) fn of(word: u64) -> Segments
        ensures value { result ≡ set_of word }
        ensures lists { Lists (λ s. has s word) (listed result) }
    {
        Segments { bits: word }
    }

    // Whether a segment is in the set. O(1).
    pub(crate) fn contains(self, segment: u32) -> bool
        ensures { result ≡ has segment self.bits }
    {
        segment < SEGMENTS && has_bit(self.bits, segment)
    }

    // How many segments the set has. O(1).
    #[tactic(auto, using(crate::proofs::Fed::fed_ones))]
    pub(crate) fn len(self) -> u32
        ensures value { result ≡ length (listed self) }
        ensures few { result ≤ 64 }
    {
        self.bits.count_ones()
    }

    // The lowest segment with the set of the others, or none of an empty set. O(1).
    #[tactic(auto, using(crate::proofs::Listing::segments_next, crate::specs::Soundness::segments_none))]
    pub(crate) fn lowest(self) -> Option<Step<Segments>>
        ensures { Steps listed (listed self) result }
    {
        if self.bits == 0 {
            return None;
        }
        let others = Segments {
            bits: self.bits & (self.bits - 1),
        };
        Some(Step {
            block: self.bits.trailing_zeros(),
            next: others,
        })
    }
}

impl Iterator for Segments {
    type Item = u32;

    ghost next_gives = { YieldsFirst listed };

    ghost remaining = { item_count listed };

    fn next(&mut self) -> Option<u32> {
        let step = self.lowest()?;
        self.bits = step.next.bits;
        Some(step.block)
    }
}
