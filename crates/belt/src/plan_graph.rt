// A belt plan as a graph: each row is listed by rising number, and no step into a locked segment is permitted.
ghost use Rattle.belt.specs.Plan.{meaning_of};
ghost use Rattle.belt.specs.Sets.{listed};
ghost use Rattle.belt.specs.Soundness.{plan_sound, segments_within};

use crate::plan::{BeltPlan, SEGMENTS};
use crate::segments::Segments;
use graph::graph::{Graph, Step};

impl Graph for BeltPlan {
    // the segments of a row that are still to be read
    type Place = Segments;

    ghost meaning = { meaning_of };

    ghost rest = { λ _ p. listed p };

    ghost sound = { plan_sound };

    ghost within = { λ _ p v m. segments_within p.bits v m };

    fn node_count(&self) -> usize {
        SEGMENTS as usize
    }

    fn head(&self, block: u32) -> Segments {
        self.row(block)
    }

    fn next(&self, place: Segments) -> Option<Step<Segments>> {
        place.lowest()
    }

    fn permitted(&self, from: u32, to: u32) -> bool {
        self.row(from).contains(to) && !self.locked_segments().contains(to)
    }
}
