// A belt plan.
ghost use Rattle.std.specs.Prelude.{◌≡◌};
ghost use Rattle.kinds.specs.Replies.{told};
ghost use Rattle.belt.specs.Plan.{no_segment};

use kinds::refusal::Refusal;

// How many segments a plan has.
pub const SEGMENTS: u32 = 64;

// A row of transfers for each segment, one bit a transfer, and one word of lockouts.
#[derive(Drop, Clone, Copy)]
pub struct BeltPlan {
    pub(crate) rows: [u64; 64],
    pub(crate) locked: u64,
}

// Refuses a number that is no segment. O(1).
pub(crate) fn known(segment: u32) -> Result<(), Refusal>
    ensures { result ≡ told (no_segment segment) tt }
{
    if segment < SEGMENTS {
        Ok(())
    } else {
        Err(Refusal::NoBlock)
    }
}
