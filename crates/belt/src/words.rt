// Words of 64 bits, one bit a segment.
ghost use Rattle.std.specs.Prelude.{◌≡◌, ◌<◌, ◌==◌};
ghost use Rattle.belt.specs.Words.{bit, put};

// The word with a bit set or cleared. O(1).
#[tactic(auto, using(crate::proofs::Bits::sets, crate::proofs::Bits::clears))]
pub(crate) fn put_bit(word: u64, at: u32, set: bool) -> u64
    requires { at < 64 }
    ensures { result ≡ put at set word }
{
    if set {
        word | (1 << at)
    } else {
        word & !(1 << at)
    }
}

// Whether a bit is set. O(1).
#[tactic(auto, using(crate::proofs::Bits::reads))]
pub(crate) fn has_bit(word: u64, at: u32) -> bool
    requires { at < 64 }
    ensures { result ≡ (bit at word == 1) }
{
    (word >> at) & 1 == 1
}
