// Words that are numbers.
ghost use Rattle.std.specs.Prelude.{◌≡◌};
ghost use Rattle.line.specs.Numbers.{number_of};

// The number of 32 bits that a word of digits writes. O(n) in its length.
pub fn number(word: &str) -> Option<u32>
    ensures { result ≡ number_of word.now }
{
    if word.starts_with('+') {
        return None;
    }
    word.parse().ok()
}
