// Sets of numbers, of blocks or of nodes, as lists.
ghost use Rattle.std.specs.Prelude.{◌≡◌};
ghost use Rattle.graph.specs.Among.{among};

// Whether a number is one of `numbers`. A loop that stops at the first that is: `contains` reads numbers in groups, which costs more on a list of a few. O(numbers).
pub fn is_among(number: u32, numbers: &[u32]) -> bool
    ensures { result ≡ among number numbers.now }
{
    for n in numbers {
        if *n == number {
            return true;
        }
    }
    false
}
