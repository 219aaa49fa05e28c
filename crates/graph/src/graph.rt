// What a graph is to a program that only asks it.
ghost use Rattle.std.specs.Prelude.{◌≡◌, ℕ, ◌<◌, List};
ghost use Rattle.graph.specs.Meaning.{Meaning, Sound, Member};
ghost use Rattle.graph.specs.Places.{Steps};

// A neighbour in a list, and the place that follows it.
#[derive(Clone, Copy)]
pub struct Step<P> {
    pub block: u32,
    pub next: P,
}

// A graph that answers questions; no question changes anything.
pub trait Graph {
    // where one stands in a list of neighbours
    type Place: Copy;

    // its size, its lists and its permitted steps
    ghost meaning: { Self → Meaning };

    // what is left of a list, from a place on
    ghost rest: { Self → Self.Place → List ℕ };

    ghost sound: { (g : Self) → Sound (meaning g) };

    ghost within: { (g : Self) (p : Self.Place) (v : ℕ) → Member v (rest g p) → v < (meaning g).size };

    // The number of blocks. O(1).
    fn node_count(&self) -> usize
        ensures { result ≡ (meaning self.now).size };

    // The place at the head of the list of `block`; a number that is no block has the empty list. O(1).
    fn head(&self, block: u32) -> Self::Place
        ensures { rest self.now result ≡ (meaning self.now).neighbors block };

    // The neighbour at a place and the place that follows, or none at the end of the list. O(1).
    fn next(&self, place: Self::Place) -> Option<Step<Self::Place>>
        ensures { Steps (rest self.now) (rest self.now place) result };

    // Whether the step from a block to another is there and permitted.
    fn permitted(&self, from: u32, to: u32) -> bool
        ensures { result ≡ (meaning self.now).permitted from to };
}
