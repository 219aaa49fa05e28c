// What a walk asks about the block that a step leaves.
ghost use Rattle.std.specs.Prelude.{◌≡◌, ℕ, Bool};
ghost use Rattle.walk.specs.declared.event.Control.{Control};

use walk::event::Control;

// A filter, by a trait and not a closure, as the law of reach speaks of the reply as a function of the block: it lets a block pass by Continue, prunes the steps that leave it, or stops the walk with yes or no.
pub trait Filter {
    // the reply, by the block
    ghost meaning: { Self → ℕ → Control Bool };

    // What becomes of the steps that leave `block`.
    fn filter(&self, block: u32) -> Control<bool>
        ensures { result ≡ meaning self.now block };
}
