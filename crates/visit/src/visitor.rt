// Who hears the events of a walk, and replies to each.
ghost use Rattle.std.specs.Prelude.{◌≡◌};
ghost use Rattle.walk.specs.Walk.{Visitor as Meaning};

use walk::event::{Control, DfsEvent};

// A visitor; its reply and its next state are fixed by its state and the event.
pub trait Visitor {
    // what a Break carries
    type Stop;

    // the reply and the next state, by the state and the event
    ghost meaning: { Meaning Self Self.Stop };

    // Hears an event, and replies.
    fn visit(&mut self, event: DfsEvent) -> Control<Self::Stop>
        ensures state { self.new ≡ meaning.next self.old event }
        ensures reply { result ≡ meaning.reply self.old event };
}
