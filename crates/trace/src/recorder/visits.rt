// How the recorder hears an event, and what it replies.
ghost use Rattle.std.specs.Prelude.{◌≡◌};
ghost use Rattle.trace.specs.Recording.{noted, orders_of, recording};
ghost use Rattle.trace.specs.Trace.{pruned, reply_to};

use crate::recorder::Recorder;
use graph::among::is_among;
use visit::visitor::Visitor;
use walk::event::{Control, DfsEvent};

impl<'a, 'b, 'c> Recorder<'a, 'b, 'c> {
    // Whether the options prune at the event. O(blocks listed there).
    fn prunes(&self, event: DfsEvent) -> bool
        ensures { result ≡ pruned (orders_of self.now) event }
    {
        match event {
            DfsEvent::Discover(u, _) => is_among(u, self.options.prune_at),
            DfsEvent::TreeEdge(_, v) => is_among(v, self.options.prune_into),
            _ => false,
        }
    }

    // The reply to an event. O(blocks listed for it).
    fn reply(&self, event: DfsEvent) -> Control<u32>
        ensures { result ≡ reply_to (orders_of self.now) event }
    {
        match (self.options.break_after, self.until) {
            (Some(number), Some(1)) => Control::Break(number),
            _ if self.prunes(event) => Control::Prune,
            _ => Control::Continue,
        }
    }

    // Writes the event down, where there is room, and counts it. O(1).
    fn note(&mut self, event: DfsEvent)
        ensures { self.new ≡ noted self.old event }
    {
        if let Some(events) = &mut self.until {
            *events = events.saturating_sub(1);
        }
        if self.used < self.log.len() {
            self.log[self.used] = event;
            self.used += 1;
        }
    }
}

impl<'a, 'b, 'c> Visitor for Recorder<'a, 'b, 'c> {
    type Stop = u32;

    ghost meaning = { recording };

    fn visit(&mut self, event: DfsEvent) -> Control<u32> {
        let reply = self.reply(event);
        self.note(event);
        reply
    }
}
