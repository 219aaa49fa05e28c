// The loops of the walk: over the starts, over the open blocks, and over the neighbours of the top. They are for the walk alone, which meets what they require.
ghost use Rattle.std.specs.Prelude.{◌≡◌, ◌<◌, ◌≤◌, false, length, slice_index};
ghost use Rattle.std.specs.ControlFlow.{break_value};
ghost use Rattle.walk.specs.declared.mark.Mark.TheVariants.{New};
ghost use Rattle.walk.specs.Marks.{mark_of};
ghost use Rattle.walk.specs.Walk.{State, begin, walk};
ghost use Rattle.search.specs.Explored.{AtRest, Explored, ExploredFrom, Unread, Walked};
ghost use Rattle.search.specs.Kept.{Kept};
ghost use Rattle.search.specs.Refused.{no_block};

use graph::graph::Graph;
use std::ops::ControlFlow;
use visit::frame::Frame;
use visit::guard::MarkGuard;
use visit::stack::Stack;
use visit::turn::{close, open, read};
use visit::visitor::Visitor;
use walk::mark::Mark;

// A walk under way: the graph, the visitor, the marks of the blocks, the frames of those that are open, and the next number.
#[derive(Drop)]
pub struct Search<'g, 'v, 'a, 'm, 'b, 'f, G: Graph, V> {
    pub graph: &'g G,
    pub visitor: &'v mut V,
    pub guard: &'a mut MarkGuard<'m>,
    pub stack: &'b mut Stack<'f, Frame<G::Place>>,
    pub time: u32,
}

impl<G: Graph, V: Visitor> Search<'_, '_, '_, '_, '_, '_, G, V> {
    // Opens each start that is new, in order, and all that it leads to, until the visitor ends the walk.
    pub fn run(&mut self, starts: &[u32]) -> ControlFlow<V::Stop>
        requires blocks { no_block (G.Graph.meaning self.old.graph.now).size starts.now ≡ false }
        requires rests { AtRest (G.Graph.meaning self.old.graph.now) self.old (begin V.Visitor.meaning self.old.visitor.now) }
        ensures kept { Kept self.old self.new }
        ensures walked { Walked V.Visitor.meaning (G.Graph.meaning self.old.graph.now) starts.now self.old self.new (break_value result) }
    {
        for start in starts {
            if self.guard.get(*start) == Mark::New {
                self.open_start(*start)?;
            }
        }
        ControlFlow::Continue(())
    }

    // Opens the new block `start` with no block open, and goes on until it is closed or the visitor ends the walk.
    fn open_start(&mut self, start: u32) -> ControlFlow<V::Stop>
        requires block { start < (G.Graph.meaning self.old.graph.now).size }
        requires new { mark_of (slice_index self.old.guard.now.marks.now start) ≡ New }
        requires rests { (s : State V V.Stop) × AtRest (G.Graph.meaning self.old.graph.now) self.old s }
        ensures kept { Kept self.old self.new }
        ensures explores { ExploredFrom V.Visitor.meaning (G.Graph.meaning self.old.graph.now) self.old self.new start (break_value result) }
    {
        open(
            self.graph,
            self.visitor,
            self.guard,
            self.stack,
            self.time,
            start,
        )?;
        self.time += 1;
        self.explore()
    }

    // Reads and closes the open blocks, and those that they lead to, until none is open or the visitor ends the walk.
    fn explore(&mut self) -> ControlFlow<V::Stop>
        requires room { (G.Graph.meaning self.old.graph.now).size ≤ length self.old.stack.now.slots.now }
        requires unread { (end : State V V.Stop) × Unread V.Visitor.meaning (G.Graph.meaning self.old.graph.now) (G.Graph.rest self.old.graph.now) self.old end }
        ensures kept { Kept self.old self.new }
        ensures explores { Explored V.Visitor.meaning (G.Graph.meaning self.old.graph.now) (G.Graph.rest self.old.graph.now) self.old self.new (break_value result) }
    {
        let graph = self.graph;
        'frames: while let Some(frame) = self.stack.pop() {
            let u = frame.block;
            let mut place = frame.place;
            'neighbors: while let Some(step) = graph.next(place) {
                place = step.next;
                if read(self.visitor, self.guard, u, step.block)? {
                    self.stack.push(Frame { block: u, place });
                    open(
                        graph,
                        self.visitor,
                        self.guard,
                        self.stack,
                        self.time,
                        step.block,
                    )?;
                    self.time += 1;
                    continue 'frames;
                }
            }
            close(self.visitor, self.guard, self.time, u)?;
            self.time += 1;
        }
        ControlFlow::Continue(())
    }
}
