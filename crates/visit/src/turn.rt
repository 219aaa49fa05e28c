// The turns of a walk: a neighbour is read, a block is closed, a block is opened. They are for the walk alone, which meets what they require.
ghost use Rattle.std.specs.Prelude.{◌≡◌, ◌+◌, ◌<◌, length, Some, None, slice_index, slice_set};
ghost use Rattle.std.specs.ControlFlow.{break_value};
ghost use Rattle.walk.specs.declared.mark.Mark.TheVariants.{New};
ghost use Rattle.walk.specs.Marks.{mark_of};
ghost use Rattle.visit.specs.OpenFrames.{stacked};
ghost use Rattle.visit.specs.Turn.{CloseTurn, IfEnter, OpenTurn, ReadTurn};

use crate::frame::Frame;
use crate::guard::MarkGuard;
use crate::stack::Stack;
use crate::visitor::Visitor;
use graph::graph::Graph;
use std::ops::ControlFlow;
use walk::event::DfsEvent;
use walk::mark::Mark;

// Reads the neighbour `v` of the open block `u`: whether it is new, and to be opened.
pub fn read<V: Visitor>(
    visitor: &mut V,
    guard: &MarkGuard,
    u: u32,
    v: u32,
) -> ControlFlow<V::Stop, bool>
    requires { v < length guard.now.marks.now }
    ensures new { IfEnter result (mark_of (slice_index guard.now.marks.now v) ≡ New) }
    ensures reads { ReadTurn V.Visitor.meaning guard.now.marks.now u v visitor.old visitor.new result }
{
    let event = match guard.get(v) {
        Mark::New => return visitor.visit(DfsEvent::TreeEdge(u, v)).flow(),
        Mark::Open => DfsEvent::BackEdge(u, v),
        Mark::Done => DfsEvent::CrossForwardEdge(u, v),
    };
    visitor.visit(event).flow()?;
    ControlFlow::Continue(false)
}

// Closes the block `u`, whose list is at its end.
pub fn close<V: Visitor>(
    visitor: &mut V,
    guard: &mut MarkGuard,
    time: u32,
    u: u32,
) -> ControlFlow<V::Stop>
    requires { u < length guard.old.marks.now }
    ensures marks { guard.new.marks.now ≡ slice_set guard.old.marks.now u 2 }
    ensures same { guard.new.marks.ghost_name ≡ guard.old.marks.ghost_name }
    ensures closes { CloseTurn V.Visitor.meaning guard.old.marks.now guard.new.marks.now time u visitor.old visitor.new (break_value result) }
{
    guard.set(u, Mark::Done);
    visitor.visit(DfsEvent::Finish(u, time)).flow()?;
    ControlFlow::Continue(())
}

// Opens the new block `u` over the blocks that are open. One whose reading is pruned gets the empty list, that of a number that is no block.
pub fn open<G: Graph, V: Visitor>(
    graph: &G,
    visitor: &mut V,
    guard: &mut MarkGuard,
    stack: &mut Stack<Frame<G::Place>>,
    time: u32,
    u: u32,
) -> ControlFlow<V::Stop>
    requires block { u < length guard.old.marks.now }
    requires room { stack.old.used < length stack.old.slots.now }
    ensures marks { guard.new.marks.now ≡ slice_set guard.old.marks.now u 1 }
    ensures same { guard.new.marks.ghost_name ≡ guard.old.marks.ghost_name }
    ensures slots { length stack.new.slots.now ≡ length stack.old.slots.now }
    ensures used { elim (break_value result) [ None ↦ stack.new.used ≡ stack.old.used + 1 | Some x ↦ stack.new.used ≡ stack.old.used ] }
    ensures opens { OpenTurn V.Visitor.meaning (G.Graph.meaning graph.now)
        guard.old.marks.now guard.new.marks.now time u visitor.old visitor.new
        (stacked (G.Graph.rest graph.now) stack.old)
        (stacked (G.Graph.rest graph.now) stack.new) (break_value result) }
{
    guard.set(u, Mark::Open);
    let list = if visitor.visit(DfsEvent::Discover(u, time)).flow()? {
        u
    } else {
        graph.node_count() as u32
    };
    stack.push(Frame {
        block: u,
        place: graph.head(list),
    });
    ControlFlow::Continue(())
}
