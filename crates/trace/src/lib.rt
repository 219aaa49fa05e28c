// Walks recorded event by event.
#![tactic(auto)]

ghost use Rattle.std.specs.Prelude.{◌≡◌, length};
ghost use Rattle.kinds.specs.Replies.{after, told};
ghost use Rattle.search.specs.Frames.{FramesAfter};
ghost use Rattle.search.specs.Refused.{walk_refusal};
ghost use Rattle.trace.specs.Recording.{ordered};
ghost use Rattle.trace.specs.Trace.{events, overwritten, traced};
ghost use Rattle.trace.specs.TraceEnds.{trace_end};

use crate::options::{TraceEnd, TraceOptions};
use crate::recorder::Recorder;
use graph::graph::Graph;
use kinds::refusal::Refusal;
use search::set_depth_first_search;
use visit::frame::Frame;
use walk::event::DfsEvent;

pub mod options;
pub mod recorder;

// Walks the graph depth first from each start, and writes each event to the log, from its beginning on and as far as it is long enough.
// Works on lent marks and frames as any walk does. O(starts + blocks + listed neighbours) events, each O(blocks listed in the options).
pub fn trace<G: Graph>(
    graph: &G,
    starts: &[u32],
    options: TraceOptions,
    log: &mut [DfsEvent],
    marks: &mut [u8],
    frames: &mut [Frame<G::Place>],
) -> Result<TraceEnd, Refusal>
    ensures marks { marks.new ≡ marks.old }
    ensures frames { FramesAfter (walk_refusal (G.Graph.meaning graph.now) starts.now marks.old frames.old)
        frames.old frames.new }
    ensures log { log.new ≡ after (walk_refusal (G.Graph.meaning graph.now) starts.now marks.old frames.old)
        log.old (overwritten (events (traced (G.Graph.meaning graph.now) (ordered options.entry) starts.now).log) log.old) }
    ensures answer { result ≡ told (walk_refusal (G.Graph.meaning graph.now) starts.now marks.old frames.old)
        (trace_end (traced (G.Graph.meaning graph.now) (ordered options.entry) starts.now) (length log.old)) }
{
    let mut recorder = Recorder {
        options,
        until: options.break_after,
        log,
        used: 0,
    };
    let stop = set_depth_first_search(graph, starts, &mut recorder, marks, frames)?;
    Ok(TraceEnd {
        events: recorder.used,
        stop,
    })
}
