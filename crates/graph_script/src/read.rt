// The question that a line asks.
ghost use Rattle.std.specs.Prelude.{◌≡◌, IfOk};
ghost use Rattle.std.specs.Option.{option_map};
ghost use Rattle.line.specs.Cursor.{left};
ghost use Rattle.line.specs.Rows.{chosen};
ghost use Rattle.line.specs.Words.{words};
ghost use Rattle.graph_script.specs.Asked.{asked_of, evaluator_of};
ghost use Rattle.graph_script.specs.Lines.{reads, evaluator, loop_query, named_query, query_of};

use crate::query::{Evaluator, GraphQuery};
use kinds::block::InstructionKind;
use line::arguments::{alone, one};
use line::list::only_list;
use line::number::number;
use line::words::{Command, Words};
use std::alloc::{AllocError, Global};

// The question that a line asks of the built graph, or none where it asks none. O(n) in the line's length.
pub fn read_graph_query(heap: Global, line: &str) -> Result<Option<GraphQuery>, AllocError>
    ensures { IfOk result (λ q. option_map asked_of q ≡ query_of (words line.now)) }
{
    read_named(heap, Command::new(line))
}

// The question of that name, with what the words left stand for.
fn read_named(heap: Global, command: Command) -> Result<Option<GraphQuery>, AllocError>
    ensures { IfOk result (λ q. option_map asked_of q ≡ named_query command.entry.name.now (left command.entry.words)) }
{
    match command.name {
        "is_infinite_loop_start" => read_loop_query(heap, command.words),
        _ => Ok(read_plain(command)),
    }
}

// A question that takes no list.
fn read_plain(command: Command) -> Option<GraphQuery>
    ensures { option_map asked_of result ≡ chosen command.entry.name.now (reads (left command.entry.words)) }
{
    let words = command.words;
    match command.name {
        "blocks" => alone(GraphQuery::Blocks, words),
        "edges" => alone(GraphQuery::Edges, words),
        "block" => Some(GraphQuery::Block(one::<u32>(words)?)),
        "outgoing" => Some(GraphQuery::Outgoing(one::<u32>(words)?)),
        "incoming" => Some(GraphQuery::Incoming(one::<u32>(words)?)),
        "tally" => alone(GraphQuery::Tally, words),
        _ => None,
    }
}

// The loop query, by its block and its evaluator.
fn read_loop_query(heap: Global, mut words: Words) -> Result<Option<GraphQuery>, AllocError>
    ensures { IfOk result (λ q. option_map asked_of q ≡ loop_query (left words.entry)) }
{
    let Some(block) = words.next().and_then(number) else {
        return Ok(None);
    };
    let evaluator = read_evaluator(heap, words)?;
    Ok(evaluator.map(|found| GraphQuery::IsInfiniteLoopStart(block, found)))
}

// The evaluator, by a word that says of which sort it is.
fn read_evaluator(heap: Global, mut words: Words) -> Result<Option<Evaluator>, AllocError>
    ensures { IfOk result (λ e. option_map evaluator_of e ≡ evaluator (left words.entry)) }
{
    match words.next() {
        Some("kind") => Ok(one::<InstructionKind>(words).map(Evaluator::Kind)),
        Some("nodes") => Ok(only_list(heap, words)?.map(Evaluator::Nodes)),
        _ => Ok(None),
    }
}
