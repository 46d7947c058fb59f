//! The converters: the text of each graph of a file, one put a graph, as it is read.
ghost use Rattle.std.specs.Prelude.{◌≡◌, ◌≤◌, IfOk};
ghost use Rattle.std.specs.List.{flat_map};
ghost use Rattle.md_top.specs.declared.request.Request.{Request};
ghost use Rattle.md_top.specs.Answer.{graph_text};
ghost use Rattle.md_top.specs.Sinks.{sink_run, PutsWhole};
ghost use Rattle.md_top.specs.Command.{CommandEnds};

use crate::put::put_piece;
use crate::stop::{PutStop, Stop, Verdict};
use md_graph::{GraphOf, Memory, NAMES};
use md_input::{Format, GraphBySize, Graphs, Room};
use md_io::Sink;
use std::alloc::Global;

/// Puts the text of each graph of a graph file, in their order. The file is read whole before the
/// first put.
pub fn convert<O: Sink>(
    alloc: Global,
    from: Format,
    to: Format,
    file: &[u8],
    out: &mut O,
) -> Result<Verdict, Stop>
    ensures ends { CommandEnds (Request.Convert to from file.now) result
        (sink_run O.Sink out.old out.new) }
    ensures faults_never_fall { O.faults out.old ≤ O.faults out.new }
{
    let graphs = Graphs::read(alloc, NAMES, from, file)?;
    put_texts(alloc, to, graphs, out)?;
    Ok(Verdict::Done)
}

// Puts the text of each of the graphs.
fn put_texts<O: Sink>(
    alloc: Global,
    to: Format,
    mut graphs: Graphs,
    out: &mut O,
) -> Result<(), PutStop>
    ensures puts { PutsWhole (flat_map (graph_text to) graphs.entry) result
        (sink_run O.Sink out.old out.new) }
    ensures faults_never_fall { O.faults out.old ≤ O.faults out.new }
{
    let mut room = Room::new(alloc)?;
    while graphs.next_into(alloc, &mut room)? {
        put_text(alloc, to, &room, out)?;
        room.clear();
    }
    Ok(())
}

// Puts the text of the graph in the room.
fn put_text<O: Sink>(alloc: Global, to: Format, room: &Room, out: &mut O) -> Result<(), PutStop>
    ensures puts { PutsWhole (graph_text to room.now) result (sink_run O.Sink out.old out.new) }
    ensures faults_never_fall { O.faults out.old ≤ O.faults out.new }
{
    let text = match room.graph() {
        GraphBySize::Small(graph) => text_of(alloc, to, graph)?,
        GraphBySize::Medium(graph) => text_of(alloc, to, graph)?,
        GraphBySize::Broad(graph) => text_of(alloc, to, graph)?,
        GraphBySize::Large(graph) => text_of(alloc, to, graph)?,
    };
    put_piece(out, &text)
}

// The text of a graph in a format.
fn text_of<const W: usize>(
    alloc: Global,
    format: Format,
    graph: &GraphOf<W>,
) -> Result<Vec<u8>, Memory>
    ensures { IfOk result (λ text. text.items ≡ graph_text format graph.now) }
{
    match format {
        Format::G6 => md_graph6::write(alloc, graph),
        Format::Dimacs => md_dimacs::write(alloc, graph),
    }
}
