//! Reports over graphs: line by line, each with its line feed in one put. The graph file is read
//! whole before the first put.
ghost use Rattle.std.specs.Prelude.{◌≡◌, ◌≤◌, List, [], ◌∷◌, IfOk};
ghost use Rattle.md_graph.specs.PlainGraph.{PlainGraph, adjacent};
ghost use Rattle.md_report.specs.declared.line.GraphMode.{GraphMode};
ghost use Rattle.md_report.specs.Lines as lines;
ghost use Rattle.md_report.specs.Lines.{PlainLine, plain_line, fed_line};
ghost use Rattle.md_report.specs.Orientations.{IsShortestLine};
ghost use Rattle.md_report.specs.Models.{IsModelLine};
ghost use Rattle.md_report.specs.Places.{before_head, at_graphs, after_end, Reports};
ghost use Rattle.md_report.specs.Sessions.{HasTreeLine};
ghost use Rattle.md_top.specs.declared.request.Subject.{Subject};
ghost use Rattle.md_top.specs.declared.request.Request.{Request};
ghost use Rattle.md_top.specs.Command.{CommandEnds};
ghost use Rattle.md_top.specs.Sinks.{sink_run, PutsLines};

use crate::put::{fed_text, put_report_line, put_text};
use crate::stop::{PutStop, Stop, Verdict};
use md_decompose::fill_outline;
use md_graph::{GraphOf, Memory};
use md_input::{Format, GraphBySize, Graphs, Room};
use md_io::Sink;
use md_orient::{PermVerdict, Verdict as Orientation, model, orient};
use md_outline::{OutlinePart, RowSpace};
use md_report::{GraphMode, Line, push_tree_by_rows};
use md_tree::Kind;
use std::alloc::Global;

// The text of the line at hand, with its line feed, and what a tree is written from. The memory
// stays over the graphs of a file.
#[derive(Drop)]
struct LineSpace {
    text: Vec<u8>,
    parts: Vec<OutlinePart<Kind>>,
    rows: RowSpace,
}

impl LineSpace {
    fn new(alloc: Global) -> LineSpace {
        LineSpace {
            text: Vec::new(alloc),
            parts: Vec::new(alloc),
            rows: RowSpace::new(alloc),
        }
    }
}

/// Puts the report of a mode over the graphs of a file, which is read under the limit of names of
/// the mode.
// Never inlined, so that the stack holds the frame of one kind of reports alone.
#[inline(never)]
pub fn report<O: Sink>(
    alloc: Global,
    mode: GraphMode,
    from: Format,
    file: &[u8],
    out: &mut O,
) -> Result<Verdict, Stop>
    ensures ends { CommandEnds (Request.Report (Subject.Graphs mode from file.now)) result
        (sink_run O.Sink out.old out.new) }
    ensures faults_never_fall { O.faults out.old ≤ O.faults out.new }
{
    let graphs = Graphs::read(alloc, mode.limit(), from, file)?;
    put_report(alloc, mode, graphs, out)?;
    Ok(Verdict::Done)
}

// Puts the head, the line of each of the graphs, and the last line.
fn put_report<O: Sink>(
    alloc: Global,
    mode: GraphMode,
    graphs: Graphs,
    out: &mut O,
) -> Result<(), PutStop>
    ensures puts { PutsLines (before_head mode graphs.entry) after_end result
        (sink_run O.Sink out.old out.new) }
    ensures faults_never_fall { O.faults out.old ≤ O.faults out.new }
{
    put_report_line(alloc, Line::Head(mode.mode()), out)?;
    put_graph_lines(alloc, mode, graphs, out)?;
    put_report_line(alloc, Line::End, out)
}

// Puts the line of each of the graphs.
fn put_graph_lines<O: Sink>(
    alloc: Global,
    mode: GraphMode,
    mut graphs: Graphs,
    out: &mut O,
) -> Result<(), PutStop>
    ensures puts { PutsLines (at_graphs mode graphs.entry) (at_graphs mode []) result
        (sink_run O.Sink out.old out.new) }
    ensures faults_never_fall { O.faults out.old ≤ O.faults out.new }
{
    let mut room = Room::new(alloc)?;
    let mut space = LineSpace::new(alloc);
    while graphs.next_into(alloc, &mut room)? {
        put_line(alloc, mode, &room, &mut space, out)?;
        room.clear();
    }
    Ok(())
}

// Puts the line that reports the graph in the room.
fn put_line<O: Sink>(
    alloc: Global,
    mode: GraphMode,
    room: &Room,
    space: &mut LineSpace,
    out: &mut O,
) -> Result<(), PutStop>
    ensures puts { (graphs : List PlainGraph)
        → PutsLines (at_graphs mode (room.now ∷ graphs)) (at_graphs mode graphs) result
        (sink_run O.Sink out.old out.new) }
    ensures faults_never_fall { O.faults out.old ≤ O.faults out.new }
{
    spell_room(alloc, mode, room, space)?;
    put_text(&space.text, out)
}

// Spells the line that reports the graph in the room, with its line feed.
fn spell_room(
    alloc: Global,
    mode: GraphMode,
    room: &Room,
    space: &mut LineSpace,
) -> Result<(), Memory>
    ensures { IfOk result (λ _. (line : PlainLine) × Reports mode room.now line
        × (space.new.text.items ≡ fed_line line)) }
{
    match room.graph() {
        GraphBySize::Small(graph) => spell(alloc, mode, graph, space),
        GraphBySize::Medium(graph) => spell(alloc, mode, graph, space),
        GraphBySize::Broad(graph) => spell(alloc, mode, graph, space),
        GraphBySize::Large(graph) => spell(alloc, mode, graph, space),
    }
}

// Spells the line that reports a graph, with its line feed. Never inlined, so that the stack holds
// the frame of one width alone.
#[inline(never)]
fn spell<const W: usize>(
    alloc: Global,
    mode: GraphMode,
    graph: &GraphOf<W>,
    space: &mut LineSpace,
) -> Result<(), Memory>
    ensures { IfOk result (λ _. (line : PlainLine) × Reports mode graph.now line
        × (space.new.text.items ≡ fed_line line)) }
{
    match mode {
        GraphMode::Tree => spell_tree(alloc, graph, space),
        GraphMode::Compare => spell_orientation(alloc, graph, space),
        GraphMode::Shortest => spell_orientation(alloc, graph, space),
        GraphMode::Permute => spell_model(alloc, graph, space),
    }
}

// Spells the line of the tree of a graph, with its line feed.
fn spell_tree<const W: usize>(
    alloc: Global,
    graph: &GraphOf<W>,
    space: &mut LineSpace,
) -> Result<(), Memory>
    ensures { IfOk result (λ _. (line : PlainLine) × HasTreeLine lines.tree graph.now line
        × (space.new.text.items ≡ fed_line line)) }
{
    fill_outline(alloc, graph, &mut space.parts)?;
    space.text.clear();
    push_tree_by_rows(&mut space.text, &space.parts, graph, &mut space.rows)?;
    space.text.push(b'\n')?;
    Ok(())
}

// Spells the line of the least-edge orientation of a graph, or of a shortest forcing chain of it,
// with its line feed.
fn spell_orientation<const W: usize>(
    alloc: Global,
    graph: &GraphOf<W>,
    space: &mut LineSpace,
) -> Result<(), Memory>
    ensures { IfOk result (λ _. (line : PlainLine) × IsShortestLine (adjacent graph.now) line
        × (space.new.text.items ≡ fed_line line)) }
{
    let line = orientation_line(alloc, graph)?;
    space.text = fed_text(alloc, &line)?;
    Ok(())
}

// Spells the line of two orders that realise a graph, or of a forcing chain of it or of its
// complement, with its line feed.
fn spell_model<const W: usize>(
    alloc: Global,
    graph: &GraphOf<W>,
    space: &mut LineSpace,
) -> Result<(), Memory>
    ensures { IfOk result (λ _. (line : PlainLine) × IsModelLine graph.now line
        × (space.new.text.items ≡ fed_line line)) }
{
    let line = model_line(alloc, graph)?;
    space.text = fed_text(alloc, &line)?;
    Ok(())
}

// The line of the least-edge orientation of a graph, or of a shortest forcing chain of it.
fn orientation_line<const W: usize>(alloc: Global, graph: &GraphOf<W>) -> Result<Line, Memory>
    ensures { IfOk result (λ line. IsShortestLine (adjacent graph.now) (plain_line line)) }
{
    match orient(alloc, graph)? {
        Orientation::Transitive(arcs) => Ok(Line::Oriented(arcs)),
        Orientation::Forced(chain) => Ok(Line::Forced(chain)),
    }
}

// The line of two orders that realise a graph, or of a forcing chain of it or of its complement.
fn model_line<const W: usize>(alloc: Global, graph: &GraphOf<W>) -> Result<Line, Memory>
    ensures { IfOk result (λ line. IsModelLine graph.now (plain_line line)) }
{
    match model(alloc, graph)? {
        PermVerdict::Orders(first, second) => Ok(Line::Orders(first, second)),
        PermVerdict::ForcedIn(chain) => Ok(Line::ForcedIn(chain)),
        PermVerdict::ForcedInComplement(chain) => Ok(Line::ForcedInComplement(chain)),
    }
}
