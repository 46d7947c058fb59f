//! Reports of the trees of directed graphs: line by line, each with its line feed in one put. The
//! file is read whole before the first put.
ghost use Rattle.std.specs.Prelude.{◌≡◌, ◌≤◌, List, [], ◌∷◌, IfOk};
ghost use Rattle.md_digraph.specs.PlainDigraph.{PlainDigraph, has_arc_to};
ghost use Rattle.md_tree.specs.Plain.{plain_option};
ghost use Rattle.md_dtree.specs.DirectedTrees.{IsDirectedTree};
ghost use Rattle.md_dcheck.specs.DirectedReports.{DirectedLine, directed_tree, fed_directed_line, DirectedPlace, before_directed, at_digraphs, after_directed, MayComeDirected, next_directed};
ghost use Rattle.md_top.specs.declared.request.Subject.{Subject};
ghost use Rattle.md_top.specs.declared.request.Request.{Request};
ghost use Rattle.md_top.specs.Command.{CommandEnds};
ghost use Rattle.md_top.specs.Sinks.{sink_run, PutsDirected};

use crate::put::put_piece;
use crate::stop::{PutStop, Stop, Verdict};
use md_ddecompose::decompose_directed;
use md_digraph6::{DigraphBySize, DirectedLines, DirectedRoom, scan_directed};
use md_dtree::DTree;
use md_graph::Memory;
use md_input::Fault;
use md_io::Sink;
use md_tree::push_text_of;
use std::alloc::Global;

// Room for so many bytes is taken at once: the line of the tree of a small directed graph fits, and
// its line feed.
const SHORT: usize = 256;

/// Puts the report of the trees of the directed graphs of a digraph6 file.
// Never inlined, so that the stack holds the frame of one kind of reports alone.
#[inline(never)]
pub fn directed_report<O: Sink>(alloc: Global, file: &[u8], out: &mut O) -> Result<Verdict, Stop>
    ensures ends { CommandEnds (Request.Report (Subject.Digraphs file.now)) result
        (sink_run O.Sink out.old out.new) }
    ensures faults_never_fall { O.faults out.old ≤ O.faults out.new }
{
    if let Err(fault) = scan_directed(file) {
        return Err(Stop::BadInput(Fault::Graph6(fault)));
    }
    put_directed(alloc, DirectedLines::new(file), out)?;
    Ok(Verdict::Done)
}

// Puts the head, the line of each of the directed graphs, and the last line.
fn put_directed<O: Sink>(alloc: Global, digraphs: DirectedLines, out: &mut O) -> Result<(), PutStop>
    ensures puts { PutsDirected (before_directed digraphs.entry) after_directed result
        (sink_run O.Sink out.old out.new) }
    ensures faults_never_fall { O.faults out.old ≤ O.faults out.new }
{
    put_line(out, b"mdt dtree\n")?;
    put_trees(alloc, digraphs, out)?;
    put_line(out, b"end\n")
}

// Puts the line of the tree of each of the directed graphs.
fn put_trees<O: Sink>(
    alloc: Global,
    mut digraphs: DirectedLines,
    out: &mut O,
) -> Result<(), PutStop>
    ensures puts { PutsDirected (at_digraphs digraphs.entry) (at_digraphs []) result
        (sink_run O.Sink out.old out.new) }
    ensures faults_never_fall { O.faults out.old ≤ O.faults out.new }
{
    let mut room = DirectedRoom::new(alloc)?;
    while room.fill(alloc, &mut digraphs)? {
        put_tree(alloc, &room, out)?;
        room.clear();
    }
    Ok(())
}

// Puts the line of the tree of the directed graph in the room.
fn put_tree<O: Sink>(alloc: Global, room: &DirectedRoom, out: &mut O) -> Result<(), PutStop>
    ensures puts { (digraphs : List PlainDigraph)
        → PutsDirected (at_digraphs (room.now ∷ digraphs)) (at_digraphs digraphs) result
        (sink_run O.Sink out.old out.new) }
    ensures faults_never_fall { O.faults out.old ≤ O.faults out.new }
{
    let tree = tree_of(alloc, room)?;
    put_tree_line(alloc, &tree, out)
}

// The tree of the directed graph in the room.
fn tree_of(alloc: Global, room: &DirectedRoom) -> Result<Option<DTree>, Memory>
    ensures { IfOk result (λ tree.
        IsDirectedTree (has_arc_to room.now) room.now.vertices (plain_option tree)) }
{
    match room.digraph() {
        DigraphBySize::Small(graph) => decompose_directed(alloc, graph),
        DigraphBySize::Medium(graph) => decompose_directed(alloc, graph),
        DigraphBySize::Large(graph) => decompose_directed(alloc, graph),
    }
}

// Puts the line of a tree, with its line feed.
fn put_tree_line<O: Sink>(alloc: Global, tree: &Option<DTree>, out: &mut O) -> Result<(), PutStop>
    ensures puts { (p : DirectedPlace) → MayComeDirected p (directed_tree (plain_option tree.now))
        → PutsDirected p (next_directed p (directed_tree (plain_option tree.now))) result
        (sink_run O.Sink out.old out.new) }
    ensures faults_never_fall { O.faults out.old ≤ O.faults out.new }
{
    let text = fed_tree(alloc, tree)?;
    put_line(out, &text)
}

// The text of the line of a tree, with its line feed.
fn fed_tree(alloc: Global, tree: &Option<DTree>) -> Result<Vec<u8>, Memory>
    ensures { IfOk result (λ text.
        text.items ≡ fed_directed_line (directed_tree (plain_option tree.now))) }
{
    let mut text = Vec::with_capacity(alloc, SHORT)?;
    text.extend_from_slice(b"t ")?;
    push_text_of(alloc, &mut text, tree)?;
    text.push(b'\n')?;
    Ok(text)
}

// Puts the text of a line, which has its line feed.
fn put_line<O: Sink>(out: &mut O, text: &[u8]) -> Result<(), PutStop>
    ensures puts { (p : DirectedPlace) (line : DirectedLine) → MayComeDirected p line
        → text.now ≡ fed_directed_line line → PutsDirected p (next_directed p line) result
        (sink_run O.Sink out.old out.new) }
    ensures faults_never_fall { O.faults out.old ≤ O.faults out.new }
{
    put_piece(out, text)
}
