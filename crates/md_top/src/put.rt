//! Puts a piece of the output.
ghost use Rattle.std.specs.Prelude.{◌≡◌, ◌≤◌, ◌*◌, Option, IfOk};
ghost use Rattle.md_graph.specs.PlainGraph.{adjacent};
ghost use Rattle.md_outline.specs.Outlines.{outline_option};
ghost use Rattle.md_tree.specs.StrongTrees.{IsTree};
ghost use Rattle.md_tree.specs.Trees.{PlainTree};
ghost use Rattle.md_report.specs.Lines as lines;
ghost use Rattle.md_report.specs.Lines.{PlainLine, plain_line, fed_line, line_text};
ghost use Rattle.md_report.specs.Places.{Place, MayCome, next_place};
ghost use Rattle.md_top.specs.ItemTexts.{IsItemText};
ghost use Rattle.md_top.specs.Sinks.{sink_run, PutsWhole, PutsLines};

use crate::stop::PutStop;
use md_graph::{GraphOf, Memory};
use md_io::Sink;
use md_outline::{OutlinePart, RowSpace, push_text_by_rows};
use md_report::{Line, push_tree_by_rows, write_line};
use md_tree::Kind;
use std::alloc::Global;

/// Puts a piece to the output.
pub fn put_piece<O: Sink>(out: &mut O, piece: &[u8]) -> Result<(), PutStop>
    ensures puts { PutsWhole piece.now result (sink_run O.Sink out.old out.new) }
    ensures faults_never_fall { O.faults out.old ≤ O.faults out.new }
{
    out.put(piece)?;
    Ok(())
}

/// Puts a line of a report, with its line feed.
pub fn put_report_line<O: Sink>(alloc: Global, line: Line, out: &mut O) -> Result<(), PutStop>
    ensures puts { (p : Place) → MayCome p (plain_line line)
        → PutsLines p (next_place p (plain_line line)) result (sink_run O.Sink out.old out.new) }
    ensures faults_never_fall { O.faults out.old ≤ O.faults out.new }
{
    let text = fed_text(alloc, &line)?;
    put_piece(out, &text)
}

/// Puts the text of a line of a report, with its line feed.
pub fn put_text<O: Sink>(text: &[u8], out: &mut O) -> Result<(), PutStop>
    ensures puts { (p : Place) (line : PlainLine) → text.now ≡ fed_line line → MayCome p line
        → PutsLines p (next_place p line) result (sink_run O.Sink out.old out.new) }
    ensures faults_never_fall { O.faults out.old ≤ O.faults out.new }
{
    put_piece(out, text)
}

/// Puts the text of the line of an item, with its line feed; without a text the line `ok` alone.
pub fn put_item_text<O: Sink>(text: &Option<Vec<u8>>, out: &mut O) -> Result<(), PutStop>
    ensures puts { (p : Place) (line : PlainLine) → IsItemText text.now line → MayCome p line
        → PutsLines p (next_place p line) result (sink_run O.Sink out.old out.new) }
    ensures faults_never_fall { O.faults out.old ≤ O.faults out.new }
{
    match text {
        Some(whole) => put_text(whole, out),
        None => put_piece(out, b"ok\n"),
    }
}

/// The text of a line of a report, with its line feed.
pub fn fed_text(alloc: Global, line: &Line) -> Result<Vec<u8>, Memory>
    ensures { IfOk result (λ text. text.items ≡ fed_line (plain_line line.now)) }
{
    let mut text = write_line(alloc, line)?;
    text.push(b'\n')?;
    Ok(text)
}

/// The text of a line with its line feed.
pub fn with_feed(text: Vec<u8>) -> Result<Vec<u8>, Memory>
    ensures { (line : PlainLine) → text.items ≡ line_text line →
        IfOk result (λ whole. whole.items ≡ fed_line line) }
{
    let mut whole = text;
    whole.push(b'\n')?;
    Ok(whole)
}

/// The text of the line of the tree of a graph, from the outline of that tree, with its line feed.
/// Condition: it is such an outline.
pub fn tree_text_by_rows<const W: usize>(
    alloc: Global,
    parts: &[OutlinePart<Kind>],
    graph: &GraphOf<W>,
    space: &mut RowSpace,
) -> Result<Vec<u8>, Memory>
    requires { (t : Option PlainTree) × IsTree (adjacent graph.now) graph.now.vertices t
        × (parts.now ≡ outline_option t) }
    ensures { (t : Option PlainTree) → IsTree (adjacent graph.now) graph.now.vertices t
        → parts.now ≡ outline_option t
        → IfOk result (λ text. text.items ≡ fed_line (lines.tree t)) }
{
    let mut text = Vec::new(alloc);
    push_tree_by_rows(&mut text, parts, graph, space)?;
    with_feed(text)
}

/// The text of the line that an item was applied and left the tree of a graph, from the outline of
/// that tree, with its line feed. Condition: it is such an outline.
pub fn applied_text_by_rows<const W: usize>(
    alloc: Global,
    parts: &[OutlinePart<Kind>],
    graph: &GraphOf<W>,
    space: &mut RowSpace,
) -> Result<Vec<u8>, Memory>
    requires { (t : Option PlainTree) × IsTree (adjacent graph.now) graph.now.vertices t
        × (parts.now ≡ outline_option t) }
    ensures { (t : Option PlainTree) → IsTree (adjacent graph.now) graph.now.vertices t
        → parts.now ≡ outline_option t
        → IfOk result (λ text. text.items ≡ fed_line (lines.applied t)) }
{
    let mut text = Vec::new(alloc);
    text.extend_from_slice(b"ok ")?;
    push_text_by_rows(&mut text, parts, graph, space)?;
    with_feed(text)
}
