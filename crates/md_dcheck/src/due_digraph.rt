//! Whether a line tells the tree of the directed graph that is due.
ghost use Rattle.std.specs.Prelude.{◌≡◌, ◌↔◌, IfOk, IsTrue};
ghost use Rattle.md_dcheck.specs.DirectedReports.{DirectedLine, HasDirectedTree, directed_line_text};

use crate::digraph_text::is_tree_text;
use md_digraph::DigraphOf;
use md_digraph6::{DigraphBySize, DirectedRoom};
use md_graph::Memory;
use std::alloc::Global;

// Whether the text is that of the line with the tree of the directed graph in the room. Errors:
// want of memory.
pub(crate) fn is_reported(alloc: Global, room: &DirectedRoom, text: &[u8]) -> Result<bool, Memory>
    ensures { IfOk result (λ fit. IsTrue fit ↔ ((line : DirectedLine)
        × HasDirectedTree room.now line × (text.now ≡ directed_line_text line))) }
{
    match room.digraph() {
        DigraphBySize::Small(graph) => is_tree_line(alloc, graph, text),
        DigraphBySize::Medium(graph) => is_tree_line(alloc, graph, text),
        DigraphBySize::Large(graph) => is_tree_line(alloc, graph, text),
    }
}

// Whether the text is that of the line with the tree of the directed graph. Errors: want of memory.
fn is_tree_line<const W: usize>(
    alloc: Global,
    graph: &DigraphOf<W>,
    text: &[u8],
) -> Result<bool, Memory>
    ensures { IfOk result (λ fit. IsTrue fit ↔ ((line : DirectedLine)
        × HasDirectedTree graph.now line × (text.now ≡ directed_line_text line))) }
{
    match text.strip_prefix(b"t ") {
        Some(rest) => is_tree_text(alloc, graph, rest),
        None => Ok(false),
    }
}
