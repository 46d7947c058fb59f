//! One line of a graph file: a sparse6 line where it begins with `:`, and else a graph6 line.
ghost use Rattle.std.specs.Prelude.{◌≡◌, ◌*◌, ◌<◌, ◌≤◌, length, None};
ghost use Rattle.md_graph.specs.NameSet.{AllBelow};
ghost use Rattle.md_graph.specs.PlainGraph.{empty_graph};
ghost use Rattle.md_graph6.specs.FileLine.{line_fault, graph_of_line, from_size};

use crate::fault::G6Kind;
use crate::line::{fill_graph6, graph6_fault};
use crate::sparse::{fill_sparse, sparse_fault};
use md_graph::{GraphOf, NAMES};

// The byte that begins a sparse6 line.
const SPARSE: u8 = b':';

// The first fault of a line under a limit of the number of vertices; an empty one has none.
pub(crate) fn line_fault(limit: u32, line: &[u8]) -> Option<G6Kind>
    requires { limit ≤ NAMES }
    ensures { result ≡ line_fault limit line.now }
{
    if line.is_empty() {
        return None;
    }
    if line[0] == SPARSE {
        return sparse_fault(limit, &line[1..]);
    }
    graph6_fault(limit, line)
}

// Fills the graph with the one that a line spells. Conditions: the line isn't empty and has no
// fault, and the graph has no vertices, and room for those of the line.
pub(crate) fn fill_line<const W: usize>(graph: &mut GraphOf<W>, line: &[u8])
    requires empty { graph.old ≡ empty_graph }
    requires some { 0 < length line.now }
    requires sound { line_fault NAMES line.now ≡ None }
    requires room { AllBelow (graph_of_line line.now).vertices (64 * W) }
    ensures { graph.new ≡ graph_of_line line.now }
{
    if line[0] == SPARSE {
        return fill_sparse(graph, &line[1..]);
    }
    fill_graph6(graph, line);
}

// A line from its size on.
pub(crate) fn from_size(line: &[u8]) -> &[u8]
    requires { 0 < length line.now }
    ensures { result.now ≡ from_size line.now }
{
    if line[0] == SPARSE {
        return &line[1..];
    }
    line
}
