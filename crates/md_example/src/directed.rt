//! The trees of strong modules of the directed graphs of a file.
ghost use Rattle.std.specs.Prelude.{◌≡◌, ◌++◌, ◌∷◌, [], length, None, Option, IfOk};
ghost use Rattle.md_digraph.specs.PlainDigraph.{has_arc_to};
ghost use Rattle.md_digraph6.specs.ArcFile.{first_arc_fault, digraphs_of};
ghost use Rattle.md_dtree.specs.DirectedTexts.{directed_text_of};
ghost use Rattle.md_dtree.specs.DirectedTrees.{PlainDTree, IsDirectedTree};
ghost use Rattle.md_example.specs.TreeLines.{AreTreeLines};

use md_ddecompose::decompose_directed;
use md_digraph::Digraph;
use md_digraph6::DirectedLines;
use md_dtree::text_directed;
use md_graph::Memory;
use std::alloc::Global;

// The texts of the trees of the directed graphs of a file, a line for each. Condition: the file has
// no fault and that many directed graphs. Errors: want of memory.
pub(crate) fn tree_lines(alloc: Global, bytes: &[u8], count: u64) -> Result<Vec<u8>, Memory>
    requires faultless { first_arc_fault bytes.now ≡ None }
    requires count { count ≡ length (digraphs_of bytes.now) }
    ensures { IfOk result (λ text. AreTreeLines (digraphs_of bytes.now) text.items) }
{
    let mut text = Vec::new(alloc);
    let mut lines = DirectedLines::new(bytes);
    for _ in 0..count {
        let mut graph = Digraph::new(alloc)?;
        lines.next(&mut graph);
        push_line(alloc, &graph, &mut text)?;
    }
    Ok(text)
}

// Appends the text of the tree of a directed graph, and the end of a line.
fn push_line(alloc: Global, graph: &Digraph, text: &mut Vec<u8>) -> Result<(), Memory>
    ensures { IfOk result (λ _. (tree : Option PlainDTree)
        × IsDirectedTree (has_arc_to graph.now) graph.now.vertices tree
        × (text.new.items ≡ text.old.items ++ directed_text_of tree ++ 10 ∷ [])) }
{
    let tree = decompose_directed(alloc, graph)?;
    text.extend_from_slice(&text_directed(alloc, &tree)?)?;
    text.push(b'\n')?;
    Ok(())
}
