//! What a program over the crates of trees can promise, proved from the contracts of their public
//! calls alone.
ghost use Rattle.std.specs.Prelude.{◌≡◌, ◌↔◌, Option, Err, IfOk, IfErr, IsTrue};
ghost use Rattle.md_graph.specs.PlainGraph.{adjacent};
ghost use Rattle.md_digraph.specs.PlainDigraph.{has_arc_to};
ghost use Rattle.md_tree.specs.Reading.{IsTreeReading};
ghost use Rattle.md_tree.specs.StrongTrees.{IsTree};
ghost use Rattle.md_tree.specs.Trees.{PlainTree};
ghost use Rattle.md_tree.specs.TreeTexts.{text_of};
ghost use Rattle.md_tree.specs.TreeGraph.{graph_of_tree};
ghost use Rattle.md_tree.specs.WellFormed.{IsWellFormed};
ghost use Rattle.md_dtree.specs.DirectedTexts.{directed_text_of};
ghost use Rattle.md_dtree.specs.DirectedTrees.{PlainDTree, IsDirectedTree};

use md_ddecompose::decompose_directed;
use md_decompose::graph_outline;
use md_digraph::DigraphOf;
use md_dtree::text_directed;
use md_graph::{Graph, GraphOf, Memory};
use md_outline::{RowSpace, push_text_by_rows};
use md_tree::{TreeFault, graph_of, read_tree};
use std::alloc::Global;

/// The text of the tree of strong modules of a graph. Errors: want of memory.
pub fn tree_text<const W: usize>(alloc: Global, graph: &GraphOf<W>) -> Result<Vec<u8>, Memory>
    ensures written { IfOk result (λ text. (t : Option PlainTree)
        × IsTree (adjacent graph.now) graph.now.vertices t × (text.items ≡ text_of t)) }
{
    let parts = graph_outline(alloc, graph)?;
    let mut text = Vec::new(alloc);
    push_text_by_rows(&mut text, &parts, graph, &mut RowSpace::new(alloc))?;
    Ok(text)
}

/// The text of the tree of strong modules of a directed graph. Errors: want of memory.
pub fn directed_tree_text<const W: usize>(
    alloc: Global,
    graph: &DigraphOf<W>,
) -> Result<Vec<u8>, Memory>
    ensures written { IfOk result (λ text. (t : Option PlainDTree)
        × IsDirectedTree (has_arc_to graph.now) graph.now.vertices t
        × (text.items ≡ directed_text_of t)) }
{
    let tree = decompose_directed(alloc, graph)?;
    text_directed(alloc, &tree)
}

/// Whether the bytes are the text of a well-formed tree. Errors: want of memory.
pub fn is_tree_text(alloc: Global, bytes: &[u8]) -> Result<bool, Memory>
    ensures told { IfOk result (λ is. IsTrue is
        ↔ ((t : Option PlainTree) × IsWellFormed t × (bytes.now ≡ text_of t))) }
{
    match read_tree(alloc, bytes) {
        Ok(_) => Ok(true),
        Err(TreeFault::Syntax { .. }) => Ok(false),
        Err(TreeFault::NotCanonical) => Ok(false),
        Err(TreeFault::Memory) => Err(Memory),
    }
}

/// The graph that the tree with this text denotes. Errors: those of reading the tree, which come
/// exactly where the bytes are the text of no well-formed tree, or want of memory.
pub fn graph_of_text(alloc: Global, bytes: &[u8]) -> Result<Graph, TreeFault>
    ensures denoted { IfOk result (λ g. (t : Option PlainTree) × IsWellFormed t
        × (bytes.now ≡ text_of t) × (g ≡ graph_of_tree t)) }
    ensures refused { IfErr result (λ fault. IsTreeReading bytes.now (Err fault)) }
{
    let tree = read_tree(alloc, bytes)?;
    let mut graph = Graph::new(alloc)?;
    graph_of(&tree, &mut graph);
    Ok(graph)
}
