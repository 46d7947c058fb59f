//! Whether a text, or a given tree, is that of strong modules of a graph. No tree is built.
ghost use Rattle.std.specs.Prelude.{◌≡◌, ◌↔◌, ◌++◌, true, Some, IfOk, IsTrue};
ghost use Rattle.md_graph.specs.PlainGraph.{adjacent};
ghost use Rattle.md_tree.specs.Plain.{plain_option};
ghost use Rattle.md_tree.specs.StrongTrees.{IsTree, IsTreeOf};
ghost use Rattle.md_tree.specs.Trees.{PlainTree};
ghost use Rattle.md_tree.specs.TreeTexts.{tree_text};
ghost use Rattle.md_tree.specs.WellFormed.{IsWellFormed};

use crate::lone_modules::has_trivial_modules_alone;
use crate::text_graph::TextGraph;
use crate::text_walk::is_text_by_rows;
use md_graph::{GraphOf, Memory, Set};
use md_tree::{Kind, Pair, Tree, text};
use std::alloc::Global;

impl<const W: usize> TextGraph<Kind, Pair, W> for GraphOf<W> {
    ghost use Rattle.md_checker.specs.GraphViews.{graph_view};

    ghost view = { graph_view };

    fn vertices(&self) -> &Set<W> {
        self.vertices()
    }

    fn ahead(&self, v: u32) -> (&Set<W>, u32) {
        let _vertices = self.vertices();
        (self.row(v), v + 1)
    }

    fn admits(&self, _: Kind, _: &[Option<Kind>]) -> bool {
        true
    }

    fn agree_on(&self, v: u32, w: u32, names: &Set<W>) -> bool {
        let _vertices = self.vertices();
        self.row(v).agrees_on(names, self.row(w))
    }

    fn are_joined(&self, kind: Kind, v: u32, w: u32) -> bool {
        match kind {
            Kind::Parallel => !self.has_edge(v, w),
            Kind::Series => self.has_edge(v, w),
            Kind::Prime => false,
        }
    }

    fn has_trivial_modules_alone(&self, alloc: Global, names: &Set<W>) -> Result<bool, Memory> {
        has_trivial_modules_alone(alloc, self, names)
    }
}

/// Whether the tree is the tree of strong modules of the graph, or there is none and the graph has
/// no vertex. The tree may be any: it is written, and its text is compared with the graph. Errors:
/// want of memory.
pub fn fits<const W: usize>(
    alloc: Global,
    graph: &GraphOf<W>,
    tree: &Option<Tree>,
) -> Result<bool, Memory>
    ensures { IfOk result (λ fit. IsTrue fit
        ↔ IsTree (adjacent graph.now) graph.now.vertices (plain_option tree.now)) }
{
    let _vertices = graph.vertices();
    match tree {
        Some(_) => {
            let text = text(alloc, tree)?;
            is_text_of_tree(alloc, graph, &text)
        }
        None => Ok(graph.vertices().is_empty()),
    }
}

// Whether bytes are the text of the tree of strong modules of a graph. Errors: want of memory.
pub(crate) fn is_text_of_tree<const W: usize>(
    alloc: Global,
    graph: &GraphOf<W>,
    text: &[u8],
) -> Result<bool, Memory>
    ensures { IfOk result (λ fit. IsTrue fit ↔ ((t : PlainTree) × IsWellFormed (Some t)
        × IsTreeOf (adjacent graph.now) graph.now.vertices t × (text.now ≡ tree_text t))) }
{
    let _vertices = graph.vertices();
    is_text_by_rows::<Kind, Pair, GraphOf<W>, W>(alloc, graph, text)
}

// The same of a text that is a word and behind it a tree's text.
pub(crate) fn is_word_and_tree<const W: usize>(
    alloc: Global,
    graph: &GraphOf<W>,
    word: &[u8],
    text: &[u8],
) -> Result<bool, Memory>
    ensures { IfOk result (λ fit. IsTrue fit ↔ ((t : PlainTree)
        × IsTreeOf (adjacent graph.now) graph.now.vertices t
        × (text.now ≡ word.now ++ tree_text t))) }
{
    let _vertices = graph.vertices();
    match text.strip_prefix(word) {
        Some(behind) => is_text_of_tree(alloc, graph, behind),
        None => Ok(false),
    }
}
