//! Whether a text, or a given tree, is that of strong modules of a directed graph. No tree is built.
ghost use Rattle.std.specs.Prelude.{◌≡◌, ◌↔◌, ◌*◌, ◌≤◌, ℕ, false, [], Some, IfOk, IsTrue};
ghost use Rattle.std.specs.FinSet.{contains};
ghost use Rattle.md_digraph.specs.ArcColours.{between};
ghost use Rattle.md_digraph.specs.PlainDigraph.{has_arc_to};
ghost use Rattle.md_graph.specs.declared.TheConstants.{WORDS};
ghost use Rattle.md_graph.specs.Sets.{Has};
ghost use Rattle.md_tree.specs.Plain.{plain_option};
ghost use Rattle.md_dtree.specs.DirectedFits.{puts_arcs};
ghost use Rattle.md_dtree.specs.DirectedSpelling.{lists_arcs};
ghost use Rattle.md_dtree.specs.DirectedTexts.{directed_text_of};
ghost use Rattle.md_dtree.specs.DirectedTrees.{PlainDTree, IsDirectedTree};
ghost use Rattle.md_dcheck.specs.DueDigraphs.{HasTreeText};

use crate::lone_modules::has_trivial_modules_alone;
use md_checker::{TextGraph, is_text_by_rows};
use md_digraph::DigraphOf;
use md_dtree::{DKind, DPair, DTree, text_directed};
use md_graph::{Memory, Set};
use std::alloc::Global;

// A directed graph that a text is compared with.
#[derive(Drop)]
struct DigraphText<'a, const W: usize> {
    graph: &'a DigraphOf<W>,
    ghost limit: { W ≤ WORDS },
}

impl<'a, const W: usize> TextGraph<DKind, DPair, W> for DigraphText<'a, W> {
    ghost use Rattle.md_dcheck.specs.DirectedViews.{digraph_view};

    ghost view = { λ text. digraph_view text.graph.now };

    fn vertices(&self) -> &Set<W> {
        let graph = self.graph;
        graph.vertices()
    }

    fn ahead(&self, v: u32) -> (&Set<W>, u32) {
        let graph = self.graph;
        let _vertices = graph.vertices();
        (graph.successors(v), 0)
    }

    fn admits(&self, _: DKind, _: &[Option<DKind>]) -> bool {
        true
    }

    fn agree_on(&self, v: u32, w: u32, names: &Set<W>) -> bool {
        let graph = self.graph;
        let _vertices = graph.vertices();
        has_arcs(graph, w, names, graph.successors(v), graph.predecessors(v))
    }

    fn are_joined(&self, kind: DKind, v: u32, w: u32) -> bool {
        let graph = self.graph;
        are_put(kind, graph.has_arc(v, w), graph.has_arc(w, v))
    }

    fn has_trivial_modules_alone(&self, alloc: Global, names: &Set<W>) -> Result<bool, Memory> {
        has_trivial_modules_alone(alloc, self.graph, names)
    }
}

// Whether the arcs from a vertex to names of a set run to those that `out` has, and those to it
// from names of the set from those that `into` has.
fn has_arcs<const W: usize>(
    graph: &DigraphOf<W>,
    v: u32,
    set: &Set<W>,
    out: &Set<W>,
    into: &Set<W>,
) -> bool
    requires { Has graph.now.vertices v }
    ensures { IsTrue result ↔ ((y : ℕ) → Has set.now y
        → between (has_arc_to graph.now) v y ≡ (contains out.now y, contains into.now y)) }
{
    if !graph.successors(v).agrees_on(set, out) {
        return false;
    }
    graph.predecessors(v).agrees_on(set, into)
}

// Whether nodes of the kind put these arcs, there and back, between any two of their children; no,
// if they list pairs.
fn are_put(kind: DKind, there: bool, back: bool) -> bool
    ensures { IsTrue result ↔ ((lists_arcs kind ≡ false)
        × ((i j : ℕ) → (there, back) ≡ puts_arcs kind [] i j)) }
{
    match kind {
        DKind::Parallel => !(there | back),
        DKind::Series => there & back,
        DKind::Order => there & !back,
        DKind::Prime => false,
    }
}

/// Whether the tree is the tree of strong modules of the directed graph, or there is none and the
/// directed graph has no vertex. The tree may be any: it is written, and its text is compared with
/// the directed graph. Errors: want of memory.
pub fn fits_directed<const W: usize>(
    alloc: Global,
    graph: &DigraphOf<W>,
    tree: &Option<DTree>,
) -> Result<bool, Memory>
    ensures fit { IfOk result (λ fit. IsTrue fit
        ↔ IsDirectedTree (has_arc_to graph.now) graph.now.vertices (plain_option tree.now)) }
{
    let text = text_directed(alloc, tree)?;
    is_tree_text(alloc, graph, &text)
}

// Whether the text is that of the tree of the directed graph: the word `empty` where it has no
// vertex. Errors: want of memory.
pub(crate) fn is_tree_text<const W: usize>(
    alloc: Global,
    graph: &DigraphOf<W>,
    text: &[u8],
) -> Result<bool, Memory>
    ensures { IfOk result (λ fit. IsTrue fit ↔ HasTreeText graph.now text.now) }
{
    if graph.vertices().is_empty() {
        return Ok(text == b"empty".as_slice());
    }
    is_text_of_tree(alloc, graph, text)
}

// Whether bytes are the text of the tree of the directed graph, if it has one. Errors: want of
// memory.
fn is_text_of_tree<const W: usize>(
    alloc: Global,
    graph: &DigraphOf<W>,
    text: &[u8],
) -> Result<bool, Memory>
    ensures { IfOk result (λ fit. IsTrue fit ↔ ((t : PlainDTree)
        × IsDirectedTree (has_arc_to graph.now) graph.now.vertices (Some t)
        × (text.now ≡ directed_text_of (Some t)))) }
{
    graph.vertices().within_limit();
    let compared = DigraphText { graph };
    is_text_by_rows::<DKind, DPair, DigraphText<'_, W>, W>(alloc, &compared, text)
}
