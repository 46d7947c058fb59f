//! The laws of directed graphs, each the contract of a function that does nothing.
ghost use Rattle.std.specs.Prelude.{◌≡◌, ◌*◌};
ghost use Rattle.md_digraph.specs.Laws.{DigraphWithoutVerticesIsEmpty, DirectedChildrenAreComponents, DirectedModulesAreSeenAlike};

use crate::{DIRECTED_NAMES, DIRECTED_WORDS};

/// The vertices of a directed graph are below 4,096.
pub fn number_of_directed_names()
    ensures number { DIRECTED_NAMES ≡ 4096 }
{}

/// The rows of the largest directed graphs have 64 words, which have one bit a name.
pub fn number_of_directed_words()
    ensures number { DIRECTED_WORDS ≡ 64 }
    ensures bits { DIRECTED_NAMES ≡ 64 * DIRECTED_WORDS }
{}

/// A directed graph without vertices is the empty one.
pub fn digraph_without_vertices_is_empty()
    ensures law { DigraphWithoutVerticesIsEmpty }
{}

/// A module of a directed graph is a nonempty set of vertices such that each vertex outside has
/// arcs to all of them or to none, and arcs from all of them or from none.
pub fn directed_modules_are_seen_alike()
    ensures law { DirectedModulesAreSeenAlike }
{}

/// The children of a set of vertices in the tree of strong modules, its maximal proper strong
/// modules, are exactly its components by arcs where it splits into two parts without an arc
/// across, and those by the lack of an arc where it splits with both arcs across.
pub fn directed_children_are_components()
    ensures law { DirectedChildrenAreComponents }
{}
