//! The laws of trees, each the contract of a function that does nothing. They speak of any set of
//! names with a test of adjacency, and stand on no call that computes a tree.

ghost use Rattle.std.specs.Prelude.{ℕ};
ghost use Rattle.md_tree.specs.Laws.{OneTree, TreeIsCanonical, TreeIsWellFormed, TreeTellsGraph, GraphOfTheTree, NoInducedPathIfNoPrimeNode, HeadsTellNodes, OneTreeOneText, OneTreeOneTextBy, WrittenTreesAreRead, WrittenTreesAreReadBelow};
ghost use Rattle.md_tree.specs.Spellings.{spelling};

use crate::{Lettered, Paired};

/// Each graph has exactly one tree of strong modules; the graph without vertices has none in its
/// place.
pub fn one_tree()
    ensures law { OneTree }
{}

/// The leaves of a graph's tree are its vertices, and the tree is well-formed.
pub fn tree_is_canonical()
    ensures law { TreeIsCanonical }
{}

/// The tree of a graph on names below the limit is well-formed.
pub fn tree_is_well_formed()
    ensures law { TreeIsWellFormed }
{}

/// A graph is the graph that its tree denotes, so that different graphs have different trees.
pub fn graph_of_the_tree()
    ensures law { GraphOfTheTree }
{}

/// Two vertices are adjacent in a graph exactly as its tree says: where their least common node is
/// series, or is prime and lists the pair of the children that hold them.
pub fn tree_tells_graph()
    ensures law { TreeTellsGraph }
{}

/// A graph has no induced path on four vertices exactly where its tree has no prime node.
pub fn no_induced_path_if_no_prime_node()
    ensures law { NoInducedPathIfNoPrimeNode }
{}

/// Whether the leaf sets of trees, which are modules, are the children of a node, and whether the
/// node splits, is told by the heads of the trees, one name of each: for any kinds, pairs and
/// colours, so of directed graphs too.
pub fn heads_tell_nodes<K, P, C>()
    ensures law { HeadsTellNodes K P C }
{}

/// Different trees have different texts, and no tree has the text of a graph without vertices.
pub fn one_tree_one_text()
    ensures law { OneTreeOneText }
{}

/// The text of a well-formed tree is read as that tree, if memory suffices.
pub fn written_trees_are_read()
    ensures law { WrittenTreesAreRead }
{}

/// Of trees over any kinds and pairs that are spelled, different ones have different texts.
pub fn one_spelled_tree_one_text<K: Lettered, P: Paired>()
    ensures law { OneTreeOneTextBy (spelling K.rules P.rules) }
{}

/// The text of such a tree, if it is well-formed below a limit, is read as that tree, if memory
/// suffices.
pub fn spelled_trees_are_read<K: Lettered, P: Paired>()
    ensures law { (limit : ℕ) → WrittenTreesAreReadBelow (spelling K.rules P.rules) limit }
{}
