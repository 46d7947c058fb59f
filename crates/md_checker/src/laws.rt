//! The laws by which a given tree is judged, and of the answer of a check, each the contract of a
//! function that does nothing. Those of trees speak of any set of names with a test of adjacency;
//! they stand on no call that computes a tree.

ghost use Rattle.md_checker.specs.Answers.{OneAnswer};
ghost use Rattle.md_checker.specs.Fits.{FitsIfTree, HeadsAreLeast};

/// A tree as well-formed trees are is the tree of strong modules of a graph exactly where its
/// leaves are the graph's vertices and each node that is no leaf fits: its leaf set is a module of
/// the graph; the least names of two children are adjacent exactly where the node joins the two;
/// and for a prime node the graph on the least names of the children has trivial modules alone.
pub fn fits_if_tree()
    ensures { FitsIfTree }
{}

/// The first leaf of a tree as well-formed trees are is the least of its names.
pub fn heads_are_least()
    ensures { HeadsAreLeast }
{}

/// Bytes have one answer at most, as a report from a place on.
pub fn one_answer()
    ensures { OneAnswer }
{}
