//! The laws of trees of directed graphs, each the contract of a function that does nothing. They
//! speak of any set of names with a test of arcs, and stand on no call that computes a tree.
ghost use Rattle.md_dtree.specs.Laws.{OneDirectedTree, DirectedTreeIsCanonical, DirectedTreeIsWellFormed, OneDirectedTreeOneText, WrittenDirectedTreesAreRead, FitsIfDirectedTree, SplitsBalance, BalanceSplits};

/// Each directed graph has exactly one tree of strong modules; the one without vertices has none in
/// its place.
pub fn one_directed_tree()
    ensures law { OneDirectedTree }
{}

/// The leaves of a directed graph's tree are its vertices, and each node is as well-formed trees
/// have it.
pub fn directed_tree_is_canonical()
    ensures law { DirectedTreeIsCanonical }
{}

/// The tree of a directed graph on names below the limit is well-formed.
pub fn directed_tree_is_well_formed()
    ensures law { DirectedTreeIsWellFormed }
{}

/// Different trees have different texts, and no tree has the text of a directed graph without
/// vertices.
pub fn one_directed_tree_one_text()
    ensures law { OneDirectedTreeOneText }
{}

/// The text of a well-formed tree is read as that tree, if memory suffices.
pub fn written_directed_trees_are_read()
    ensures law { WrittenDirectedTreesAreRead }
{}

/// A tree as well-formed trees are is the tree of a directed graph exactly where its leaves are the
/// vertices and each node that is no leaf fits: its leaf set is a module; between the first leaves
/// of two children run the arcs that the node puts there; and for a prime node the directed graph
/// on these leaves has trivial modules alone.
pub fn fits_if_directed_tree()
    ensures law { FitsIfDirectedTree }
{}

/// Where a set splits with all arcs from one part to the other and none back, each name of the
/// first part has the greater balance: more arcs from it less those to it.
pub fn splits_balance()
    ensures law { SplitsBalance }
{}

/// A set splits so with a part exactly where the balances of the names of the part sum to the
/// number of pairs across.
pub fn balance_splits()
    ensures law { BalanceSplits }
{}
