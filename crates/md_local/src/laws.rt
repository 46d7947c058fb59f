//! The laws of local changes and of trees in place of leaves, each the contract of a function that
//! does nothing. Those of changes speak of any colours `C` of the ordered pairs of names, so of
//! graphs, whose colours are adjacent and not.
ghost use Rattle.md_local.specs.Changes.{ChangesStayLocal, EdgeEditsStayLocal};
ghost use Rattle.md_local.specs.Substitution.{TreesAreSubstituted};

/// A graph is changed inside a strong module `c`: each strong module with a name outside `c` is one
/// before exactly where it is one afterwards; those properly inside `c` are those of the new graph
/// on `c`; and `c` itself stays one but where its parent is split into two parts with every edge
/// across, or with none, and `c` is then too.
pub fn changes_stay_local<C>()
    ensures law { ChangesStayLocal C }
{}

/// An edge between two vertices comes or goes, and `w` is the least strong module that held both:
/// the strong modules of the new graph are the earlier ones that aren't properly inside `w`, and
/// those of the new graph on `w`, but `w` isn't one where it and its parent are both parallel, or
/// both series.
pub fn edge_edits_stay_local<C>()
    ensures law { EdgeEditsStayLocal C }
{}

/// A set of vertices is partitioned into modules, and the least name of each is taken: the tree of
/// the graph on these names, with the tree of each module in place of its least name, is the tree
/// of the graph on the set. A tree of the kind of the node that it comes below, parallel or series,
/// is merged into that node, and the children are put in order.
pub fn substitution()
    ensures law { TreesAreSubstituted }
{}
