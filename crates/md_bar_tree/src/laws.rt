//! The law of bars, the contract of a function that does nothing. It speaks of any set of names
//! with a test of adjacency.
ghost use Rattle.md_bar_tree.specs.Laws.{NoBarIfFewInner};

/// A graph without an induced path on four vertices has no bar of a class exactly where in its tree
/// each series node, and for threshold graphs each parallel node, has at most one child that is no
/// leaf.
pub fn no_bar_if_few_inner()
    ensures law { NoBarIfFewInner }
{}
