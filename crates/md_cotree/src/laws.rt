//! The laws of trees without prime nodes and of cotrees, each the contract of a function that does
//! nothing.
ghost use Rattle.md_cotree.specs.Laws.{TreeOfItsGraph, OneTreeOfAGraph, NoPathInItsGraph};
ghost use Rattle.md_cotree.specs.CotreeLaws.{OneTreeOfACotree, OneGraphOfACotree, CotreeDenotesGraph, NoPathInACotree};

/// A well-formed tree without prime nodes is the tree of strong modules of the graph that it
/// denotes.
pub fn tree_of_its_graph()
    ensures { TreeOfItsGraph }
{}

/// Two well-formed trees without prime nodes that denote one graph are equal.
pub fn one_tree_of_a_graph()
    ensures { OneTreeOfAGraph }
{}

/// A graph that a well-formed tree without prime nodes denotes has no induced path on four
/// vertices.
pub fn no_path_in_its_graph()
    ensures { NoPathInItsGraph }
{}

/// A cotree keeps one tree at most.
pub fn one_tree_of_a_cotree()
    ensures { OneTreeOfACotree }
{}

/// A cotree denotes one graph at most.
pub fn one_graph_of_a_cotree()
    ensures { OneGraphOfACotree }
{}

/// What a cotree denotes is a graph on names.
pub fn cotree_denotes_graph()
    ensures { CotreeDenotesGraph }
{}

/// What a cotree denotes has no induced path on four vertices.
pub fn no_path_in_a_cotree()
    ensures { NoPathInACotree }
{}
