//! The laws of modules, each the contract of a function that does nothing. They speak of any set of
//! names with a test of adjacency, so of a graph, of the graph on a part of its names, and of the
//! complement of each. The last ones speak of any colours `C` of the ordered pairs of names, so of
//! directed graphs too.
ghost use Rattle.md_modules.specs.Laws.{ChildrenAreByKind, ChildrenOfSplit, ColouredStrongModules, ComplementTurnsKinds, HasOneKind, SplitsHaveOneColour, StrongModulesAreTree, StrongModulesDescend, PrimeHasMaximalModules, PrimeHasInducedPath, NoInducedPathIfNonePrime, InducedPathsAreDecided, UnsplitHasMaximalModules};

/// The strong modules of a graph with a vertex are a tree under inclusion, whose root is the set of
/// all vertices and whose leaves are the single vertices.
pub fn strong_modules_are_tree()
    ensures law { StrongModulesAreTree }
{}

/// A set with two or more members, so each strong module with two or more, is exactly one of
/// parallel, series and prime.
pub fn one_kind()
    ensures law { HasOneKind }
{}

/// The strong modules of a graph with a vertex are the set of all vertices and the strong modules
/// of the graph on each maximal strong module properly inside it.
pub fn strong_modules_descend()
    ensures law { StrongModulesDescend }
{}

/// The children of a set in the tree of strong modules, its maximal proper strong modules, are
/// exactly its components where it is parallel, the components of its complement where it is
/// series, and its maximal proper modules where it is prime.
pub fn children_by_kind()
    ensures law { ChildrenAreByKind }
{}

/// In a graph with two or more vertices that is connected, as its complement is: two vertices lie
/// in one maximal proper module exactly where the least module that holds both isn't the set of
/// all; different maximal proper modules are disjoint; their quotient has trivial modules alone,
/// and four vertices or more.
pub fn prime_has_maximal_modules()
    ensures law { PrimeHasMaximalModules }
{}

/// A graph with two or more vertices that is connected, as its complement is, has an induced path
/// on four vertices.
pub fn prime_has_induced_path()
    ensures law { PrimeHasInducedPath }
{}

/// A graph has no induced path on four vertices exactly where none of its strong modules is prime.
pub fn no_induced_path_if_none_prime()
    ensures law { NoInducedPathIfNonePrime }
{}

/// A graph has an induced path on four vertices, or it has none.
pub fn induced_paths_are_decided()
    ensures law { InducedPathsAreDecided }
{}

/// The complement of a graph has the same modules and the same strong modules, with parallel and
/// series the other way round. So a graph's complement is connected exactly where the graph has no
/// split with every edge across.
pub fn complement_turns_kinds()
    ensures law { ComplementTurnsKinds }
{}

/// The strong modules of a colouring are a tree, and descend, as those of a graph.
pub fn coloured_strong_modules<C>()
    ensures law { ColouredStrongModules C }
{}

/// Where a set splits with two colours, these are one, or each is the reverse of the other.
pub fn splits_have_one_colour<C>()
    ensures law { SplitsHaveOneColour C }
{}

/// The children of a set that splits with a colour are its least segments. None splits with that
/// colour or its reverse, and they stand in a row: the pairs from each to those behind it have the
/// colour.
pub fn children_of_split<C>()
    ensures law { ChildrenOfSplit C }
{}

/// The children of a set that doesn't split are its maximal proper modules. Their quotient has
/// trivial modules alone, and three names or more.
pub fn unsplit_has_maximal_modules<C>()
    ensures law { UnsplitHasMaximalModules C }
{}
