//! A node over trees, of which some are merged into it.
ghost use Rattle.std.specs.Prelude.{◌≡◌, ◌++◌, map, IfOk};
ghost use Rattle.std.specs.List.{list_any};
ghost use Rattle.md_tree.specs.Heads.{head};
ghost use Rattle.md_tree.specs.Parts.{below_node};
ghost use Rattle.md_tree.specs.Plain.{plain};
ghost use Rattle.md_local.specs.Growing.{IsJoined, AreOrdered, are_one_split, is_merged, in_place_of};
ghost use Rattle.md_local.specs.Substitution.{is_inner};

use md_graph::Memory;
use md_tree::{Children, Kind, Pair, QuotientEdges, Tree};
use std::alloc::Global;

// Whether a tree is no leaf.
pub(crate) fn is_node(tree: &Tree) -> bool
    ensures { result ≡ is_inner (plain tree.now) }
{
    match tree {
        Tree::Leaf(_) => false,
        Tree::Node(_, _, _) => true,
    }
}

// A node over the trees, with the pairs given; a tree that can't be its child gives its own
// children in its place.
pub(crate) fn join(
    alloc: Global,
    kind: Kind,
    edges: QuotientEdges,
    children: Vec<Tree>,
) -> Result<Tree, Memory>
    ensures { IfOk result (λ tree. IsJoined kind edges.list.items
        (map plain children.items) (plain tree)) }
{
    let list = children_in_order(alloc, kind, children)?;
    Ok(Tree::Node(kind, Children { list }, edges))
}

// The trees, each that can't be a child of a node of the kind with its own children in its place,
// and then in order; the trees as they are where each can be a child.
fn children_in_order(alloc: Global, kind: Kind, children: Vec<Tree>) -> Result<Vec<Tree>, Memory>
    ensures { IfOk result (λ list. AreOrdered kind (map plain children.items)
        (map plain list.items)) }
{
    if !some_merges(kind, &children) {
        return Ok(children);
    }
    let mut list = Vec::with_capacity(alloc, children.len())?;
    for child in children {
        put(&mut list, kind, child)?;
    }
    list.sort_by_cached_key(|tree| first_leaf(tree))?;
    Ok(list)
}

// Whether one of the trees can't be a child of a node of the kind.
fn some_merges(kind: Kind, children: &[Tree]) -> bool
    ensures { result ≡ list_any (λ child. is_merged kind (plain child)) children.now }
{
    children.iter().any(|child| merges(kind, child))
}

// Appends a tree, or its children where it can't be a child of a node of the kind.
fn put(list: &mut Vec<Tree>, kind: Kind, tree: Tree) -> Result<(), Memory>
    ensures { IfOk result (λ _. map plain list.new.items
        ≡ map plain list.old.items ++ in_place_of kind (plain tree)) }
{
    if merges(kind, &tree) {
        return append_children(list, tree);
    }
    list.push(tree)?;
    Ok(())
}

// Whether a tree can't be a child of a node of the kind.
fn merges(kind: Kind, tree: &Tree) -> bool
    ensures { result ≡ is_merged kind (plain tree.now) }
{
    match tree {
        Tree::Leaf(_) => false,
        Tree::Node(own, _, _) => is_one_split(kind, *own),
    }
}

// Appends the children of a tree.
fn append_children(list: &mut Vec<Tree>, tree: Tree) -> Result<(), Memory>
    ensures { IfOk result (λ _. map plain list.new.items
        ≡ map plain list.old.items ++ below_node (plain tree)) }
{
    let mut tree = tree;
    if let Tree::Node(_, children, _) = &mut tree {
        list.append(&mut children.list)?;
        return Ok(());
    }
    Ok(())
}

// Whether both are parallel, or both series.
fn is_one_split(kind: Kind, own: Kind) -> bool
    ensures { result ≡ are_one_split kind own }
{
    match (kind, own) {
        (Kind::Parallel, Kind::Parallel) => true,
        (Kind::Series, Kind::Series) => true,
        _ => false,
    }
}

// The name of the first leaf, and 0 where a node has no children.
pub(crate) fn first_leaf(tree: &Tree) -> u32
    ensures { result ≡ head (plain tree.now) }
{
    let mut first = tree;
    while let Tree::Node(_, children, _) = first {
        match children.list.first() {
            Some(child) => first = child,
            None => return 0,
        }
    }
    match first {
        Tree::Leaf(name) => *name,
        Tree::Node(_, _, _) => unreachable!(),
    }
}
