//! The bar of a tree.
ghost use Rattle.std.specs.Prelude.{◌≡◌, ◌≤◌, ◌<◌, ◌↔◌, ℕ, Bool, List, length, IsTrue, IfSome, IfNone};
ghost use Rattle.md_graph.specs.Sets.{NameSet};
ghost use Rattle.md_graph.specs.Adjacency.{IsAdjacency};
ghost use Rattle.md_tree.specs.declared.Pair.{Pair};
ghost use Rattle.md_tree.specs.Trees.{node, names, names_at, count, EachNodeBelow};
ghost use Rattle.md_tree.specs.Plain.{plain, plain_option, trees_of, row_of_children, row_from};
ghost use Rattle.md_tree.specs.StrongTrees.{IsTree};
ghost use Rattle.md_tree.specs.WellFormed.{IsCanonicalNode, IsCanonicalTree};
ghost use Rattle.md_tree.specs.Held.{IsLeast};
ghost use Rattle.md_tree.specs.NoPrimes.{HasNoPrime};
ghost use Rattle.md_bar_tree.specs.Bars.{IsBar, HasBar};
ghost use Rattle.md_bar_tree.specs.Inner.{IsInnerTree, AreLeaves, HasOneInner, IsNarrow, HasFewInner, HaveFewInner};
ghost use Rattle.md_bar_tree.specs.Finding.{IsFoundIn, IsNextInner, AreLeastTwo, IsBarOfTwo, bar_across};

use crate::{Bar, BarKind, Class};
use md_tree::{Children, Kind, Tree};

/// A bar of a class in the graph whose tree this is; `None` exactly where the graph has none. It
/// takes no memory. Condition: no node of the tree is prime.
pub fn bar_of(tree: &Option<Tree>, class: Class) -> Option<Bar>
    requires no_prime { HasNoPrime (plain_option tree.now) }
    ensures found { IfSome result (λ bar. (e : ℕ → ℕ → Bool) (s : NameSet) → IsAdjacency e
        → IsTree e s (plain_option tree.now) → IsBar class e s bar) }
    ensures none { IfNone result ((e : ℕ → ℕ → Bool) (s : NameSet) → IsAdjacency e
        → IsTree e s (plain_option tree.now) → HasBar class e s → ⊥) }
{
    match tree {
        Some(tree) => bar_in(tree, class),
        None => None,
    }
}

// A bar at a node of the tree.
#[cycle(look)]
fn bar_in(tree: &Tree, class: Class) -> Option<Bar>
    ensures found { IfSome result (IsFoundIn class (plain tree.now)) }
    ensures none { IfNone result (HasFewInner class (plain tree.now)) }
{
    match tree {
        Tree::Leaf(_) => None,
        Tree::Node(kind, children, _) => match bar_at(*kind, children, class) {
            Some(bar) => Some(bar),
            None => bar_below(*kind, children, class),
        },
    }
}

// A bar at a node of one of the children.
#[cycle(look)]
fn bar_below(kind: Kind, children: &Children, class: Class) -> Option<Bar>
    ensures found { IfSome result (λ bar. (ps : List Pair)
        → IsFoundIn class (node kind (row_of_children children.now) ps) bar) }
    ensures none { IfNone result (HaveFewInner class (row_of_children children.now)) }
{
    for child in &children.list {
        if is_inner(child) {
            if let Some(bar) = bar_in(child, class) {
                return Some(bar);
            }
        }
    }
    None
}

// A bar at a node of this kind with these children: it has one where it has two children that are
// no leaves, and is of a kind that may have one alone.
fn bar_at(kind: Kind, children: &Children, class: Class) -> Option<Bar>
    ensures found { IfSome result (λ bar. (ps : List Pair)
        → IsFoundIn class (node kind (row_of_children children.now) ps) bar) }
    ensures none { IfNone result (IsNarrow class kind
        → HasOneInner (row_of_children children.now)) }
{
    if !is_narrow(class, kind) {
        return None;
    }
    if let Some(first) = inner_from(children, 0) {
        if let Some(second) = inner_from(children, first + 1) {
            return Some(bar_of_two(kind, children.get(first), children.get(second)));
        }
    }
    None
}

// Whether nodes of this kind may have one child alone that is no leaf.
fn is_narrow(class: Class, kind: Kind) -> bool
    ensures { IsTrue result ↔ IsNarrow class kind }
{
    match kind {
        Kind::Series => true,
        Kind::Parallel => match class {
            Class::Threshold => true,
            Class::Trivial => false,
        },
        Kind::Prime => false,
    }
}

// The position of the first child that is no leaf, from a position on.
fn inner_from(children: &Children, from: u64) -> Option<u64>
    requires { from ≤ length (trees_of children.now) }
    ensures position { IfSome result (λ i. i < length (trees_of children.now)) }
    ensures found { IfSome result (λ i.
        IsNextInner (row_from children.now from) (row_from children.now i)) }
    ensures none { IfNone result (AreLeaves (row_from children.now from)) }
{
    for at in from..children.len() {
        if is_inner(children.get(at)) {
            return Some(at);
        }
    }
    None
}

// Whether a tree is no leaf.
fn is_inner(tree: &Tree) -> bool
    ensures { IsTrue result ↔ IsInnerTree (plain tree.now) }
{
    match tree {
        Tree::Leaf(_) => false,
        Tree::Node(_, _, _) => true,
    }
}

// The bar at a node of this kind, below two of its children that are no leaves.
fn bar_of_two(kind: Kind, first: &Tree, second: &Tree) -> Bar
    ensures { IsCanonicalTree (plain first.now) → IsInnerTree (plain first.now)
        → IsCanonicalTree (plain second.now) → IsInnerTree (plain second.now)
        → IsBarOfTwo kind (plain first.now) (plain second.now) result }
{
    let (p, q) = least_two(first);
    let (r, s) = least_two(second);
    bar_of_names(kind, p, q, r, s)
}

// The bar of the two pairs: at a series node the edges run across the pairs, at a parallel one they
// are the pairs.
fn bar_of_names(kind: Kind, p: u32, q: u32, r: u32, s: u32) -> Bar
    ensures { result ≡ bar_across kind p q r s }
{
    let (kind, b, c) = match kind {
        Kind::Series => (BarKind::C4, r, q),
        Kind::Parallel | Kind::Prime => (BarKind::TwoK2, q, r),
    };
    Bar {
        kind,
        a: p,
        b,
        c,
        d: s,
    }
}

// The least names of the first two children of a node.
fn least_two(tree: &Tree) -> (u32, u32)
    ensures { IsCanonicalTree (plain tree.now) → IsInnerTree (plain tree.now)
        → AreLeastTwo (plain tree.now) result.0 result.1 }
{
    match tree {
        Tree::Leaf(name) => (*name, *name),
        Tree::Node(_, children, _) => (least_at(children, 0), least_at(children, 1)),
    }
}

// The least name of a child, by its position.
#[cycle(least)]
fn least_at(children: &Children, i: usize) -> u32
    ensures { EachNodeBelow IsCanonicalNode (row_of_children children.now)
        → i < count (row_of_children children.now)
        → IsLeast (names_at (row_of_children children.now) i) result }
{
    match children.list.get(i) {
        Some(child) => least(child),
        None => 0,
    }
}

// The least name of a tree: that of its first child.
#[cycle(least)]
fn least(tree: &Tree) -> u32
    ensures { IsCanonicalTree (plain tree.now) → IsLeast (names (plain tree.now)) result }
{
    match tree {
        Tree::Leaf(name) => *name,
        Tree::Node(_, children, _) => least_at(children, 0),
    }
}
