//! The tree of a cotree, with the children of each node in ascending order of their least names.
ghost use Rattle.std.specs.Prelude.{◌≡◌, ◌≢◌, ◌<◌, ◌≤◌, ◌++◌, ℕ, Option, map, length, IfOk};
ghost use Rattle.md_graph.specs.PlainGraph.{PlainGraph, adjacent};
ghost use Rattle.md_lists.specs.Links.{Links, kind_at, children_at, IsLive, AreLinks};
ghost use Rattle.md_lists.specs.declared.TheConstants.{PLACES};
ghost use Rattle.md_tree.specs.declared.Kind.TheVariants.{Prime};
ghost use Rattle.md_tree.specs.Parts.{parts_of};
ghost use Rattle.md_tree.specs.Plain.{plain, plain_option};
ghost use Rattle.md_tree.specs.StrongTrees.{IsTree};
ghost use Rattle.md_tree.specs.Trees.{PlainTree};
ghost use Rattle.md_tree.specs.WellFormed.{IsWellFormed, HasNoPrimeNode};
ghost use Rattle.md_tree.specs.NoPrimes.{HasNoPrime};
ghost use Rattle.md_cotree.specs.Cotrees.{IsSoundCotree, Denotes};
ghost use Rattle.md_cotree.specs.Orders.{AllLive, part_at, PlainKeyed, plain_keyed, least_of, tree_of, HasTree, IsLoose, IsOrdered, IsPartPut, IsPutOver, AreFalling, AreTaken, HasBelow};
ghost use Rattle.md_cotree.specs.PlaceTrees.{PlaceTree, place_of, node_count, shape, Stands};

use crate::Cotree;
use md_graph::{Memory, Steps};
use md_lists::{Lists, PlaceKind};
use md_tree::{Children, Kind, QuotientEdges, Tree};
use std::alloc::Global;
use std::marker::Brand;
use std::sync::ledger::{Blank, Ledger};

// A tree with its least name.
#[derive(Drop)]
struct Keyed {
    least: u32,
    tree: Tree,
}

impl Cotree {
    /// The tree of strong modules of the graph that the cotree denotes; none where it has no
    /// vertices. No call nests as deep as the tree. Condition: the cotree is sound. Errors: want of
    /// memory.
    pub fn to_tree(&self, alloc: Global) -> Result<Option<Tree>, Memory>
        requires sound { IsSoundCotree self.now }
        ensures tree { IfOk result (λ tree. (g : PlainGraph) → Denotes self.now g →
            IsTree (adjacent g) g.vertices (plain_option tree)) }
        ensures well_formed { IfOk result (λ tree. IsWellFormed (plain_option tree)) }
        ensures no_prime { IfOk result (λ tree. HasNoPrime (plain_option tree)) }
    {
        let _spare = self.lists.spare();
        match self.root {
            Some(root) => {
                let tree = tree_at::<Brand>(alloc, &self.lists, root, Blank::new(1))?;
                Ok(Some(tree))
            }
            None => Ok(None),
        }
    }
}

// The tree that stands at a place, with its children in order.
fn tree_at<L: Ledger>(alloc: Global, lists: &Lists, root: u32, blank: Blank) -> Result<Tree, Memory>
    requires name { blank.name ≡ L.name }
    requires parts { blank.parts ≡ L.parts }
    requires some { 0 < blank.parts }
    requires links { AreLinks lists.now }
    requires stands { HasTree lists.now root }
    ensures { IfOk result (λ tree. (t : PlaceTree) → Stands lists.now t → place_of t ≡ root →
        IsLoose (shape t) → IsOrdered (plain tree) (shape t)) }
{
    let mut steps = Steps::<L>::new(blank);
    let mut places = places(alloc, lists, root, &mut steps)?;
    let mut stack = Vec::new(alloc);
    while let Some(place) = places.pop() {
        put(alloc, lists, place, &mut stack, &mut steps)?;
    }
    match stack.pop() {
        Some(keyed) => Ok(keyed.tree),
        None => unreachable!(),
    }
}

// The places of the tree at a place: each before those below it, and the children from the last to
// the first.
pub(crate) fn places<L: Ledger>(
    alloc: Global,
    lists: &Lists,
    root: u32,
    steps: &mut Steps<L>,
) -> Result<Vec<u32>, Memory>
    requires links { AreLinks lists.now }
    requires stands { HasTree lists.now root }
    ensures parts { IfOk result (λ places. (t : PlaceTree) → Stands lists.now t
        → place_of t ≡ root → map (part_at lists.now) places.items ≡ parts_of (shape t)) }
    ensures live { IfOk result (λ places. AllLive lists.now places.items) }
{
    let mut places = Vec::new(alloc);
    let mut waiting = Vec::new(alloc);
    waiting.push(root)?;
    while let Some(place) = waiting.pop() {
        places.push(place)?;
        push_below(lists, place, &mut waiting, steps)?;
    }
    Ok(places)
}

// Appends the children of a place.
fn push_below<L: Ledger>(
    lists: &Lists,
    place: u32,
    waiting: &mut Vec<u32>,
    steps: &mut Steps<L>,
) -> Result<(), Memory>
    requires links { AreLinks lists.now }
    requires live { IsLive lists.now place }
    ensures { IfOk result (λ _. waiting.new.items
        ≡ waiting.old.items ++ children_at lists.now place) }
{
    let mut next = lists.first_child(place, steps);
    while let Some(child) = next {
        waiting.push(child)?;
        next = lists.next_sibling(child, steps);
    }
    Ok(())
}

// The tree of a place comes on top of the stack, in place of those of its children.
fn put<L: Ledger>(
    alloc: Global,
    lists: &Lists,
    place: u32,
    stack: &mut Vec<Keyed>,
    steps: &mut Steps<L>,
) -> Result<(), Memory>
    requires live { IsLive lists.now place }
    requires below { HasBelow (part_at lists.now place) (map plain_keyed stack.old.items) }
    ensures { IfOk result (λ _. IsPartPut (part_at lists.now place)
        (map plain_keyed stack.old.items) (map plain_keyed stack.new.items)) }
{
    match lists.kind(place, steps) {
        PlaceKind::Leaf(name) => {
            stack.push(Keyed {
                least: name,
                tree: Tree::Leaf(name),
            })?;
            Ok(())
        }
        PlaceKind::Parallel => {
            put_over(
                alloc,
                Kind::Parallel,
                lists.child_count(place, steps),
                stack,
            )
        }
        PlaceKind::Series => put_over(alloc, Kind::Series, lists.child_count(place, steps), stack),
    }
}

// A node comes on top of the stack over the last trees there, in order.
fn put_over(alloc: Global, kind: Kind, count: u32, stack: &mut Vec<Keyed>) -> Result<(), Memory>
    requires some { 0 < count }
    requires count { count ≤ length stack.old.items }
    ensures { IfOk result (λ _. IsPutOver kind count
        (map plain_keyed stack.old.items) (map plain_keyed stack.new.items)) }
{
    let below = stack.len() - count as usize;
    arrange(stack, below);
    let least = stack[stack.len() - 1].least;
    let list = trees(alloc, stack, below)?;
    let edges = QuotientEdges {
        list: Vec::new(alloc),
    };
    stack.push(Keyed {
        least,
        tree: Tree::Node(kind, Children { list }, edges),
    })?;
    Ok(())
}

// Puts the trees from `below` on in descending order of their least names, the least on top.
fn arrange(stack: &mut Vec<Keyed>, below: usize)
    requires { below ≤ length stack.old.items }
    ensures { AreFalling least_of below stack.old.items stack.new.items }
{
    let (_, children) = stack.as_mut_slice().split_at_mut(below);
    children.sort_unstable_by_key(|child| child.least);
    children.reverse();
}

// Takes the trees from `below` on off the stack, the last first, without their least names.
fn trees(alloc: Global, stack: &mut Vec<Keyed>, below: usize) -> Result<Vec<Tree>, Memory>
    requires { below ≤ length stack.old.items }
    ensures taken { IfOk result (λ trees. AreTaken
        stack.old.items stack.new.items trees.items) }
    ensures below { IfOk result (λ _. length stack.new.items ≡ below) }
{
    let mut trees = Vec::with_capacity(alloc, stack.len() - below)?;
    while stack.len() > below {
        match stack.pop() {
            Some(child) => trees.push_reserved(child.tree),
            None => unreachable!(),
        }
    }
    Ok(trees)
}
