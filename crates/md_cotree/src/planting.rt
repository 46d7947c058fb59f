//! The cotree of a tree, from the outline of the tree.
ghost use Rattle.std.specs.Prelude.{◌≡◌, ◌≢◌, ℕ, ◌<◌, Bool, Option, None, slice_index_or, reverse, IfOk};
ghost use Rattle.md_lists.specs.Links.{AreLinks};
ghost use Rattle.md_outline.specs.Outlines.{outline_option};
ghost use Rattle.md_tree.specs.declared.Kind.TheVariants.{Prime};
ghost use Rattle.md_tree.specs.Plain.{plain_option};
ghost use Rattle.md_tree.specs.Trees.{PlainTree};
ghost use Rattle.md_tree.specs.TreeGraph.{graph_of_tree};
ghost use Rattle.md_tree.specs.WellFormed.{IsWellFormed};
ghost use Rattle.md_tree.specs.NoPrimes.{HasNoPrime};
ghost use Rattle.md_cotree.specs.Cotrees.{Denotes};
ghost use Rattle.md_cotree.specs.Forests.{row_append, shape_list, IsForest, IsReady, with_outline_part, HasTreesFor};
ghost use Rattle.md_cotree.specs.PlaceTrees.{PlaceTrees, no_more, then, tip, inner, roots, row_length, node_counts, place_kind, kind_of, FillsLists};

use crate::Cotree;
use crate::cotree::keep_place;
use md_graph::{Memory, NAMES, Steps};
use md_lists::{Lists, PLACES, PlaceKind};
use md_outline::{OutlinePart, tree_outline};
use md_tree::{Kind, Tree};
use std::alloc::Global;
use std::marker::Brand;
use std::sync::ledger::{Blank, Ledger};

/// The cotree of a tree. No call nests as deep as the tree. Condition: the tree is well-formed, and
/// no node is prime. Errors: want of memory.
pub fn from_tree(alloc: Global, tree: &Option<Tree>) -> Result<Cotree, Memory>
    requires well_formed { IsWellFormed (plain_option tree.now) }
    requires no_prime { HasNoPrime (plain_option tree.now) }
    ensures { IfOk result (λ cotree. Denotes cotree (graph_of_tree (plain_option tree.now))) }
{
    match tree {
        Some(tree) => from_outline(alloc, &tree_outline(alloc, tree)?),
        None => Cotree::new(alloc),
    }
}

/// The cotree of the tree with this outline. Condition: the outline is that of a well-formed tree
/// in which no node is prime. Errors: want of memory.
pub fn from_outline(alloc: Global, parts: &[OutlinePart<Kind>]) -> Result<Cotree, Memory>
    requires tree { (t : Option PlainTree) × IsWellFormed t × HasNoPrime t
        × (parts.now ≡ outline_option t) }
    ensures denotes { IfOk result (λ cotree. (t : Option PlainTree) → IsWellFormed t → HasNoPrime t
        → parts.now ≡ outline_option t → Denotes cotree (graph_of_tree t)) }
{
    cotree_of_parts::<Brand>(alloc, parts, Blank::new(1))
}

// The parts are put on a stack of loose trees, from the last to the first, so that a node finds its
// children on top of the stack, the first one uppermost.
fn cotree_of_parts<L: Ledger>(
    alloc: Global,
    parts: &[OutlinePart<Kind>],
    blank: Blank,
) -> Result<Cotree, Memory>
    requires name { blank.name ≡ L.name }
    requires parts { blank.parts ≡ L.parts }
    requires some { 0 < blank.parts }
    requires tree { (t : Option PlainTree) × IsWellFormed t × HasNoPrime t
        × (parts.now ≡ outline_option t) }
    ensures { IfOk result (λ cotree. (t : Option PlainTree) → IsWellFormed t → HasNoPrime t
        → parts.now ≡ outline_option t → Denotes cotree (graph_of_tree t)) }
{
    let mut cotree = Cotree::new(alloc)?;
    let _spare = cotree.lists.spare();
    let mut steps = Steps::<L>::new(blank);
    let mut stack = Vec::new(alloc);
    for i in (0..parts.len()).rev() {
        put(&mut cotree, &mut stack, parts[i], &mut steps)?;
    }
    cotree.root = stack.pop();
    Ok(cotree)
}

// The tree of a part comes on top of the stack, in place of those of its children. Condition: there
// is room, and the stack has the trees of its children.
fn put<L: Ledger>(
    cotree: &mut Cotree,
    stack: &mut Vec<u32>,
    part: OutlinePart<Kind>,
    steps: &mut Steps<L>,
) -> Result<(), Memory>
    requires forest { (ts : PlaceTrees) × IsForest cotree.old stack.old.items ts
        × (node_counts ts < PLACES) × HasTreesFor part (shape_list ts) }
    requires ready { IsReady cotree.old part }
    ensures { IfOk result (λ _. (ts : PlaceTrees) → IsForest cotree.old stack.old.items ts →
        HasTreesFor part (shape_list ts) →
        (us : PlaceTrees) × IsForest cotree.new stack.new.items us
        × (shape_list us ≡ with_outline_part part (shape_list ts))) }
{
    match part {
        OutlinePart::Name(name) => put_leaf(cotree, stack, name, steps),
        OutlinePart::Node(kind, count) => put_node(cotree, stack, kind, count, steps),
    }
}

// A leaf comes on top of the stack. Condition: there is room, and no leaf has its name.
fn put_leaf<L: Ledger>(
    cotree: &mut Cotree,
    stack: &mut Vec<u32>,
    name: u32,
    steps: &mut Steps<L>,
) -> Result<(), Memory>
    requires forest { (ts : PlaceTrees) × IsForest cotree.old stack.old.items ts
        × (node_counts ts < PLACES) }
    requires name { name < NAMES }
    requires absent { slice_index_or cotree.old.places.items name None ≡ None }
    ensures { IfOk result (λ _. (place : ℕ) ×
        ((ts : PlaceTrees) → IsForest cotree.old stack.old.items ts →
        IsForest cotree.new stack.new.items (then (tip place name) ts))) }
{
    let place = cotree.lists.make(PlaceKind::Leaf(name), steps);
    keep_place(&mut cotree.places, name, place);
    cotree.leaves += 1;
    stack.push(place)?;
    Ok(())
}

// A node takes the uppermost trees of the stack as its children, and comes in their place.
// Condition: there is room, the stack has as many trees, and the kind isn't prime.
fn put_node<L: Ledger>(
    cotree: &mut Cotree,
    stack: &mut Vec<u32>,
    kind: Kind,
    count: u32,
    steps: &mut Steps<L>,
) -> Result<(), Memory>
    requires forest { (us ts : PlaceTrees) × IsForest cotree.old stack.old.items (row_append us ts)
        × (row_length us ≡ count) × (node_counts (row_append us ts) < PLACES) }
    requires kind { kind ≢ Prime }
    ensures { IfOk result (λ _. (place : ℕ) × (k : Bool) × (kind ≡ kind_of k) ×
        ((us ts : PlaceTrees) → IsForest cotree.old stack.old.items (row_append us ts) →
        row_length us ≡ count →
        IsForest cotree.new stack.new.items (then (inner place k us) ts))) }
{
    let place = cotree.lists.make(place_kind(kind), steps);
    let below = stack.len() - count as usize;
    attach_all(&mut cotree.lists, place, &stack[below..], steps);
    stack.truncate(below);
    stack.push(place)?;
    Ok(())
}

// The kind of the place of a node.
fn place_kind(kind: Kind) -> PlaceKind
    requires { kind ≢ Prime }
    ensures { (k : Bool) × (kind ≡ kind_of k) × (result ≡ place_kind k) }
{
    match kind {
        Kind::Parallel => PlaceKind::Parallel,
        Kind::Series => PlaceKind::Series,
        Kind::Prime => unreachable!(),
    }
}

// Places become the children of a place, from the last to the first. Condition: they are loose
// trees, and it is a loose node without children.
fn attach_all<L: Ledger>(lists: &mut Lists, place: u32, children: &[u32], steps: &mut Steps<L>)
    requires forest { (k : Bool) × (us ts : PlaceTrees)
        × FillsLists lists.old (then (inner place k no_more) (row_append us ts))
        × (reverse (roots us) ≡ children.now) }
    requires links { AreLinks lists.old }
    ensures forest { (k : Bool) (us ts : PlaceTrees)
        → FillsLists lists.old (then (inner place k no_more) (row_append us ts))
        → reverse (roots us) ≡ children.now
        → FillsLists lists.new (then (inner place k us) ts) }
    ensures links { AreLinks lists.new }
    ensures marked { lists.new.marked ≡ lists.old.marked }
{
    for i in (0..children.len()).rev() {
        lists.attach(place, children[i], steps);
    }
}
