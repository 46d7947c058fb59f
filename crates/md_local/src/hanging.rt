//! Trees in place of the leaves of a tree.
ghost use Rattle.std.specs.Prelude.{◌≡◌, ◌≢◌, ◌<◌, ◌≤◌, ℕ, nat_eq, cond, map, length, IfOk};
ghost use Rattle.std.specs.List.{list_any};
ghost use Rattle.md_tree.specs.Heads.{head};
ghost use Rattle.md_tree.specs.Parts.{plain_part, parts_of, name};
ghost use Rattle.md_tree.specs.Plain.{plain};
ghost use Rattle.md_tree.specs.Stacks.{HasChildrenOf};
ghost use Rattle.md_tree.specs.Trees.{PlainTree, leaf};
ghost use Rattle.md_tree.specs.WellFormed.{IsCanonicalTree};
ghost use Rattle.md_local.specs.Substitution.{IsSubstituted, IsPartTurn, is_inner, tree_at, standing_at};

use crate::merging::{first_leaf, is_node, join};
use crate::part::parts_of_tree;
use md_graph::Memory;
use md_tree::{Part, Tree};
use std::alloc::Global;

// A prime quotient has a part for each tree, for each of the two ends, and for its root.
const PARTS_BESIDE: usize = 3;

// The tree with the trees in place of its leaves: in place of each leaf the tree whose head has the
// leaf's name, if there is one. Where each of the trees is a leaf, the tree is that already.
pub(crate) fn substitute(alloc: Global, quotient: Tree, hanging: Vec<Tree>) -> Result<Tree, Memory>
    requires { IsCanonicalTree (plain quotient) }
    ensures { IfOk result (λ tree.
        IsSubstituted (λ x part. part ≡ tree_at (map plain hanging.items) x)
        (plain quotient) (plain tree)) }
{
    if !some_node(&hanging) {
        return Ok(quotient);
    }
    let room = hanging.len().saturating_add(PARTS_BESIDE);
    let places = places_of(alloc, hanging)?;
    let parts = parts_of_tree(alloc, quotient, room)?;
    put_together(alloc, parts, places)
}

// Whether one of the trees is no leaf.
fn some_node(trees: &[Tree]) -> bool
    ensures { result ≡ list_any (λ tree. is_inner (plain tree)) trees.now }
{
    trees.iter().any(|tree| is_node(tree))
}

// The tree whose parts these are, with the trees at their places in place of its leaves.
fn put_together(
    alloc: Global,
    mut parts: Vec<Part>,
    mut places: Vec<Option<Tree>>,
) -> Result<Tree, Memory>
    requires { (t : PlainTree) × IsCanonicalTree t × (map plain_part parts.items ≡ parts_of t) }
    ensures { IfOk result (λ tree. (t : PlainTree) → IsCanonicalTree t
        → map plain_part parts.items ≡ parts_of t
        → IsSubstituted (λ x part. part ≡ standing_at places.items x) t (plain tree)) }
{
    let mut stack = Vec::with_capacity(alloc, parts.len())?;
    while let Some(part) = parts.pop() {
        put_part(alloc, part, &mut places, &mut stack)?;
    }
    match stack.pop() {
        Some(tree) => Ok(tree),
        None => unreachable!(),
    }
}

// What is put for a part comes on top of the stack, in place of what was put for its children.
fn put_part(
    alloc: Global,
    part: Part,
    places: &mut Vec<Option<Tree>>,
    stack: &mut Vec<Tree>,
) -> Result<(), Memory>
    requires { HasChildrenOf (plain_part part) (map plain stack.old.items) }
    ensures put { IfOk result (λ _. IsPartTurn (standing_at places.old.items) (plain_part part)
        (map plain stack.old.items) (map plain stack.new.items)) }
    ensures places { (x : ℕ) → plain_part part ≢ name x
        → standing_at places.new.items x ≡ standing_at places.old.items x }
{
    match part {
        Part::Leaf(name) => {
            let tree = take_place(places, name);
            stack.push(tree)?;
        }
        Part::Node(kind, number, edges) => {
            let below = stack.len() - number as usize;
            let children = stack.split_off(below)?;
            let tree = join(alloc, kind, edges, children)?;
            stack.push(tree)?;
        }
    }
    Ok(())
}

// The tree at the place of a name, which goes; the name's leaf where there is none.
fn take_place(places: &mut Vec<Option<Tree>>, name: u32) -> Tree
    ensures tree { plain result ≡ standing_at places.old.items name }
    ensures places { (x : ℕ) → x ≢ name
        → standing_at places.new.items x ≡ standing_at places.old.items x }
{
    let at = name as usize;
    if at < places.len() {
        if let Some(tree) = places[at].take() {
            return tree;
        }
    }
    Tree::Leaf(name)
}

// Each tree at the place of its head; of those with one head the first.
fn places_of(alloc: Global, hanging: Vec<Tree>) -> Result<Vec<Option<Tree>>, Memory>
    ensures { IfOk result (λ places. (x : ℕ)
        → standing_at places.items x ≡ tree_at (map plain hanging.items) x) }
{
    let mut hanging = hanging;
    let mut places = Vec::new(alloc);
    while let Some(tree) = hanging.pop() {
        set_place(&mut places, tree)?;
    }
    Ok(places)
}

// Sets the tree at the place of its head; where it is a leaf nothing stands there.
fn set_place(places: &mut Vec<Option<Tree>>, tree: Tree) -> Result<(), Memory>
    ensures { IfOk result (λ _. (x : ℕ) → standing_at places.new.items x
        ≡ cond (nat_eq (head (plain tree)) x) (plain tree) (standing_at places.old.items x)) }
{
    let name = first_leaf(&tree);
    if !is_node(&tree) {
        clear_place(places, name);
        return Ok(());
    }
    let at = name as usize;
    extend(places, at)?;
    places[at] = Some(tree);
    Ok(())
}

// Takes the tree at the place of a name away.
fn clear_place(places: &mut Vec<Option<Tree>>, name: u32)
    ensures { (x : ℕ) → standing_at places.new.items x
        ≡ cond (nat_eq name x) (leaf name) (standing_at places.old.items x) }
{
    let at = name as usize;
    if at < places.len() {
        places[at] = None;
    }
}

// Makes places, without a tree, so that there is one at the position.
fn extend(places: &mut Vec<Option<Tree>>, at: usize) -> Result<(), Memory>
    ensures there { IfOk result (λ _. at < length places.new.items) }
    ensures same { IfOk result (λ _. (x : ℕ)
        → standing_at places.new.items x ≡ standing_at places.old.items x) }
{
    while places.len() <= at {
        places.push(None)?;
    }
    Ok(())
}
