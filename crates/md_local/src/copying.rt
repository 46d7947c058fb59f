//! Equal trees.
ghost use Rattle.std.specs.Prelude.{◌≡◌, ◌<◌, [], map, IfOk};
ghost use Rattle.md_tree.specs.Parts.{below_node};
ghost use Rattle.md_tree.specs.Plain.{plain};
ghost use Rattle.md_tree.specs.Trees.{PlainTree};
ghost use Rattle.md_local.specs.Walks.{IsWay, HasPassed, HasMore, HasTurned, AreCopies, IsCopy, turns_ahead, turns_still_ahead};

use crate::part::copied_pairs;
use crate::walking::{Open, Turn, children_of};
use md_graph::Memory;
use md_tree::{Children, Tree};
use std::alloc::Global;

/// A tree that equals another one. No call nests as deep as the tree. Errors: want of memory.
pub fn copy_tree(alloc: Global, tree: &Tree) -> Result<Tree, Memory>
    ensures copy { IfOk result (λ copy. plain copy ≡ plain tree.now) }
{
    let mut path = Vec::new(alloc);
    let mut current = open_copy(alloc, tree)?;
    loop {
        match copy_turn(alloc, current, &mut path)? {
            Turn::Onward(next) => current = next,
            Turn::End(copy) => return Ok(copy),
        }
    }
}

// A node none of whose children was copied.
fn open_copy<'a>(alloc: Global, tree: &'a Tree) -> Result<Open<'a, Vec<Tree>>, Memory>
    ensures tree { IfOk result (λ node. plain node.tree.now ≡ plain tree.now) }
    ensures rest { IfOk result (λ node.
        map plain node.rest.now ≡ below_node (plain tree.now)) }
    ensures below { IfOk result (λ node. AreCopies [] node.below) }
{
    let rest = children_of(tree);
    let below = Vec::with_capacity(alloc, rest.len())?;
    Ok(Open { tree, rest, below })
}

// One turn of the walk over the tree: down to the next child that is no leaf, or back up with a
// copy of the node. `path` are the nodes above.
fn copy_turn<'a>(
    alloc: Global,
    current: Open<'a, Vec<Tree>>,
    path: &mut Vec<Open<'a, Vec<Tree>>>,
) -> Result<Turn<'a, Vec<Tree>, Tree>, Memory>
    requires { (t : PlainTree) × IsWay AreCopies t path.old.items current }
    ensures turn { IfOk result (λ turn. (t : PlainTree)
        → IsWay AreCopies t path.old.items current.entry
        → HasTurned AreCopies IsCopy t path.new.items turn) }
    ensures fewer { IfOk result (λ turn. turns_still_ahead path.new.items turn
        < turns_ahead path.old.items current.entry) }
{
    let node = copy_leaves(current)?;
    let Open { tree, rest, below } = node;
    if let Some((child, rest)) = rest.split_first() {
        path.push(Open { tree, rest, below })?;
        return Ok(Turn::Onward(open_copy(alloc, child)?));
    }
    let copy = copy_over(alloc, tree, below)?;
    match path.pop() {
        Some(above) => Ok(Turn::Onward(with_copy(above, copy)?)),
        None => Ok(Turn::End(copy)),
    }
}

// The node when the leaves that come next are copied.
fn copy_leaves<'a>(node: Open<'a, Vec<Tree>>) -> Result<Open<'a, Vec<Tree>>, Memory>
    ensures { IfOk result (λ passed. HasPassed AreCopies node.entry passed) }
{
    let Open {
        tree,
        mut rest,
        mut below,
    } = node;
    while let Some((Tree::Leaf(name), others)) = rest.split_first() {
        below.push(Tree::Leaf(*name))?;
        rest = others;
    }
    Ok(Open { tree, rest, below })
}

// The copy of a node over those of its children.
fn copy_over(alloc: Global, tree: &Tree, list: Vec<Tree>) -> Result<Tree, Memory>
    requires { map plain list.items ≡ below_node (plain tree.now) }
    ensures { IfOk result (λ copy. IsCopy (plain tree.now) copy) }
{
    match tree {
        Tree::Leaf(name) => Ok(Tree::Leaf(*name)),
        Tree::Node(kind, _, edges) => {
            let edges = copied_pairs(alloc, edges)?;
            Ok(Tree::Node(*kind, Children { list }, edges))
        }
    }
}

// The node above, with the copy of its child.
fn with_copy<'a>(above: Open<'a, Vec<Tree>>, copy: Tree) -> Result<Open<'a, Vec<Tree>>, Memory>
    ensures { IfOk result (λ node. HasMore AreCopies (plain copy) above.entry node) }
{
    let Open {
        tree,
        rest,
        mut below,
    } = above;
    below.push(copy)?;
    Ok(Open { tree, rest, below })
}
