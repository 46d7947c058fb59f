//! The parts of a tree, and the tree that is put together from them.
ghost use Rattle.std.specs.Prelude.{◌≡◌, map, IfOk};
ghost use Rattle.md_tree.specs.Trees.{PlainTreeOf};
ghost use Rattle.md_tree.specs.Plain.{plain};
ghost use Rattle.md_tree.specs.Parts.{plain_part, parts_of};
ghost use Rattle.md_tree.specs.Stacks.{with_part, HasChildrenOf};

use crate::{ChildrenOf, Kind, Pair, PairsOf, TreeOf};
use md_graph::Memory;
use std::alloc::Global;

/// A node of a tree without those below it: a name, or a kind with the number of children and the
/// pairs of them that it lists.
#[derive(Drop)]
pub enum PartOf<K: Drop, P: Drop> {
    Leaf(u32),
    Node(K, u64, PairsOf<P>),
}

/// A node of a graph's tree without those below it.
pub type Part = PartOf<Kind, Pair>;

/// The tree whose parts these are: each node before its children, and these from the last to the
/// first. No call nests as deep as the tree. Errors: want of memory.
pub fn build<K: Drop, P: Drop>(
    alloc: Global,
    mut parts: Vec<PartOf<K, P>>,
) -> Result<TreeOf<K, P>, Memory>
    requires parts { (t : PlainTreeOf K P) × (map plain_part parts.items ≡ parts_of t) }
    ensures tree { IfOk result (λ tree. (t : PlainTreeOf K P)
        → map plain_part parts.items ≡ parts_of t → plain tree ≡ t) }
{
    let mut stack = Vec::with_capacity(alloc, parts.len())?;
    while let Some(part) = parts.pop() {
        put_part(&mut stack, part)?;
    }
    match stack.pop() {
        Some(tree) => Ok(tree),
        None => unreachable!(),
    }
}

// A name becomes a tree, and a node takes its children, which are the last trees, in order.
fn put_part<K: Drop, P: Drop>(
    stack: &mut Vec<TreeOf<K, P>>,
    part: PartOf<K, P>,
) -> Result<(), Memory>
    requires { HasChildrenOf (plain_part part) (map plain stack.old.items) }
    ensures { IfOk result (λ _. map plain stack.new.items
        ≡ with_part (plain_part part) (map plain stack.old.items)) }
{
    match part {
        PartOf::Leaf(name) => stack.push(TreeOf::Leaf(name))?,
        PartOf::Node(kind, number, pairs) => {
            let below = stack.len() - number as usize;
            let list = stack.split_off(below)?;
            stack.push(TreeOf::Node(kind, ChildrenOf { list }, pairs))?;
        }
    }
    Ok(())
}
