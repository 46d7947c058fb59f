//! The outline that is read off a tree, and whether an outline has a prime part.
ghost use Rattle.std.specs.Prelude.{◌≡◌, ◌<◌, ◌^◌, ◌++◌, ◌∷◌, [], ◌↔◌, map, reverse, length, IfOk, IsTrue};
ghost use Rattle.std.specs.List.{All};
ghost use Rattle.md_tree.specs.Plain.{plain, trees_of};
ghost use Rattle.md_tree.specs.Parts.{plain_at};
ghost use Rattle.md_tree.specs.declared.Kind.{Kind};
ghost use Rattle.md_outline.specs.declared.outline.OutlinePart.{OutlinePart};
ghost use Rattle.md_outline.specs.Outlines.{outline_of};
ghost use Rattle.md_outline.specs.OutlineParts.{waiting_outline, IsNoPrimePart};

use crate::OutlinePart;
use md_graph::Memory;
use md_tree::{Children, Kind, Tree};
use std::alloc::Global;

/// Whether no part of an outline is a prime node.
pub fn has_no_prime_part(parts: &[OutlinePart<Kind>]) -> bool
    ensures no_prime { IsTrue result ↔ All IsNoPrimePart parts.now }
{
    for part in parts {
        if !is_no_prime(*part) {
            return false;
        }
    }
    true
}

// Whether a part is no prime node.
fn is_no_prime(part: OutlinePart<Kind>) -> bool
    ensures { IsTrue result ↔ IsNoPrimePart part }
{
    match part {
        OutlinePart::Node(Kind::Prime, _) => false,
        OutlinePart::Node(..) | OutlinePart::Name(_) => true,
    }
}

/// The outline of a tree. No call nests as deep as the tree. Condition: the outline has fewer than
/// 2^32 parts. Errors: want of memory.
pub fn tree_outline(alloc: Global, tree: &Tree) -> Result<Vec<OutlinePart<Kind>>, Memory>
    requires short { length (outline_of (plain tree.now)) < 2 ^ 32 }
    ensures outline { IfOk result (λ parts. parts.items ≡ outline_of (plain tree.now)) }
{
    let mut parts = Vec::new(alloc);
    let mut waiting = Vec::new(alloc);
    waiting.push(tree)?;
    while let Some(node) = waiting.pop() {
        push_node(node, &mut parts, &mut waiting)?;
    }
    Ok(parts)
}

// The part of a node comes behind the parts so far, and its children wait, the first one at the
// end.
fn push_node<'a>(
    node: &'a Tree,
    parts: &mut Vec<OutlinePart<Kind>>,
    waiting: &mut Vec<&'a Tree>,
) -> Result<(), Memory>
    requires { length (outline_of (plain node.now)) < 2 ^ 32 }
    ensures { IfOk result (λ _. (part : OutlinePart Kind)
        × (parts.new.items ≡ parts.old.items ++ part ∷ [])
        × (part ∷ waiting_outline waiting.new.items
        ≡ outline_of (plain node.now) ++ waiting_outline waiting.old.items)) }
{
    match node {
        Tree::Leaf(name) => {
            parts.push(OutlinePart::Name(*name))?;
            Ok(())
        }
        Tree::Node(kind, children, _) => {
            parts.push(OutlinePart::Node(*kind, children.len() as u32))?;
            push_children_backward(children, waiting)
        }
    }
}

// Appends the children of a node, from the last to the first.
fn push_children_backward<'a>(
    children: &'a Children,
    waiting: &mut Vec<&'a Tree>,
) -> Result<(), Memory>
    ensures { IfOk result (λ _. map plain_at waiting.new.items
        ≡ map plain_at waiting.old.items ++ reverse (map plain (trees_of children.now))) }
{
    for i in (0..children.list.len()).rev() {
        waiting.push(&children.list[i])?;
    }
    Ok(())
}
