//! Writes the text of a tree.
ghost use Rattle.std.specs.Prelude.{◌≡◌, ◌<◌, [], ◌++◌, length, IfOk, OnOk, OnErr};
ghost use Rattle.md_text.specs.Fronts.{BeginsWith};
ghost use Rattle.md_tree.specs.Plain.{plain, plain_option};
ghost use Rattle.md_tree.specs.OpenNodes.{open_text, rest_text};
ghost use Rattle.md_tree.specs.Spellings.{spelling};
ghost use Rattle.md_tree.specs.TreeTexts.{tree_text_by, text_of, text_of_by};

use crate::pair_writer::{Workspace, push_pairs};
use crate::{Lettered, Paired, PairsOf, Tree, TreeOf};
use md_graph::Memory;
use md_text::push_number;
use std::alloc::Global;

/// The text of a tree: a name in digits, and a node as `P`, `S` or `R`, then in brackets its
/// children with commas between them, and where the node is prime a semicolon and its pairs, as
/// `0-2`, with commas between them. The text `empty` where there is no tree. Errors: want of
/// memory.
pub fn text(alloc: Global, tree: &Option<Tree>) -> Result<Vec<u8>, Memory>
    ensures text { IfOk result (λ v. v.items ≡ text_of (plain_option tree.now)) }
{
    let mut text = Vec::new(alloc);
    push_text(alloc, &mut text, tree)?;
    Ok(text)
}

/// Appends the text of a tree: the one that `text` makes. Errors: want of memory; the text to which
/// it was to be appended then stays.
pub fn push_text(alloc: Global, text: &mut Vec<u8>, tree: &Option<Tree>) -> Result<(), Memory>
    ensures written { OnOk result (text.new.items
        ≡ text.old.items ++ text_of (plain_option tree.now)) }
    ensures stays { OnErr result (text.new.items ≡ text.old.items) }
{
    push_text_of(alloc, text, tree)
}

/// The same of trees over any kinds and pairs that are spelled.
pub fn push_text_of<K: Lettered, P: Paired>(
    alloc: Global,
    text: &mut Vec<u8>,
    tree: &Option<TreeOf<K, P>>,
) -> Result<(), Memory>
    ensures written { OnOk result (text.new.items
        ≡ text.old.items ++ text_of_by (spelling K.rules P.rules) (plain_option tree.now)) }
    ensures stays { OnErr result (text.new.items ≡ text.old.items) }
{
    let Some(tree) = tree else {
        text.extend_from_slice(b"empty")?;
        return Ok(());
    };
    let before = text.len();
    let mut space = Workspace::new(alloc);
    if push_tree(alloc, text, tree, &mut space).is_err() {
        text.truncate(before);
        return Err(Memory);
    }
    Ok(())
}

// A node whose letter stands in the text: its children that are still to come, the mark before the
// first of them, and its pairs.
#[derive(Drop)]
struct Open<'a, K: Drop, P: Drop> {
    mark: u8,
    children: &'a [TreeOf<K, P>],
    count: usize,
    pairs: &'a PairsOf<P>,
}

// The open nodes stand on a stack of their own, the innermost last, so that no call nests as deep
// as the tree.
fn push_tree<K: Lettered, P: Paired>(
    alloc: Global,
    text: &mut Vec<u8>,
    tree: &TreeOf<K, P>,
    space: &mut Workspace,
) -> Result<(), Memory>
    ensures written { OnOk result (text.new.items
        ≡ text.old.items ++ tree_text_by (spelling K.rules P.rules) (plain tree.now)) }
    ensures begun { BeginsWith text.new.items text.old.items }
{
    let mut open = Vec::new(alloc);
    push_begin(text, tree, &mut open)?;
    while let Some(node) = open.pop() {
        push_some(text, node, &mut open, space)?;
    }
    Ok(())
}

// A name, or the letter of a node, which then is open.
#[tactic(auto, using(crate::proofs::Plain::plain_is_leaf, crate::proofs::Plain::plain_is_node))]
fn push_begin<'a, K: Lettered, P: Paired>(
    text: &mut Vec<u8>,
    tree: &'a TreeOf<K, P>,
    open: &mut Vec<Open<'a, K, P>>,
) -> Result<(), Memory>
    ensures written { OnOk result (text.new.items
        ++ rest_text (spelling K.rules P.rules) open.new.items
        ≡ text.old.items ++ (tree_text_by (spelling K.rules P.rules) (plain tree.now)
        ++ rest_text (spelling K.rules P.rules) open.old.items)) }
    ensures begun { BeginsWith text.new.items text.old.items }
{
    match tree {
        TreeOf::Leaf(name) => push_number(text, u64::from(*name))?,
        TreeOf::Node(kind, children, pairs) => {
            text.push(kind.letter())?;
            open.push(Open {
                mark: b'(',
                children: &children.list,
                count: children.list.len(),
                pairs,
            })?;
        }
    }
    Ok(())
}

// What comes next of a node that was open: its children up to the beginning of one that is a node,
// or its end.
fn push_some<'a, K: Lettered, P: Paired>(
    text: &mut Vec<u8>,
    node: Open<'a, K, P>,
    open: &mut Vec<Open<'a, K, P>>,
    space: &mut Workspace,
) -> Result<(), Memory>
    ensures written { OnOk result (text.new.items
        ++ rest_text (spelling K.rules P.rules) open.new.items
        ≡ text.old.items ++ (open_text (spelling K.rules P.rules) node.entry
        ++ rest_text (spelling K.rules P.rules) open.old.items)) }
    ensures begun { BeginsWith text.new.items text.old.items }
    ensures longer { OnOk result (length text.old.items < length text.new.items) }
{
    let node = push_leaves(text, node)?;
    let Some((child, others)) = node.children.split_first() else {
        return push_end(text, node, space);
    };
    text.push(node.mark)?;
    open.push(Open {
        mark: b',',
        children: others,
        count: node.count,
        pairs: node.pairs,
    })?;
    push_begin(text, child, open)?;
    Ok(())
}

// The children that are names, up to the first that is none: the node has the others left.
fn push_leaves<'a, K: Lettered, P: Paired>(
    text: &mut Vec<u8>,
    node: Open<'a, K, P>,
) -> Result<Open<'a, K, P>, Memory>
    ensures written { IfOk result (λ left.
        text.new.items ++ open_text (spelling K.rules P.rules) left
        ≡ text.old.items ++ open_text (spelling K.rules P.rules) node.entry) }
    ensures begun { BeginsWith text.new.items text.old.items }
{
    let mut mark = node.mark;
    let mut children = node.children;
    while let Some((TreeOf::Leaf(name), others)) = children.split_first() {
        text.push(mark)?;
        push_number(text, u64::from(*name))?;
        mark = b',';
        children = others;
    }
    Ok(Open {
        mark,
        children,
        count: node.count,
        pairs: node.pairs,
    })
}

// The pairs and the closing bracket of a node without children left.
fn push_end<K: Lettered, P: Paired>(
    text: &mut Vec<u8>,
    node: Open<K, P>,
    space: &mut Workspace,
) -> Result<(), Memory>
    requires { node.children.now ≡ [] }
    ensures written { OnOk result (text.new.items
        ≡ text.old.items ++ open_text (spelling K.rules P.rules) node.entry) }
    ensures begun { BeginsWith text.new.items text.old.items }
    ensures longer { OnOk result (length text.old.items < length text.new.items) }
{
    push_pairs(text, node.pairs, node.count, space)?;
    text.push(b')')?;
    Ok(())
}
