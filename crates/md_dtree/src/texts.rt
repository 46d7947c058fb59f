//! Writes and reads the texts of trees of directed graphs.
ghost use Rattle.std.specs.Prelude.{◌≡◌, IfOk};
ghost use Rattle.md_tree.specs.Plain.{plain_option};
ghost use Rattle.md_dtree.specs.DirectedTexts.{directed_text_of, IsDirectedReading};

use crate::{DKind, DPair, DTree};
use md_digraph::DIRECTED_WORDS;
use md_graph::Memory;
use md_tree::{TreeFault, push_text_of, read_tree_of};
use std::alloc::Global;

/// The text of a tree: a name in digits, and a node as `P`, `S`, `O` or `R`, then in brackets its
/// children with commas between them, and where the node is prime a semicolon and its pairs, as
/// `0>2`, with commas between them. The text `empty` where there is no tree. Errors: want of
/// memory.
pub fn text_directed(alloc: Global, tree: &Option<DTree>) -> Result<Vec<u8>, Memory>
    ensures text { IfOk result (λ v. v.items ≡ directed_text_of (plain_option tree.now)) }
{
    let mut text = Vec::new(alloc);
    push_text_of(alloc, &mut text, tree)?;
    Ok(text)
}

/// The tree with this text, none for the word `empty`. No call nests as deep as the tree. Errors:
/// where the bytes leave the grammar; or they are the text of no well-formed tree; or want of
/// memory.
pub fn read_directed(alloc: Global, bytes: &[u8]) -> Result<Option<DTree>, TreeFault>
    ensures reading { IsDirectedReading bytes.now result }
{
    read_tree_of::<DKind, DPair, DIRECTED_WORDS>(alloc, bytes)
}
