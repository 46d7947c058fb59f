//! The tree of strong modules of a directed graph: its types, its text, and its laws.
#![tactic(auto)]

pub mod laws;
mod spelling;
mod texts;

use md_tree::{ChildrenOf, PairsOf, TreeOf};
pub use texts::{read_directed, text_directed};

/// The kind of a node of a directed graph's tree: its leaf set has no arc across some split, both
/// arcs for each pair across some split, every arc from the one part to the other of some split and
/// none back, or none of these.
#[derive(Clone, Copy, PartialEq, Eq, Debug)]
pub enum DKind {
    Parallel,
    Series,
    Order,
    Prime,
}

/// Two children of a prime node, by their positions from 0, with arcs from the one to the other.
#[derive(Clone, Copy, PartialEq, Eq, Debug)]
pub struct DPair {
    pub from: u32,
    pub to: u32,
}

/// A tree of a directed graph: a name, or a node with its kind, its children, and the pairs of
/// children that it lists.
pub type DTree = TreeOf<DKind, DPair>;

/// The children of a node of a directed graph's tree.
pub type DChildren = ChildrenOf<DKind, DPair>;

/// The pairs of children of a prime node with arcs from the first to the second.
pub type DPairs = PairsOf<DPair>;
