//! The tree of strong modules of a graph: its types, its text, the graph that it denotes, and
//! their laws.
#![tactic(auto)]

ghost use Rattle.std.specs.Prelude.{◌≡◌, ◌<◌, length, vec_len, slice_index_or};
ghost use Rattle.md_tree.specs.Plain.{trees_of};

mod builder;
mod cotree;
mod grammar;
mod growing;
pub mod laws;
mod pair_order;
mod pair_reader;
mod pair_writer;
mod parts;
mod reader;
mod spelling;
mod tree_graph;
mod writer;

pub use builder::{Opened, ascends};
pub use cotree::{has_no_prime, is_cotree};
pub use grammar::split_letter;
pub use parts::{Part, PartOf, build};
pub use reader::{TreeFault, read_tree, read_tree_of};
pub use spelling::{Lettered, Paired};
pub use tree_graph::graph_of;
pub use writer::{push_text, push_text_of, text};

/// The kind of a node of a tree: its leaf set has no edge across some split, every edge across some
/// split, or neither.
#[derive(Clone, Copy, PartialEq, Eq, Debug)]
pub enum Kind {
    Parallel,
    Series,
    Prime,
}

/// Two children of a prime node, by their positions from 0, between which edges run; the lower
/// position first.
#[derive(Clone, Copy, PartialEq, Eq, Debug)]
pub struct Pair {
    pub low: u32,
    pub high: u32,
}

/// A tree over names: a name, or a node with its kind, its children, and the pairs of children that
/// it lists.
#[cycle(tree)]
pub enum TreeOf<K: Drop, P: Drop> {
    Leaf(u32),
    Node(K, ChildrenOf<K, P>, PairsOf<P>),
}

/// A tree of a graph.
pub type Tree = TreeOf<Kind, Pair>;

// Each drop of a tree is written into the code that drops a list of trees: a level of a deep tree
// takes one frame of it, where a derived drop takes a second one.
impl<K: Drop, P: Drop> Drop for TreeOf<K, P> {
    #[inline(always)]
    fn drop(self) {
        match self {
            TreeOf::Leaf(_) => {}
            TreeOf::Node(_, _, _) => {}
        }
    }
}

/// The children of a node, in their order.
#[cycle(tree)]
#[derive(Drop)]
pub struct ChildrenOf<K: Drop, P: Drop> {
    pub list: Vec<TreeOf<K, P>>,
}

/// The children of a node of a graph's tree.
pub type Children = ChildrenOf<Kind, Pair>;

/// The pairs of children that a node lists, in their order.
#[derive(Drop)]
pub struct PairsOf<P: Drop> {
    pub list: Vec<P>,
}

/// The pairs of children of a prime node between which edges run.
pub type QuotientEdges = PairsOf<Pair>;

impl<K: Drop, P: Drop> ChildrenOf<K, P> {
    /// How many children there are.
    pub fn len(&self) -> u64
        ensures value { result ≡ length (trees_of self.now) }
    {
        self.list.len() as u64
    }

    /// The child at a position, counted from 0.
    pub fn get(&self, i: u64) -> &TreeOf<K, P>
        requires place { i < length (trees_of self.now) }
        ensures value { result.now ≡ slice_index_or (trees_of self.now) i result.now }
    {
        &self.list[i as usize]
    }
}

impl<P: Drop> PairsOf<P> {
    /// How many pairs there are.
    pub fn len(&self) -> u64
        ensures value { result ≡ vec_len self.now.list }
    {
        self.list.len() as u64
    }

    /// The pair at a position, counted from 0.
    pub fn get(&self, i: u64) -> &P
        requires place { i < vec_len self.now.list }
        ensures value { result.now ≡ slice_index_or self.now.list.items i result.now }
    {
        &self.list[i as usize]
    }
}
