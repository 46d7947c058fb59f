//! Bars of trivially perfect graphs and of threshold graphs: four vertices by which a graph is
//! none, found in its tree, and tested on the graph; and whether a graph has one, told from the
//! outline of its tree.
#![tactic(auto)]

mod bar_at;
mod bar_search;
mod bar_test;
mod few_inner;
pub mod laws;

pub use bar_at::has_bar_at;
pub use bar_search::bar_of;
pub use bar_test::{in_cycle_order, in_pair_order, is_bar};
pub use few_inner::has_few_inner;

/// A class of graphs: trivially perfect graphs, which have no induced path or cycle on four
/// vertices, or threshold graphs, which have besides no two edges without an edge between them.
#[derive(Clone, Copy, PartialEq, Eq, Debug)]
pub enum Class {
    Trivial,
    Threshold,
}

/// The kinds of bars: a path on four vertices, a cycle on four, and two edges without an edge
/// between them.
#[derive(Clone, Copy, PartialEq, Eq, Debug)]
pub enum BarKind {
    P4,
    C4,
    TwoK2,
}

/// Four vertices by which a graph is not of a class. Of a path a-b-c-d the end `a` is below `d`; of
/// a cycle a-b-c-d `a` is the least and `b` below `d`; of the edges a-b and c-d each has its
/// smaller end first, and `a` is below `c`.
#[derive(Clone, Copy, PartialEq, Eq, Debug)]
pub struct Bar {
    pub kind: BarKind,
    pub a: u32,
    pub b: u32,
    pub c: u32,
    pub d: u32,
}
