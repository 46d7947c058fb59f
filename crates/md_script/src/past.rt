//! What an edit is taken back by.
use md_graph::{Set, WORDS};

/// The edit that gives the graph before another edit again. It is seen as an edit; the neighbours
/// of a vertex are kept as a set on names below `64 * W`, so that none takes memory.
#[derive(Drop)]
pub enum PastOf<const W: usize> {
    /// Takes in the edge between `u` and `v`.
    AddEdge { u: u32, v: u32 },
    /// Leaves out the edge between `u` and `v`.
    DelEdge { u: u32, v: u32 },
    /// Takes in the vertex `x` and an edge between it and each of the neighbours.
    AddVertex { x: u32, neighbours: Set<W> },
    /// Leaves out the vertex `x` and the edges at it.
    DelVertex { x: u32 },
}

/// What an edit is taken back by, on all names.
pub type Past = PastOf<WORDS>;
