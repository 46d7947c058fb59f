//! Edits of a graph.
use crate::Neighbours;

/// A change of a graph by one vertex or one edge.
#[derive(Debug, Drop)]
pub enum Edit {
    /// Takes in the edge between `u` and `v`.
    AddEdge { u: u32, v: u32 },
    /// Leaves out the edge between `u` and `v`.
    DelEdge { u: u32, v: u32 },
    /// Takes in the vertex `x` and an edge between it and each of the neighbours.
    AddVertex { x: u32, neighbours: Neighbours },
    /// Leaves out the vertex `x` and the edges at it.
    DelVertex { x: u32 },
}

/// Why an edit can't be applied to a graph.
#[derive(Clone, Copy, Debug, PartialEq, Eq)]
pub enum EditReason {
    /// Both ends of the edge are the same name.
    Same,
    /// This name is no vertex.
    NoVertex(u32),
    /// This name is a vertex already.
    NameTaken(u32),
    /// The edge is there already.
    EdgeThere,
    /// The edge isn't there.
    EdgeAbsent,
}
