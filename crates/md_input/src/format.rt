//! The formats of graph files.

/// How a graph file is written.
#[derive(Clone, Copy, Debug, PartialEq, Eq)]
pub enum Format {
    /// Lines of graph6.
    G6,
    /// A DIMACS edge file.
    Dimacs,
}
