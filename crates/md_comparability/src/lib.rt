//! Transitive orientations: their laws, the walk through the edges of a graph that finds each class
//! of arcs at its least edge, and orders of vertices.
#![tactic(auto)]

mod edge_walk;
pub mod laws;
mod order;

pub use edge_walk::{ClassOrChosen, orient_classes};
pub use order::Order;
