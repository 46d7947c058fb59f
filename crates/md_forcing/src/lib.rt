//! Forcing: arcs of a graph or of its complement, the arcs that an arc reaches by direct forcings,
//! and lists of arcs in which neighbours force each other.
#![tactic(auto)]

mod arc;
mod arc_set;
mod chain;
mod class;
mod exploration;
mod forcing_tree;

pub use arc::Arc;
pub use arc_set::{ArcSet, ArcSetOf, Side};
pub use chain::{Arcs, Chain, chain_of, chain_to_reverse};
pub use class::Class;
pub use exploration::{Explored, close, explore, trail_of};
pub use forcing_tree::ForcingTree;
