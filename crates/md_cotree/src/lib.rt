//! Cotrees: trees without prime nodes, over linked lists.
#![tactic(auto)]

mod adjacency;
mod cotree;
pub mod laws;
mod ordering;
mod outline;
mod planting;

pub use adjacency::parent_of;
pub use cotree::{Cotree, keep_place};
pub use planting::{from_outline, from_tree};
