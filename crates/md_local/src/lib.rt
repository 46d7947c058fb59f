//! Changes of a graph inside one strong module, and what they do to its tree.
#![tactic(auto)]

mod copying;
mod growing;
mod hanging;
pub mod laws;
mod merging;
mod part;
mod rebuilding;
mod walking;

pub use copying::copy_tree;
pub use part::decompose_part;
pub use rebuilding::rebuild;
