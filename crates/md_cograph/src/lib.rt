//! Cographs under edits: the cotree of a graph is changed as the graph is, and induced P4s are
//! found.
#![tactic(auto)]

mod changes;
mod first_path;
mod last_item;

pub use changes::{change, change_back, p4_behind};
pub use first_path::any_p4;
pub use last_item::take_back_item;
