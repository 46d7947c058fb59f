//! Whether a tree is the tree of strong modules of a directed graph, and checks of reports of such
//! trees. It stands on no crate that computes such a tree.
#![tactic(auto)]

mod digraph_text;
mod directed_check;
mod directed_checker;
mod due_digraph;
pub mod laws;
mod lone_modules;

pub use digraph_text::fits_directed;
pub use directed_check::check_directed;
