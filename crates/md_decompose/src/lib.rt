//! Modular decomposition: the tree of strong modules of a graph, computed.
//!
//! The sets that are still to be taken apart are kept in a vector, and so are the parts of the
//! tree, from which it is put together at the end: no call nests as deep as the tree.
#![tactic(auto)]

mod children;
mod classes;
mod decomposition;
mod nested_modules;
mod ordered;
mod outline;
mod prime;
mod quotient;
mod refined;

pub use decomposition::{decompose, decompose_within};
pub use ordered::in_order;
pub use outline::{fill_outline, graph_outline};
pub use quotient::{heads_of, make_room, push_near};
