//! Modular decomposition of directed graphs: the tree of strong modules, computed.
//!
//! The sets that are still to be taken apart are kept in a vector, and so are the parts of the
//! tree, from which it is put together at the end: no call nests as deep as the tree.
#![tactic(auto)]

mod arc_pairs;
mod children;
mod components;
mod decomposition;
mod order_parts;
mod order_search;
mod prime;

pub use decomposition::decompose_directed;
