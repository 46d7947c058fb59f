//! Directed graphs: one row of successors and one of predecessors a name, the least and the maximal
//! modules, and the components of both kinds.
#![tactic(auto)]

mod back_search;
mod closure_search;
mod components;
mod digraph;
pub mod laws;
mod refinement;
mod shared;

pub use back_search::directed_back;
pub use closure_search::{directed_closure, directed_closure_in, directed_grow};
pub use components::{parallel_component, series_component};
pub use digraph::{Digraph, DigraphOf};
pub use refinement::directed_maximal_modules;

/// How many names directed graphs have: a vertex is a number below it.
pub const DIRECTED_NAMES: u32 = 4096;

/// How many words of 64 bits hold one bit for each name of a directed graph.
pub const DIRECTED_WORDS: usize = 64;
