//! Modules of an undirected graph: their definitions and laws, and the searches for them.
#![tactic(auto)]

mod compact_set;
mod component_search;
mod induced_paths;
pub mod laws;
mod module_search;
mod paths_with_both;
mod refinement;
mod shared;

pub use compact_set::CompactSet;
pub use component_search::{co_component, co_connected, component, connected};
pub use induced_paths::{P4, find_p4, find_p4_with, is_p4};
pub use module_search::{back, closure, closure_in, grow, is_module};
pub use paths_with_both::find_p4_with_both;
pub use refinement::{cut_classes, maximal_modules, one_class};
