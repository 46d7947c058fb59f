//! Levels of a forcing class: which arcs are how many direct forcings away from its first arc; and
//! whether a forcing chain is a shortest one.
#![tactic(auto)]

mod levels;
mod shortest;

pub use levels::{Levels, levels_from};
pub use shortest::is_shortest;
