//! Answers on orientations: the transitive orientation that the least edges choose, or a forcing
//! chain; and on permutation models: two orders, or a forcing chain of the graph or its complement.
#![tactic(auto)]

mod orientation;
mod permutation;

pub use orientation::{Verdict, orient};
pub use permutation::{PermVerdict, model};
