//! Ordered partitions of sets of names under partition refinement: classes in order, each of which
//! can be cut in two by touched names. No change of a partition takes memory.
#![tactic(auto)]

mod partition;
mod places;

pub use partition::Partition;
