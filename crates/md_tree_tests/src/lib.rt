//! Tests of trees, cotrees and decompositions, by the public calls of their crates, and what a
//! program over these can promise (`clients`). They stand in a crate of their own, since a crate
//! with tests is proved a second time with them.
#![tactic(auto)]

pub mod clients;
#[cfg(test)]
mod cotrees;
#[cfg(test)]
mod decompositions;
#[cfg(test)]
mod directed_texts;
#[cfg(test)]
mod directed_trees;
#[cfg(test)]
mod edge_edits;
#[cfg(test)]
mod edit_histories;
#[cfg(test)]
mod local_changes;
#[cfg(test)]
mod outlines;
#[cfg(test)]
mod tree_reading;
#[cfg(test)]
mod tree_texts;
#[cfg(test)]
mod vertex_deletions;
#[cfg(test)]
mod vertex_insertions;
