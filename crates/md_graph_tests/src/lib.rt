//! Tests of names, graphs, directed graphs, modules, lists, partitions, forcing and orientations,
//! by the public calls of their crates, and what a program over these can promise (`clients`). They
//! stand in a crate of their own, since a crate with tests is proved a second time with them.
#![tactic(auto)]

#[cfg(test)]
mod chains;
pub mod clients;
#[cfg(test)]
mod digraphs;
#[cfg(test)]
mod edge_lists;
#[cfg(test)]
mod edge_walks;
#[cfg(test)]
mod graphs;
#[cfg(test)]
mod induced_paths;
#[cfg(test)]
mod levels;
#[cfg(test)]
mod lists_in_place;
#[cfg(test)]
mod module_searches;
#[cfg(test)]
mod names;
#[cfg(test)]
mod ordered_partitions;
#[cfg(test)]
mod orientations;
#[cfg(test)]
mod paths_with_both;
#[cfg(test)]
mod permutation_models;
#[cfg(test)]
mod step_counters;
