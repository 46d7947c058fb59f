//! Tests of reports, their lines and their checks, by the public calls of their crates, and what a
//! program over these can promise (`clients`). They stand in a crate of their own, since a crate
//! with tests is proved a second time with them.
#![tactic(auto)]

#[cfg(test)]
mod certificates;
#[cfg(test)]
mod class_reports;
pub mod clients;
#[cfg(test)]
mod directed_reports;
#[cfg(test)]
mod directed_trees;
#[cfg(test)]
mod report_lines;
#[cfg(test)]
mod reports;
#[cfg(test)]
mod shortest_chains;
#[cfg(test)]
mod states;
#[cfg(test)]
mod trees;
