//! Tests of texts, files, sinks and formats, by the public calls of their crates, and what a
//! program over these can promise (`clients`). They stand in a crate of their own, since a crate
//! with tests is proved a second time with them.
#![tactic(auto)]

pub mod clients;
#[cfg(test)]
mod digraph6;
#[cfg(test)]
mod dimacs;
#[cfg(test)]
mod graph6_lines;
#[cfg(test)]
mod graph6_texts;
#[cfg(test)]
mod inputs;
#[cfg(test)]
mod lines_and_numbers;
#[cfg(test)]
mod loads;
#[cfg(test)]
mod members;
#[cfg(test)]
mod sinks;
#[cfg(test)]
mod slow_files;
#[cfg(test)]
mod sparse6;
