//! Tests of scripts, bars of classes and sessions, by the public calls of their crates, and what a
//! program over these can promise (`clients`). They stand in a crate of their own, since a crate
//! with tests is proved a second time with them.
#![tactic(auto)]

#[cfg(test)]
mod bars;
#[cfg(test)]
mod class_lines;
#[cfg(test)]
mod class_sessions;
pub mod clients;
#[cfg(test)]
mod cograph_paths;
#[cfg(test)]
mod graphs;
#[cfg(test)]
mod scripts;
#[cfg(test)]
mod sessions;
