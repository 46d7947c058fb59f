//! Tests of the top call: runs over files and sinks in memory, and what a program over it can
//! promise (`clients`). They stand in a crate of their own, since a crate with tests is proved a
//! second time with them.
#![tactic(auto)]

pub mod clients;
#[cfg(test)]
mod runs;
