//! digraph6: files of one line a directed graph, read.
//!
//! `scan_directed` says whether a whole file is without fault, or names its first one.
//! `DirectedLines` then reads the directed graphs of such a file one after the other, into ones of
//! as many words a row as the next one needs.
#![tactic(auto)]

mod body;
mod file;
pub mod laws;
mod line;
mod reader;
mod room;

pub use file::scan_directed;
pub use reader::DirectedLines;
pub use room::{DigraphBySize, DirectedRoom};
