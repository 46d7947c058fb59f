//! graph6 and sparse6: files of one line a graph, read, and written in graph6.
//!
//! `scan` says whether a whole file is without fault, or names its first one. `Lines` then reads
//! the graphs of such a file one after the other, into graphs of as many words a row as the next
//! one needs, and `write` writes one graph as a line.
#![tactic(auto)]

mod body;
mod fault;
mod file;
mod file_line;
pub mod laws;
mod line;
pub mod parts;
mod reader;
mod sparse;
mod writer;

pub use fault::{G6Fault, G6Kind};
pub use file::scan;
pub use reader::Lines;
pub use writer::write;
