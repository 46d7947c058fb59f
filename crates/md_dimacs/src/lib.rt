//! DIMACS edge files: one graph a file, read and written.
//!
//! `read` reads a whole file whose names are below a limit, or names its first fault; `write`
//! writes a graph as a file.
#![tactic(auto)]

mod fault;
pub mod laws;
mod line;
mod reader;
mod spelling;
mod writer;

pub use fault::{DimacsFault, DimacsKind};
pub use reader::read;
pub use writer::write;
