//! The inputs of the program: a graph file in one of its formats, and a script; what each spells,
//! and its first fault.
#![tactic(auto)]

mod fault;
mod format;
mod graphs;
mod inputs;
pub mod laws;
mod room;

pub use fault::{Fault, InputStop};
pub use format::Format;
pub use graphs::Graphs;
pub use inputs::{SessionInputs, session_inputs};
pub use room::{BROAD, GraphBySize, Room};
