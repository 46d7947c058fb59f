//! Names and graphs: sets of names as bit words in place, and undirected graphs without loops and
//! parallel edges as one row of neighbours a name.
#![tactic(auto)]

mod copies;
mod graph;
pub mod laws;
mod listed;
mod members;
mod names;
mod steps;
mod transposition;
mod words;

pub use copies::copies_of;
pub use graph::{Graph, GraphOf, empty_rows, insert_in_rows};
pub use members::Members;
pub use names::{Names, Set};
use std::alloc::{AllocError, AllocFailed};
pub use steps::Steps;
pub use words::lowest;

/// How many names there are: a name is a number below it.
pub const NAMES: u32 = 16384;

/// How many words of 64 bits hold one bit a name.
pub const WORDS: usize = 256;

/// Want of memory. `?` makes it of what a `Vec` answers then.
#[derive(Clone, Copy, Debug, PartialEq, Eq)]
pub struct Memory;

impl From<AllocError> for Memory {
    fn from(_error: AllocError) -> Memory {
        Memory
    }
}

impl<T: Drop> From<AllocFailed<T>> for Memory {
    fn from(_error: AllocFailed<T>) -> Memory {
        Memory
    }
}
