//! Gathers texts of the members of a set of names, 64 names at a time.
//!
//! `write_members` gathers a piece that is the same for all members, and behind it the one at the
//! index of each, in a `Chunk` before a `Target`: a text that grows, or one with which the bytes
//! are compared. The lines of a vertex in an edge file are such a text, and so are the pairs of a
//! child of a prime node. `put_two` gathers two pieces, and `make_room` makes room for more.
#![tactic(auto)]

mod blocks;
mod target;
mod writer;

pub use target::{Compared, Differs, Target};
pub use writer::{make_room, put_two, write_members};
