//! Linked lists in place: places with a kind, an ordered list of children, a tally and a note, and
//! one list of the places that are marked. All memory is taken when they are made.
#![tactic(auto)]

mod kinds;
pub mod laws;
mod lists;
mod span;

pub use kinds::PlaceKind;
pub use lists::Lists;

/// How many places there are: a place is a number below it.
pub const PLACES: u32 = 32800;
