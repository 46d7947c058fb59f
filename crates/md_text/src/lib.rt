//! What every text format shares: lines, fields, numbers and decimal digits.
//!
//! A text is a slice of bytes. `split_line` and `split_field` take one line or one field off the
//! front, `number` reads a field, and `push_number` writes a number. A `Piece` is a text of a few
//! bytes that is made once and then copied whole, many times; `Numerals` are the pieces of the
//! lowest numbers. Pieces are gathered in a `Chunk`, which is appended to a text when it is full.
//! Only `push_number`, `Numerals` and what appends a chunk take memory.
#![tactic(auto)]

mod chunk;
mod cut;
mod digits;
mod fields;
mod front;
pub mod laws;
mod numerals;
mod piece;
mod spelling;

pub use chunk::{CHUNK_SIZE, Chunk};
pub use cut::{split_field, split_line, split_number, without_return};
pub use digits::{DIGITS, number, push_decimal, push_number};
pub use fields::{one_field, three_fields, two_numbers};
pub use front::{skip_byte, small_number};
pub use numerals::Numerals;
pub use piece::Piece;
pub use spelling::{digits_piece, number_piece, piece_behind};
