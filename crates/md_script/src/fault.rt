//! What may be wrong with a script.

use thiserror::Error;

/// What is wrong with a line, or at the end. Of a line the first fault is named, in the order of
/// `specs/Tokens.antt`.
#[derive(Clone, Copy, Debug, PartialEq, Eq)]
pub enum ScriptKind {
    /// The first field is none of `+e`, `-e`, `+v`, `-v`, `undo`, `begin` and `commit`.
    UnknownEdit = 1,
    /// There are more or fewer fields than the word takes.
    FieldCount,
    /// A field is no number of 1 to 18 digits.
    BadNumber,
    /// A number isn't below the number of names.
    NameTooLarge,
    /// As many lines that count as a script may have stood before this line.
    TooManyEdits,
    /// `begin` or `undo` inside a group.
    Nested = 7,
    /// `commit` outside a group.
    NoGroup,
    /// A group is open at the end, which is named as the line behind the last.
    OpenGroup,
}

/// Why a script isn't read.
#[derive(Clone, Copy, Debug, PartialEq, Eq, Error)]
pub enum ScriptFault {
    /// The first fault of the script.
    #[error("line {line} is faulty")]
    Bad {
        /// What is wrong.
        kind: ScriptKind,
        /// The number of the line, counted from 1; every line counts.
        line: u64,
    },
    /// Want of memory.
    #[error("out of memory")]
    Memory,
}
