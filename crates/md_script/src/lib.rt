//! Scripts of edits: read from bytes, and applied to a graph one edit after the other.
//!
//! `read_script` reads a whole script, or names its first fault; `reason` says why an edit can't be
//! applied to a graph, and `apply` applies one that can. `inverse` keeps what `take_back` wants to
//! give the graph before it again.
#![tactic(auto)]

mod bounds;
mod changes;
mod draft;
mod edit;
mod fault;
mod groups;
mod history;
mod item;
pub mod laws;
mod line;
mod neighbours;
mod past;
mod reader;
mod script;
mod token;
mod undo;
mod word;

pub use changes::{apply, reason};
pub use edit::{Edit, EditReason};
pub use fault::{ScriptFault, ScriptKind};
pub use groups::{apply_all, back_through, take_item_back};
pub use history::{History, HistoryOf};
pub use item::{Edits, Item};
pub use neighbours::Neighbours;
pub use past::{Past, PastOf};
pub use reader::read_script;
pub use script::Script;
pub use undo::{again, inverse, take_back};

/// How many edits a script may have.
pub const EDITS: u64 = 200_000;
