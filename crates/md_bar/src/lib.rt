//! The lines of reports of sessions on trivially perfect graphs and on threshold graphs.
#![tactic(auto)]

mod class_reader;
mod class_writer;

pub use class_reader::read_class;
pub use class_writer::write_class;
pub use md_bar_tree::{Bar, BarKind, Class, bar_of, is_bar};
use md_report::Line;

/// A line of a report of a session on a class of graphs.
#[derive(Drop)]
pub enum ClassLine {
    /// The first line: the class of the session.
    Head(Class),
    /// A line as other sessions have it: a tree, that an item was applied, with its tree, or was
    /// refused for a reason, that there is nothing to undo, or the end.
    Plain(Line),
    /// The first graph has this bar.
    First(Bar),
    /// The edit was refused, since the graph after it has this bar, and the graph stays.
    Refused(Bar),
    /// A group was refused, since the graph after its edit with this number, counted from 1, has
    /// this bar, and the graph stays.
    GroupRefused(u64, Bar),
}
