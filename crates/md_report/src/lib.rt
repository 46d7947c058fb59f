//! Reports: their lines and texts, and what may come at each place of a report.
#![tactic(auto)]

mod arc_reader;
mod arc_writer;
pub mod laws;
mod line;
mod made;
mod mode_words;
mod pieces;
mod reader;
mod words;
mod writer;

pub use line::{GraphMode, Line, Mode, ORIENTED, SessionMode};
pub use made::made_p4;
pub use md_comparability::Order;
pub use mode_words::{class_of_word, class_word, mode_of_word, mode_word};
pub use pieces::{behind_space, names, split_number};
pub use reader::{LineFault, read_line};
pub use writer::{
    push_edit, push_names, push_tree_by_rows, write_applied, write_line, write_session_head,
    write_tree,
};
