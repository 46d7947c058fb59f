//! Judges what reports say of graphs, from the graphs alone: it stands on no crate that computes
//! the answers.
#![tactic(auto)]

mod answer;
mod arc_text;
mod certificates;
mod check;
mod checker;
mod class_test;
mod cograph_test;
mod due_graph;
mod fixed_lines;
mod graph_checker;
mod head_pairs;
mod item_answers;
mod item_texts;
mod judgements;
pub mod laws;
mod line_judge;
mod lone_modules;
mod node_fit;
mod report_line;
mod session_checker;
mod state_text;
mod text_fit;
mod text_graph;
mod text_walk;

pub use answer::CheckAnswer;
pub use certificates::{is_forcing_chain, is_least_edge_orientation, realise};
pub use check::{check_graphs, check_session};
pub use checker::Checker;
pub use line_judge::{LineJudge, judge};
pub use lone_modules::are_alone;
pub use text_fit::fits;
pub use text_graph::TextGraph;
pub use text_walk::is_text_by_rows;
