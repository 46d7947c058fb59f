//! The laws of reports, each the contract of a function that does nothing.

ghost use Rattle.std.specs.Prelude.{◌≡◌};
ghost use Rattle.md_report.specs.Laws.{LinesLeadIfFirst, GraphReportsHaveLines, ShortestReportsCompare, SessionReportsAreRuns, CographRunsApplyAlike, FrontsBeginReports, OneLineOneText};

use crate::ORIENTED;

// What is known of the lines of orientations, for readers of reports.
pub use md_comparability::laws::{
    chain_has_shortest, chain_or_orientation, classes_are_transitive, least_edge_is_transitive,
    one_least_edge_orientation, orders_if_no_chain, orientations_give_orders, sides_meet_premises,
    triangle_lemma,
};

/// Orientations are reported of graphs of at most 4,096 names.
pub fn number_of_names_oriented()
    ensures number { ORIENTED ≡ 4096 }
{}

/// Lines are the first lines of a whole report exactly where each may come at the place to which
/// those before it lead.
pub fn lines_lead_if_first()
    ensures { LinesLeadIfFirst }
{}

/// A whole report over graphs is the head, one line for each graph, in their order, and the end.
pub fn graph_reports_have_lines()
    ensures { GraphReportsHaveLines }
{}

/// A valid report in mode shortest is one in mode compare.
pub fn shortest_reports_compare()
    ensures { ShortestReportsCompare }
{}

/// A whole report of a session is the head, the line of the first state, the lines of the run over
/// the script, and the end; in mode quiet the head, the lines of the run, the tree of the last
/// graph, and the end, or, where the first graph has an induced P4, the head, that, and the end.
pub fn session_reports_are_runs()
    ensures { SessionReportsAreRuns }
{}

/// Two runs over the same items from the same state, each in mode cograph or quiet, apply the same
/// items, and have the same state behind each.
pub fn cograph_runs_apply_alike()
    ensures apply_alike { CographRunsApplyAlike }
{}

/// A text begins a whole report exactly where it is a front by places: the text of lines that lead
/// to a place, and the beginning of a line that may come there.
pub fn fronts_begin_reports()
    ensures { FrontsBeginReports }
{}

/// Each text is of one line at most.
pub fn one_line_one_text()
    ensures { OneLineOneText }
{}
