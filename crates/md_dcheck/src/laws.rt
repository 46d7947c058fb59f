//! The laws of reports of directed trees, each the contract of a function that does nothing.
ghost use Rattle.md_dcheck.specs.DirectedLaws.{DirectedReportsHaveTrees, RightTreesAreAccepted, OneDirectedAnswer, DirectedLinesLeadIfFirst, DirectedFrontsBeginReports, OneDirectedLineOneText};

/// A whole report over directed graphs is the head, a line with the tree of each, in their order,
/// and the end.
pub fn directed_reports_have_trees()
    ensures law { DirectedReportsHaveTrees }
{}

/// The report of the right trees is accepted.
pub fn right_trees_are_accepted()
    ensures law { RightTreesAreAccepted }
{}

/// Bytes have one answer at most, as a report from a place on.
pub fn one_directed_answer()
    ensures law { OneDirectedAnswer }
{}

/// Lines are the first lines of a whole report exactly where each may come at the place to which
/// those before it lead.
pub fn directed_lines_lead_if_first()
    ensures law { DirectedLinesLeadIfFirst }
{}

/// A text begins a whole report exactly where it is a front by places: the text of lines that lead
/// to a place, and the beginning of a line that may come there.
pub fn directed_fronts_begin_reports()
    ensures law { DirectedFrontsBeginReports }
{}

/// Each text is of one line at most.
pub fn one_directed_line_one_text()
    ensures law { OneDirectedLineOneText }
{}
