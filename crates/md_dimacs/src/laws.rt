//! What holds of DIMACS edge files. Each function has an empty body, and its contract is the law:
//! the statement stands in `specs/Laws.antt`.
ghost use Rattle.md_dimacs.specs.Laws.{FilesAreSpelledOrFaulty, SpelledAreFaultless, TextIsRead, LimitsAgree, SpelledUnderGreater};

/// Under each limit a file has either a first fault or exactly one graph that it spells.
pub fn files_are_spelled_or_faulty()
    ensures either { FilesAreSpelledOrFaulty }
    ensures spelled { SpelledAreFaultless }
{}

/// The text that is written for a graph with fewer vertices than names is read as that graph, its
/// vertices named by their places from 1 on.
pub fn written_text_is_read()
    ensures { TextIsRead }
{}

/// A file without fault has none under a greater limit, and spells the same graph; each first fault
/// other than too many vertices is the first one there too.
pub fn limits_agree()
    ensures faults { LimitsAgree }
    ensures graph { SpelledUnderGreater }
{}
