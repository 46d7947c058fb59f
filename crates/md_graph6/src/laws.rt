//! What holds of files of graph6 and sparse6 lines. Each function has an empty body, and its
//! contract is the law: the statement stands in `specs/Laws.antt`.
ghost use Rattle.md_graph6.specs.Laws.{SpellsItsGraphsOrNothing, SpelledAreItsGraphs, GraphsAreGraphs, LimitsAgree, EndedLinesSpell, EndedLineSpells, TextSpells};

/// Under each limit a file has either a first fault or one list of graphs that it spells.
pub fn files_are_spelled_or_faulty()
    ensures either { SpellsItsGraphsOrNothing }
    ensures spelled { SpelledAreItsGraphs }
    ensures graphs { GraphsAreGraphs }
{}

/// A file without fault has none under a greater limit, and each first fault other than too many
/// vertices is the first one there too.
pub fn limits_agree()
    ensures { LimitsAgree }
{}

/// Lines that are written one after the other spell the graphs of each, and no others.
pub fn written_lines_spell()
    ensures all { EndedLinesSpell }
    ensures one { EndedLineSpells }
    ensures text { TextSpells }
{}
