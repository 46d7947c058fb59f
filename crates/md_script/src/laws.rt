//! What holds of scripts and edits. Each function has an empty body, and its contract is the law:
//! the statement stands in `specs/Laws.antt`.
ghost use Rattle.std.specs.Prelude.{◌≡◌};
ghost use Rattle.md_text.specs.Spelling.{SpelledOrFaulty, SpelledHasNoFault};
ghost use Rattle.md_script.specs.File.{SpellsScript, first_fault};
ghost use Rattle.md_script.specs.Laws.{SpelledHasNames, GivesGraph, NamesLeast, InversesTakeBack};

use crate::EDITS;

/// How many edits a script may have.
pub fn edits_of_a_script()
    ensures { EDITS ≡ 200000 }
{}

/// Bytes either spell exactly one script or have a first fault, and not both; the names of a script
/// that is spelled are below `NAMES`.
pub fn scripts_are_spelled_or_faulty()
    ensures either { SpelledOrFaulty SpellsScript first_fault }
    ensures spelled { SpelledHasNoFault SpellsScript first_fault }
    ensures names { SpelledHasNames }
{}

/// An edit that can be applied to a graph gives a graph, and the neighbour that speaks against an
/// edit is the least of those that are no vertices.
pub fn edits_give_graphs()
    ensures graph { GivesGraph }
    ensures least { NamesLeast }
{}

/// The inverse of an edit that can be applied to a graph can be applied to the graph behind it, has
/// names below the same limit, and gives the first graph again.
pub fn inverses_take_back()
    ensures { InversesTakeBack }
{}
