//! What holds of digraph6 files. Each function has an empty body, and its contract is the law: the
//! statement stands in `specs/Laws.antt`.
ghost use Rattle.md_digraph6.specs.Laws.{SpellsItsDigraphsOrNothing, SpelledAreItsDigraphs, DigraphsAreDigraphs};

/// A file has either a first fault or one list of directed graphs that it spells.
pub fn directed_files_are_spelled_or_faulty()
    ensures either { SpellsItsDigraphsOrNothing }
    ensures spelled { SpelledAreItsDigraphs }
    ensures digraphs { DigraphsAreDigraphs }
{}
