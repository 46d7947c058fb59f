//! Compares a text with the arcs of a set. No list of them is made.
ghost use Rattle.std.specs.Prelude.{◌≡◌, ◌++◌, ◌<◌, ◌≤◌, length, take, IfOk, OnOk, IsTrue};
ghost use Rattle.md_graph.specs.NameSet.{ascending};
ghost use Rattle.md_text.specs.Pieces.{AreNumerals};
ghost use Rattle.md_forcing.specs.declared.arc.Arc.{Arc};
ghost use Rattle.md_forcing.specs.ArcSet.{HasArc};
ghost use Rattle.md_comparability.specs.Listed.{arcs_below};
ghost use Rattle.md_report.specs.Lines.{arcs_text};

use md_blocks::{Compared, Differs, Target, write_members};
use md_forcing::ArcSetOf;
use md_graph::Memory;
use md_text::{Chunk, Numerals, Piece, number_piece, piece_behind};
use std::alloc::Global;

// Whether the text spells the arcs of the set in ascending order of tail, then head, a space before
// each; a false says nothing. Condition: the heads are below the number below which the tails are.
// Errors: want of memory.
pub(crate) fn spells_arcs<const W: usize>(
    alloc: Global,
    set: &ArcSetOf<W>,
    text: &[u8],
) -> Result<bool, Memory>
    requires { (a : Arc) → HasArc set.now a → a.head < length set.now }
    ensures { IfOk result (λ is. IsTrue is
        → text.now ≡ arcs_text (arcs_below set.now (length set.now))) }
{
    let mut names = Numerals::new(alloc);
    names.spell(set.size())?;
    let mut compared = Compared::new(text);
    match compare_arcs(set, names.as_slice(), &mut compared) {
        Ok(()) => Ok(compared.same == text.len()),
        Err(_) => Ok(false),
    }
}

// Compares the arcs of the set.
fn compare_arcs<const W: usize>(
    set: &ArcSetOf<W>,
    names: &[Piece],
    compared: &mut Compared<'_>,
) -> Result<(), Differs>
    requires heads { (a : Arc) → HasArc set.now a → a.head < length set.now }
    requires names { AreNumerals names.now }
    requires count { length set.now ≤ length names.now }
    ensures text { OnOk result (compared.new.text.now ≡ compared.old.text.now) }
    ensures same { OnOk result (take compared.new.same compared.new.text.now
        ≡ take compared.old.same compared.old.text.now
        ++ arcs_text (arcs_below set.now (length set.now))) }
{
    let mut chunk = Chunk::new();
    for tail in 0..set.size() {
        let start = piece_behind(b' ', number_piece(tail, b'>'));
        let heads = set.heads(tail);
        write_members::<Differs, Compared<'_>, W>(heads, 0, start, names, &mut chunk, compared)?;
    }
    compared.take_chunk(&mut chunk)
}
