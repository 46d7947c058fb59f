//! Reads a line of a report.
ghost use Rattle.std.specs.Prelude.{◌≡◌, ◌≢◌, [], ◌∷◌, ◌++◌, codes, IfOk, MatchOption};
ghost use Rattle.md_modules.specs.declared.induced_paths.P4.{P4};
ghost use Rattle.md_script.specs.declared.edit.EditReason.{EditReason};
ghost use Rattle.md_report.specs.declared.line.Mode.{Mode};
ghost use Rattle.md_report.specs.declared.words.Word.TheVariants as words;
ghost use Rattle.md_report.specs.declared.words.Refusal.TheVariants as refusals;
ghost use Rattle.md_report.specs.Lines.{mode_word, reason_words, p4_text};
ghost use Rattle.md_report.specs.WellFormedLines.{IsNamedReason, IsNamedP4, IsLineReading};
ghost use Rattle.md_report.specs.Words.{refusal_text, NoReason, ReadsBehind, ReadsRefusal, ReadsReason, ReadsOrders, ReadsTree};

use crate::arc_reader::{arcs, chain};
use crate::mode_words::mode_of_word;
use crate::pieces::{
    behind_space, name_behind, names, path, split_before, split_number, split_piece,
};
use crate::words::{Refusal, Word, first_word, refusal_word};
use crate::{Line, Mode, Order};
use md_forcing::Arcs;
use md_graph::Memory;
use md_modules::P4;
use md_script::EditReason;
use md_tree::{Tree, TreeFault, read_tree};
use std::alloc::Global;
use thiserror::Error;

/// Why a line isn't read.
#[derive(Clone, Copy, Debug, PartialEq, Eq, Error)]
pub enum LineFault {
    /// No well-formed line has this text.
    #[error("no line of a report")]
    Syntax,
    /// Want of memory.
    #[error("out of memory")]
    Memory,
}

impl From<Memory> for LineFault {
    ghost use Rattle.std.specs.Prelude.{◌≡◌};
    ghost use Rattle.md_report.specs.declared.reader.LineFault.TheVariants.{Memory as NoMemory};

    ghost from_gives = { λ _ fault. fault ≡ NoMemory };

    fn from(_memory: Memory) -> LineFault {
        LineFault::Memory
    }
}

/// The line with this text. Errors: `Syntax` exactly where no well-formed line has it; want of
/// memory.
pub fn read_line(alloc: Global, bytes: &[u8]) -> Result<Line, LineFault>
    ensures { IsLineReading bytes.now result }
{
    let (first, rest) = split_before(bytes, b' ');
    match first_word(first) {
        Some(word) => line_behind(alloc, word, rest),
        None => Err(LineFault::Syntax),
    }
}

// The line by its first word, and what stands behind it.
fn line_behind(alloc: Global, word: Word, rest: &[u8]) -> Result<Line, LineFault>
    ensures { ReadsBehind word rest.now result }
{
    match word {
        Word::Head => head_line(rest),
        Word::Tree => Ok(Line::Tree(tree_behind(alloc, rest)?)),
        Word::Applied => ok_line(alloc, rest),
        Word::Path => match path(alloc, rest)? {
            Some(p) => Ok(Line::NotCograph(p)),
            None => Err(LineFault::Syntax),
        },
        Word::Yes => yes_line(alloc, rest),
        Word::No => no_line(alloc, rest),
        Word::End => end_line(rest),
    }
}

fn head_line(rest: &[u8]) -> Result<Line, LineFault>
    ensures { ReadsBehind words.Head rest.now result }
{
    match mode_behind(rest) {
        Some(mode) => Ok(Line::Head(mode)),
        None => Err(LineFault::Syntax),
    }
}

fn mode_behind(rest: &[u8]) -> Option<Mode>
    ensures { MatchOption result ((mode : Mode) → rest.now ≢ 32 ∷ mode_word mode)
        (λ mode. rest.now ≡ 32 ∷ mode_word mode) }
{
    let word = behind_space(rest)?;
    mode_of_word(word)
}

fn end_line(rest: &[u8]) -> Result<Line, LineFault>
    ensures { ReadsBehind words.End rest.now result }
{
    if rest.is_empty() {
        return Ok(Line::End);
    }
    Err(LineFault::Syntax)
}

// A line that says that an edit was applied: no more, or a tree.
fn ok_line(alloc: Global, rest: &[u8]) -> Result<Line, LineFault>
    ensures { ReadsBehind words.Applied rest.now result }
{
    match rest {
        [] => Ok(Line::AppliedQuiet),
        _ => Ok(Line::Applied(tree_behind(alloc, rest)?)),
    }
}

// The tree whose text stands behind a space.
fn tree_behind(alloc: Global, rest: &[u8]) -> Result<Option<Tree>, LineFault>
    ensures { ReadsTree rest.now result }
{
    let Some(text) = behind_space(rest) else {
        return Err(LineFault::Syntax);
    };
    match read_tree(alloc, text) {
        Ok(tree) => Ok(tree),
        Err(TreeFault::Syntax { .. }) => Err(LineFault::Syntax),
        Err(TreeFault::NotCanonical) => Err(LineFault::Syntax),
        Err(TreeFault::Memory) => Err(LineFault::Memory),
    }
}

// A line that says yes: arcs, or two orders, between which a slash stands.
fn yes_line(alloc: Global, rest: &[u8]) -> Result<Line, LineFault>
    ensures { ReadsBehind words.Yes rest.now result }
{
    if let Some(list) = arcs(alloc, rest)? {
        return Ok(Line::Oriented(Arcs::from_list(list)));
    }
    let (front, behind) = split_before(rest, b'/');
    match behind {
        [_, back @ ..] => orders_line(alloc, front, back),
        _ => Err(LineFault::Syntax),
    }
}

fn orders_line(alloc: Global, front: &[u8], back: &[u8]) -> Result<Line, LineFault>
    ensures { ReadsOrders front.now back.now result }
{
    let [before @ .., b' '] = front else {
        return Err(LineFault::Syntax);
    };
    let Some(first) = names(alloc, before)? else {
        return Err(LineFault::Syntax);
    };
    let Some(second) = names(alloc, back)? else {
        return Err(LineFault::Syntax);
    };
    Ok(Line::Orders(Order::from_list(first), Order::from_list(second)))
}

// A line that says no: a word and what stands behind it, or a chain.
fn no_line(alloc: Global, rest: &[u8]) -> Result<Line, LineFault>
    ensures { ReadsBehind words.No rest.now result }
{
    let Some((piece, behind)) = split_piece(rest) else {
        return Err(LineFault::Syntax);
    };
    if let Some(word) = refusal_word(piece) {
        return refusal_line(alloc, word, behind);
    }
    match chain(alloc, rest)? {
        Some(chain) => Ok(Line::Forced(chain)),
        None => Err(LineFault::Syntax),
    }
}

// The line by the word behind `no`, and what stands behind that.
fn refusal_line(alloc: Global, word: Refusal, behind: &[u8]) -> Result<Line, LineFault>
    ensures { ReadsRefusal word behind.now result }
{
    match word {
        Refusal::Same => reason_line(Refusal::Same, behind),
        Refusal::There => reason_line(Refusal::There, behind),
        Refusal::Absent => reason_line(Refusal::Absent, behind),
        Refusal::Vertex => reason_line(Refusal::Vertex, behind),
        Refusal::Taken => reason_line(Refusal::Taken, behind),
        Refusal::Path => match path(alloc, behind)? {
            Some(p) => Ok(Line::RefusedP4(p)),
            None => Err(LineFault::Syntax),
        },
        Refusal::Graph => match chain(alloc, behind)? {
            Some(chain) => Ok(Line::ForcedIn(chain)),
            None => Err(LineFault::Syntax),
        },
        Refusal::Complement => match chain(alloc, behind)? {
            Some(chain) => Ok(Line::ForcedInComplement(chain)),
            None => Err(LineFault::Syntax),
        },
        Refusal::Edit => group_line(alloc, behind),
        Refusal::Undo => undo_line(behind),
    }
}

// The refusal for the reason with this word, and what stands behind the word.
fn reason_line(word: Refusal, behind: &[u8]) -> Result<Line, LineFault>
    ensures { ReadsReason word behind.now result }
{
    match reason_behind(word, behind) {
        Some(reason) => Ok(Line::Refused(reason)),
        None => Err(LineFault::Syntax),
    }
}

// The reason with this word, by what stands behind the word.
fn reason_behind(word: Refusal, behind: &[u8]) -> Option<EditReason>
    ensures { MatchOption result (NoReason word behind.now) (λ reason.
        IsNamedReason reason × (refusal_text word ++ behind.now ≡ reason_words reason)) }
{
    match word {
        Refusal::Same => at_end(behind, EditReason::Same),
        Refusal::There => at_end(behind, EditReason::EdgeThere),
        Refusal::Absent => at_end(behind, EditReason::EdgeAbsent),
        Refusal::Vertex => match name_behind(behind) {
            Some(v) => Some(EditReason::NoVertex(v)),
            None => None,
        },
        Refusal::Taken => match name_behind(behind) {
            Some(v) => Some(EditReason::NameTaken(v)),
            None => None,
        },
        Refusal::Path => None,
        Refusal::Graph => None,
        Refusal::Complement => None,
        Refusal::Edit => None,
        Refusal::Undo => None,
    }
}

// The reason, where nothing is left.
fn at_end(behind: &[u8], reason: EditReason) -> Option<EditReason>
    ensures { MatchOption result (behind.now ≢ []) (λ found.
        (found ≡ reason) × (behind.now ≡ [])) }
{
    if behind.is_empty() {
        return Some(reason);
    }
    None
}

// The line that there is nothing to undo.
fn undo_line(behind: &[u8]) -> Result<Line, LineFault>
    ensures { ReadsRefusal refusals.Undo behind.now result }
{
    if behind.is_empty() {
        return Ok(Line::NothingToUndo);
    }
    Err(LineFault::Syntax)
}

// The refusal of a group: the number of an edit, and a reason or an induced P4.
fn group_line(alloc: Global, behind: &[u8]) -> Result<Line, LineFault>
    ensures { ReadsRefusal refusals.Edit behind.now result }
{
    let Some((number, tail)) = split_number(behind) else {
        return Err(LineFault::Syntax);
    };
    let Some(text) = behind_space(tail) else {
        return Err(LineFault::Syntax);
    };
    if let Some(reason) = reason_of_text(text) {
        return Ok(Line::GroupRefused(number, reason));
    }
    match path_of_text(alloc, text)? {
        Some(p) => Ok(Line::GroupRefusedP4(number, p)),
        None => Err(LineFault::Syntax),
    }
}

// The reason with this text.
fn reason_of_text(text: &[u8]) -> Option<EditReason>
    ensures { MatchOption result
        ((reason : EditReason) → IsNamedReason reason → text.now ≢ reason_words reason)
        (λ reason. IsNamedReason reason × (text.now ≡ reason_words reason)) }
{
    let (piece, behind) = split_before(text, b' ');
    match refusal_word(piece) {
        Some(word) => reason_behind(word, behind),
        None => None,
    }
}

// The induced P4 whose four names stand behind its word.
fn path_of_text(alloc: Global, text: &[u8]) -> Result<Option<P4>, Memory>
    ensures { IfOk result (λ found. MatchOption found
        ((p : P4) → IsNamedP4 p → text.now ≢ codes "p4" ++ p4_text p)
        (λ p. IsNamedP4 p × (text.now ≡ codes "p4" ++ p4_text p))) }
{
    match text {
        [b'p', b'4', behind @ ..] => path(alloc, behind),
        _ => Ok(None),
    }
}
