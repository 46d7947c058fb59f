//! Lines of a script as tokens.
ghost use Rattle.std.specs.Prelude.{◌≡◌, [], None, Some, IfOk, IfErr, OnOk};
ghost use Rattle.md_text.specs.Fields.{fields};
ghost use Rattle.md_script.specs.Line.{word_of};
ghost use Rattle.md_script.specs.Read.{IsRefusal};
ghost use Rattle.md_script.specs.Tokens.{Seen, is_counted, lone_fault, token_by, fault_by, word_fault};

use crate::line::{Refusal, read_edit};
use crate::word::{LineWord, line_word};
use crate::{EDITS, Edit, ScriptKind};
use md_graph::Names;
use md_text::split_field;
use std::alloc::Global;

// What a line says of the items.
#[derive(Drop)]
pub(crate) enum Token {
    // This edit is the next one.
    Edit(Edit),
    // An undo is the next item.
    Undo,
    // A group begins.
    Begin,
    // The group ends.
    Commit,
}

// Reads a line by its first field and what stands behind it; `counted` lines that count stood
// before, and it stands `inside` a group or outside. Only the neighbours of a new vertex take
// memory. They are gathered in `names`; what it held is lost.
pub(crate) fn read_token(
    alloc: Global,
    counted: u64,
    inside: bool,
    first: &[u8],
    rest: &[u8],
    names: &mut Names,
) -> Result<Token, Refusal>
    ensures token { IfOk result (λ token. token_by (word_of first.now) (fields rest.now)
        ≡ Some token) }
    ensures faultless { OnOk result (word_fault (record { counted = counted; inside = inside })
        (word_of first.now) (fields rest.now) ≡ None) }
    ensures fault { IfErr result (IsRefusal (word_fault
        (record { counted = counted; inside = inside }) (word_of first.now) (fields rest.now))) }
{
    let word = line_word(first);
    if counted >= EDITS && is_counted(word) {
        return Err(Refusal::Bad(ScriptKind::TooManyEdits));
    }
    read_word(
        alloc,
        inside,
        word.ok_or(ScriptKind::UnknownEdit)?,
        rest,
        names,
    )
}

// Whether the word counts: each does but the end of a group.
fn is_counted(word: Option<LineWord>) -> bool
    ensures { result ≡ is_counted word }
{
    match word {
        Some(LineWord::Commit) => false,
        _ => true,
    }
}

// Reads a line by its word and what stands behind it.
fn read_word(
    alloc: Global,
    inside: bool,
    word: LineWord,
    rest: &[u8],
    names: &mut Names,
) -> Result<Token, Refusal>
    ensures token { IfOk result (λ token. token_by (Some word) (fields rest.now) ≡ Some token) }
    ensures faultless { OnOk result (fault_by inside (Some word) (fields rest.now) ≡ None) }
    ensures fault { IfErr result (IsRefusal (fault_by inside (Some word) (fields rest.now))) }
{
    match word {
        LineWord::Edit(word) => {
            let edit = read_edit(alloc, word, rest, names)?;
            Ok(Token::Edit(edit))
        }
        LineWord::Undo => {
            end_line(rest, inside, ScriptKind::Nested)?;
            Ok(Token::Undo)
        }
        LineWord::Begin => {
            end_line(rest, inside, ScriptKind::Nested)?;
            Ok(Token::Begin)
        }
        LineWord::Commit => {
            end_line(rest, !inside, ScriptKind::NoGroup)?;
            Ok(Token::Commit)
        }
    }
}

// Looks at what stands behind a word that takes no field: a field, or else the word is `wrong`
// here, for which the kind stands.
fn end_line(rest: &[u8], wrong: bool, kind: ScriptKind) -> Result<(), ScriptKind>
    ensures lone { OnOk result (fields rest.now ≡ []) }
    ensures faultless { OnOk result (lone_fault wrong kind (fields rest.now) ≡ None) }
    ensures fault { IfErr result (λ found. lone_fault wrong kind (fields rest.now) ≡ Some found) }
{
    if split_field(rest).is_some() {
        return Err(ScriptKind::FieldCount);
    }
    if wrong {
        return Err(kind);
    }
    Ok(())
}
