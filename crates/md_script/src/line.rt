//! One line of an edit.
ghost use Rattle.std.specs.Prelude.{◌≡◌, ◌<◌, ◌∷◌, [], None, Some, IfOk, IfErr, OnOk};
ghost use Rattle.std.specs.Option.{option_or};
ghost use Rattle.md_text.specs.Fields.{fields};
ghost use Rattle.md_script.specs.declared.line.Refusal.TheVariants.{Bad, Memory as NoMemory};
ghost use Rattle.md_script.specs.Line.{name_in, number_fault, names_written, names_fault, count_fault, vertex_fault, edit_by, fault_with};
ghost use Rattle.md_script.specs.Read.{NamesSet, NamesVertex, IsRefusal};

use crate::word::EditWord;
use crate::{Edit, Neighbours, ScriptKind};
use md_graph::{Memory, NAMES, Names};
use md_text::{number, one_field, split_number, two_numbers};
use std::alloc::{AllocFailed, Global};

// Why a line isn't read. `?` makes it of a fault, and of want of memory.
#[derive(Clone, Copy)]
pub(crate) enum Refusal {
    // Its first fault.
    Bad(ScriptKind),
    // Want of memory.
    Memory,
}

impl From<ScriptKind> for Refusal {
    ghost from_gives = { λ kind refusal. refusal ≡ Bad kind };

    fn from(kind: ScriptKind) -> Refusal {
        Refusal::Bad(kind)
    }
}

impl From<Memory> for Refusal {
    ghost from_gives = { λ _ refusal. refusal ≡ NoMemory };

    fn from(_memory: Memory) -> Refusal {
        Refusal::Memory
    }
}

impl<T: Drop> From<AllocFailed<T>> for Refusal {
    ghost from_gives = { λ _ refusal. refusal ≡ NoMemory };

    fn from(_failed: AllocFailed<T>) -> Refusal {
        Refusal::Memory
    }
}

// Reads the line of an edit by its word and what stands behind it. Only the neighbours of a new
// vertex take memory. They are gathered in `names`; what it held is lost.
pub(crate) fn read_edit(
    alloc: Global,
    word: EditWord,
    rest: &[u8],
    names: &mut Names,
) -> Result<Edit, Refusal>
    ensures edit { IfOk result (λ edit. edit_by word (fields rest.now) ≡ Some edit) }
    ensures faultless { OnOk result (fault_with word (fields rest.now) ≡ None) }
    ensures fault { IfErr result (IsRefusal (fault_with word (fields rest.now))) }
{
    match word {
        EditWord::PlusEdge => {
            let (u, v) = read_ends(rest)?;
            Ok(Edit::AddEdge { u, v })
        }
        EditWord::MinusEdge => {
            let (u, v) = read_ends(rest)?;
            Ok(Edit::DelEdge { u, v })
        }
        EditWord::PlusVertex => {
            let x = read_new_vertex(rest, names)?;
            let neighbours = Neighbours::new(alloc, names)?;
            Ok(Edit::AddVertex { x, neighbours })
        }
        EditWord::MinusVertex => {
            let x = read_vertex(rest)?;
            Ok(Edit::DelVertex { x })
        }
    }
}

// Reads the two names behind `+e` or `-e`.
fn read_ends(rest: &[u8]) -> Result<(u32, u32), ScriptKind>
    ensures names { IfOk result (λ p. names_written (fields rest.now) ≡ Some (p.0 ∷ p.1 ∷ [])) }
    ensures faultless { OnOk result (count_fault 2 (fields rest.now) ≡ None) }
    ensures fault { IfErr result (λ kind. count_fault 2 (fields rest.now) ≡ Some kind) }
{
    match two_numbers(rest) {
        Some((first, second)) => checked_ends(first, second),
        None => Err(ScriptKind::FieldCount),
    }
}

// Reads the name behind `-v`.
fn read_vertex(rest: &[u8]) -> Result<u32, ScriptKind>
    ensures names { IfOk result (λ x. names_written (fields rest.now) ≡ Some (x ∷ [])) }
    ensures faultless { OnOk result (count_fault 1 (fields rest.now) ≡ None) }
    ensures fault { IfErr result (λ kind. count_fault 1 (fields rest.now) ≡ Some kind) }
{
    match one_field(rest) {
        Some(field) => checked_name(number(field)),
        None => Err(ScriptKind::FieldCount),
    }
}

// Reads the names behind `+v`: the new vertex, and its neighbours into `names`.
fn read_new_vertex(rest: &[u8], names: &mut Names) -> Result<u32, ScriptKind>
    ensures names { IfOk result (λ x. NamesVertex (fields rest.now) x names.new) }
    ensures faultless { OnOk result (vertex_fault (fields rest.now) ≡ None) }
    ensures fault { IfErr result (λ kind. vertex_fault (fields rest.now) ≡ Some kind) }
{
    let Some((first, more)) = split_number(rest) else {
        return Err(ScriptKind::FieldCount);
    };
    let x = checked_name(first)?;
    read_names(more, names)?;
    Ok(x)
}

// Reads fields that are all names into `names`, in place of its members.
fn read_names(text: &[u8], names: &mut Names) -> Result<(), ScriptKind>
    ensures names { OnOk result (NamesSet (fields text.now) names.new) }
    ensures faultless { OnOk result (names_fault (fields text.now) ≡ None) }
    ensures fault { IfErr result (λ kind. names_fault (fields text.now) ≡ Some kind) }
{
    names.clear();
    let mut rest = text;
    while let Some((number, more)) = split_number(rest) {
        names.insert(checked_name(number)?);
        rest = more;
    }
    Ok(())
}

// The two names that the two fields write.
fn checked_ends(first: Option<u64>, second: Option<u64>) -> Result<(u32, u32), ScriptKind>
    ensures first { IfOk result (λ p. name_in first ≡ Some p.0) }
    ensures second { IfOk result (λ p. name_in second ≡ Some p.1) }
    ensures faultless { OnOk result (option_or (number_fault first) (number_fault second) ≡ None) }
    ensures fault { IfErr result
        (λ kind. option_or (number_fault first) (number_fault second) ≡ Some kind) }
{
    let u = checked_name(first)?;
    let v = checked_name(second)?;
    Ok((u, v))
}

// The name that a field writes, by its number.
fn checked_name(number: Option<u64>) -> Result<u32, ScriptKind>
    ensures name { IfOk result (λ v. name_in number ≡ Some v) }
    ensures below { IfOk result (λ v. v < NAMES) }
    ensures faultless { OnOk result (number_fault number ≡ None) }
    ensures fault { IfErr result (λ kind. number_fault number ≡ Some kind) }
{
    let Some(v) = number else {
        return Err(ScriptKind::BadNumber);
    };
    if v >= u64::from(NAMES) {
        return Err(ScriptKind::NameTooLarge);
    }
    Ok(v as u32)
}
