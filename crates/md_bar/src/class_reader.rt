//! Reads a line of a report of a session on a class of graphs.
ghost use Rattle.std.specs.Prelude.{◌≡◌, ◌≢◌, ◌↔◌, ℕ, List, [], ◌∷◌, ◌++◌, IfOk, IsTrue, MatchOption};
ghost use Rattle.md_text.specs.Numbers.{decimal};
ghost use Rattle.md_bar_tree.specs.declared.BarKind.{BarKind};
ghost use Rattle.md_bar_tree.specs.declared.Bar.{Bar};
ghost use Rattle.md_bar_tree.specs.declared.Class.{Class};
ghost use Rattle.md_bar_tree.specs.Bars.{AreDifferent};
ghost use Rattle.md_report.specs.Lines.{plain_line, bar_word, bar_text, line_text, head_class, refused_bar, group_refused_bar};
ghost use Rattle.md_report.specs.WellFormedLines.{IsEditNumber, IsBarOrder, IsNamedBar};
ghost use Rattle.md_bar.specs.ClassLines.{IsShared, IsClassReading};
ghost use Rattle.md_bar.specs.Reading.{IsOrderedBar, IsSharedReading};

use crate::{Bar, BarKind, Class, ClassLine};
use md_bar_tree::{in_cycle_order, in_pair_order};
use md_graph::Memory;
use md_report::{Line, LineFault, behind_space, names, read_line, split_number};
use std::alloc::Global;

/// The line with this text. Errors: `Syntax` exactly where no well-formed line has it; want of
/// memory.
pub fn read_class(alloc: Global, bytes: &[u8]) -> Result<ClassLine, LineFault>
    ensures { IsClassReading bytes.now result }
{
    if let Some(class) = class_of_head(bytes) {
        return Ok(ClassLine::Head(class));
    }
    if let Some(bar) = bar_of_text(alloc, bytes)? {
        return Ok(ClassLine::First(bar));
    }
    if let Some(bar) = refusal(alloc, bytes)? {
        return Ok(ClassLine::Refused(bar));
    }
    if let Some((number, bar)) = group_refusal(alloc, bytes)? {
        return Ok(ClassLine::GroupRefused(number, bar));
    }
    shared_line(alloc, bytes)
}

// The class of which a first line with this text tells.
fn class_of_head(bytes: &[u8]) -> Option<Class>
    ensures { MatchOption result ((class : Class) → bytes.now ≢ line_text (head_class class))
        (λ class. bytes.now ≡ line_text (head_class class)) }
{
    if bytes == b"mdt trivial".as_slice() {
        return Some(Class::Trivial);
    }
    if bytes == b"mdt threshold".as_slice() {
        return Some(Class::Threshold);
    }
    None
}

// The bar with which a line with this text refuses an edit.
fn refusal(alloc: Global, bytes: &[u8]) -> Result<Option<Bar>, Memory>
    ensures { IfOk result (λ found. MatchOption found
        ((bar : Bar) → IsNamedBar bar → bytes.now ≢ line_text (refused_bar bar))
        (λ bar. IsNamedBar bar × (bytes.now ≡ line_text (refused_bar bar)))) }
{
    match bytes {
        [b'n', b'o', b' ', behind @ ..] => bar_of_text(alloc, behind),
        _ => Ok(None),
    }
}

// The number of the edit of a group and the bar with which a line with this text refuses it.
fn group_refusal(alloc: Global, bytes: &[u8]) -> Result<Option<(u64, Bar)>, Memory>
    ensures { IfOk result (λ found. MatchOption found
        ((number : ℕ) (bar : Bar) → IsEditNumber number → IsNamedBar bar
        → bytes.now ≢ line_text (group_refused_bar number bar))
        (λ p. (IsEditNumber p.0 × IsNamedBar p.1)
        × (bytes.now ≡ line_text (group_refused_bar p.0 p.1)))) }
{
    match bytes {
        [b'n', b'o', b' ', b'e', b'd', b'i', b't', behind @ ..] => numbered_bar(alloc, behind),
        _ => Ok(None),
    }
}

// The number of an edit and the bar that a text spells, a space before each.
fn numbered_bar(alloc: Global, text: &[u8]) -> Result<Option<(u64, Bar)>, Memory>
    ensures { IfOk result (λ found. MatchOption found
        ((number : ℕ) (bar : Bar) → IsEditNumber number → IsNamedBar bar
        → text.now ≢ 32 ∷ (decimal number ++ 32 ∷ bar_text bar))
        (λ p. (IsEditNumber p.0 × IsNamedBar p.1)
        × (text.now ≡ 32 ∷ (decimal p.0 ++ 32 ∷ bar_text p.1)))) }
{
    let Some((number, tail)) = split_number(text) else {
        return Ok(None);
    };
    let Some(behind) = behind_space(tail) else {
        return Ok(None);
    };
    match bar_of_text(alloc, behind)? {
        Some(bar) => Ok(Some((number, bar))),
        None => Ok(None),
    }
}

// The bar with this text.
fn bar_of_text(alloc: Global, text: &[u8]) -> Result<Option<Bar>, Memory>
    ensures { IfOk result (λ found. MatchOption found
        ((bar : Bar) → IsNamedBar bar → text.now ≢ bar_text bar)
        (λ bar. IsNamedBar bar × (text.now ≡ bar_text bar))) }
{
    let Some((kind, behind)) = split_kind(text) else {
        return Ok(None);
    };
    match names(alloc, behind)? {
        Some(list) => Ok(bar_of_names(kind, &list)),
        None => Ok(None),
    }
}

// The kind of bars with whose word the text begins, and the rest behind it.
fn split_kind(text: &[u8]) -> Option<(BarKind, &[u8])>
    ensures { MatchOption result
        ((kind : BarKind) (rest : List ℕ) → text.now ≢ bar_word kind ++ rest)
        (λ p. text.now ≡ bar_word p.0 ++ p.1.now) }
{
    match text {
        [b'p', b'4', rest @ ..] => Some((BarKind::P4, rest)),
        [b'c', b'4', rest @ ..] => Some((BarKind::C4, rest)),
        [b'2', b'k', b'2', rest @ ..] => Some((BarKind::TwoK2, rest)),
        _ => None,
    }
}

// The bar of a kind with these names, where they are four, differ, and stand in its order.
fn bar_of_names(kind: BarKind, names: &[u32]) -> Option<Bar>
    ensures { MatchOption result ((a b c d : ℕ) → IsOrderedBar kind a b c d
        → names.now ≢ a ∷ b ∷ c ∷ d ∷ [])
        (λ bar. (bar.kind ≡ kind) × IsOrderedBar kind bar.a bar.b bar.c bar.d
        × (names.now ≡ bar.a ∷ bar.b ∷ bar.c ∷ bar.d ∷ [])) }
{
    if names.len() != 4 {
        return None;
    }
    let (a, b, c, d) = (names[0], names[1], names[2], names[3]);
    if is_ordered(kind, a, b, c, d) {
        return Some(Bar { kind, a, b, c, d });
    }
    None
}

fn is_ordered(kind: BarKind, a: u32, b: u32, c: u32, d: u32) -> bool
    ensures { IsTrue result ↔ IsOrderedBar kind a b c d }
{
    are_different(a, b, c, d) && is_bar_order(kind, a, b, c, d)
}

fn are_different(a: u32, b: u32, c: u32, d: u32) -> bool
    ensures { IsTrue result ↔ AreDifferent a b c d }
{
    a != b && a != c && a != d && b != c && b != d && c != d
}

fn is_bar_order(kind: BarKind, a: u32, b: u32, c: u32, d: u32) -> bool
    ensures { IsTrue result ↔ IsBarOrder kind a b c d }
{
    match kind {
        BarKind::P4 => a < d,
        BarKind::C4 => in_cycle_order(a, b, c, d),
        BarKind::TwoK2 => in_pair_order(a, b, c, d),
    }
}

// The line with this text that stands in reports of all sessions.
fn shared_line(alloc: Global, bytes: &[u8]) -> Result<ClassLine, LineFault>
    ensures { IsSharedReading bytes.now result }
{
    match read_line(alloc, bytes) {
        Ok(line) => {
            if is_shared(&line) {
                return Ok(ClassLine::Plain(line));
            }
            Err(LineFault::Syntax)
        }
        Err(fault) => Err(fault),
    }
}

fn is_shared(line: &Line) -> bool
    ensures { IsTrue result ↔ IsShared (plain_line line.now) }
{
    match line {
        Line::Tree(_)
        | Line::Applied(_)
        | Line::Refused(_)
        | Line::GroupRefused(..)
        | Line::NothingToUndo
        | Line::End => true,
        _ => false,
    }
}
