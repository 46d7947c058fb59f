//! The texts of lines.
ghost use Rattle.std.specs.Prelude.{◌≡◌, ◌++◌, IfOk, OnOk};
ghost use Rattle.md_report.specs.Lines.{line_text, barred, refused_bar, group_refused_bar, bar_word, bar_text};
ghost use Rattle.md_bar.specs.ClassLines.{class_line_text};

use crate::{Bar, BarKind, ClassLine};
use md_graph::Memory;
use md_report::{SessionMode, push_edit, push_names, write_line, write_session_head};
use std::alloc::Global;

// Room for so many bytes is taken at once: each line without a tree fits, and its line feed.
const SHORT: usize = 64;

/// The text of a line, without a line feed. Errors: want of memory.
pub fn write_class(alloc: Global, line: &ClassLine) -> Result<Vec<u8>, Memory>
    ensures text { IfOk result (λ v. v.items ≡ class_line_text line.now) }
{
    match line {
        ClassLine::Head(class) => write_session_head(alloc, SessionMode::Of(*class)),
        ClassLine::Plain(plain) => write_line(alloc, plain),
        ClassLine::First(bar) => write_bar(alloc, bar),
        ClassLine::Refused(bar) => write_refusal(alloc, bar),
        ClassLine::GroupRefused(number, bar) => write_group_refusal(alloc, *number, bar),
    }
}

fn write_bar(alloc: Global, bar: &Bar) -> Result<Vec<u8>, Memory>
    ensures { IfOk result (λ v. v.items ≡ line_text (barred bar.now)) }
{
    let mut text = Vec::with_capacity(alloc, SHORT)?;
    push_bar(&mut text, bar)?;
    Ok(text)
}

fn write_refusal(alloc: Global, bar: &Bar) -> Result<Vec<u8>, Memory>
    ensures { IfOk result (λ v. v.items ≡ line_text (refused_bar bar.now)) }
{
    let mut text = Vec::with_capacity(alloc, SHORT)?;
    text.extend_from_slice(b"no ")?;
    push_bar(&mut text, bar)?;
    Ok(text)
}

fn write_group_refusal(alloc: Global, number: u64, bar: &Bar) -> Result<Vec<u8>, Memory>
    ensures { IfOk result (λ v. v.items ≡ line_text (group_refused_bar number bar.now)) }
{
    let mut text = Vec::with_capacity(alloc, SHORT)?;
    push_edit(&mut text, number)?;
    text.push(b' ')?;
    push_bar(&mut text, bar)?;
    Ok(text)
}

// Appends a bar: the word of its kind, and a space and a name for each of its four names.
fn push_bar(text: &mut Vec<u8>, bar: &Bar) -> Result<(), Memory>
    ensures { OnOk result (text.new.items ≡ text.old.items ++ bar_text bar.now) }
{
    text.extend_from_slice(bar_word(bar.kind).as_bytes())?;
    push_names(text, &[bar.a, bar.b, bar.c, bar.d])
}

// The word of a kind of bars.
fn bar_word(kind: BarKind) -> &'static str
    ensures { result.now ≡ bar_word kind }
{
    match kind {
        BarKind::P4 => "p4",
        BarKind::C4 => "c4",
        BarKind::TwoK2 => "2k2",
    }
}
