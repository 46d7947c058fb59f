//! The texts of lines.
ghost use Rattle.std.specs.Prelude.{◌≡◌, ◌++◌, Option, IfOk, OnOk, codes};
ghost use Rattle.md_graph.specs.PlainGraph.{adjacent};
ghost use Rattle.md_text.specs.Numbers.{decimal};
ghost use Rattle.md_tree.specs.Plain.{plain_option};
ghost use Rattle.md_tree.specs.StrongTrees.{IsTree};
ghost use Rattle.md_tree.specs.Trees.{PlainTree};
ghost use Rattle.md_outline.specs.Outlines.{outline_option};
ghost use Rattle.md_report.specs.Lines as lines;
ghost use Rattle.md_report.specs.Lines.{plain_line, reason_words, names_text, p4_text, line_text, session_head};

use crate::arc_writer::push_arcs;
use crate::mode_words::{class_word, mode_word};
use crate::{Line, Mode, SessionMode};
use md_graph::{GraphOf, Memory};
use md_modules::P4;
use md_outline::{OutlinePart, RowSpace, push_text_by_rows};
use md_script::EditReason;
use md_text::push_number;
use md_tree::{Kind, Tree, push_text};
use std::alloc::Global;

// Room for so many bytes is taken at once: the line of the tree of a small graph fits, and its line
// feed.
const SHORT: usize = 256;

/// The text of a line, without a line feed. Errors: want of memory.
pub fn write_line(alloc: Global, line: &Line) -> Result<Vec<u8>, Memory>
    ensures { IfOk result (λ text. text.items ≡ line_text (plain_line line.now)) }
{
    let mut text = Vec::with_capacity(alloc, SHORT)?;
    match line {
        Line::Head(mode) => {
            text.extend_from_slice(b"mdt ")?;
            text.extend_from_slice(mode_word(*mode).as_bytes())?;
        }
        Line::Tree(tree) => push_tree(alloc, &mut text, tree)?,
        Line::Applied(tree) => push_applied(alloc, &mut text, tree)?,
        Line::AppliedQuiet => text.extend_from_slice(b"ok")?,
        Line::Refused(reason) => {
            text.extend_from_slice(b"no ")?;
            push_reason(&mut text, *reason)?;
        }
        Line::RefusedP4(p) => {
            text.extend_from_slice(b"no p4")?;
            push_p4(&mut text, p)?;
        }
        Line::GroupRefused(number, reason) => {
            push_edit(&mut text, *number)?;
            text.push(b' ')?;
            push_reason(&mut text, *reason)?;
        }
        Line::GroupRefusedP4(number, p) => {
            push_edit(&mut text, *number)?;
            text.extend_from_slice(b" p4")?;
            push_p4(&mut text, p)?;
        }
        Line::NothingToUndo => text.extend_from_slice(b"no undo")?,
        Line::NotCograph(p) => {
            text.extend_from_slice(b"p4")?;
            push_p4(&mut text, p)?;
        }
        Line::Oriented(arcs) => {
            text.extend_from_slice(b"yes")?;
            push_arcs(alloc, &mut text, arcs.as_slice())?;
        }
        Line::Forced(chain) => {
            text.extend_from_slice(b"no")?;
            push_arcs(alloc, &mut text, chain.as_slice())?;
        }
        Line::Orders(first, second) => {
            text.extend_from_slice(b"yes")?;
            push_names(&mut text, first.as_slice())?;
            text.extend_from_slice(b" /")?;
            push_names(&mut text, second.as_slice())?;
        }
        Line::ForcedIn(chain) => {
            text.extend_from_slice(b"no g")?;
            push_arcs(alloc, &mut text, chain.as_slice())?;
        }
        Line::ForcedInComplement(chain) => {
            text.extend_from_slice(b"no c")?;
            push_arcs(alloc, &mut text, chain.as_slice())?;
        }
        Line::End => text.extend_from_slice(b"end")?,
    }
    Ok(text)
}

/// The text of the first line of a report of a session, without a line feed. Errors: want of
/// memory.
pub fn write_session_head(alloc: Global, mode: SessionMode) -> Result<Vec<u8>, Memory>
    ensures { IfOk result (λ text. text.items ≡ line_text (session_head mode)) }
{
    let mut text = Vec::with_capacity(alloc, SHORT)?;
    text.extend_from_slice(b"mdt ")?;
    text.extend_from_slice(session_word(mode).as_bytes())?;
    Ok(text)
}

// The word of the mode of a session.
fn session_word(mode: SessionMode) -> &'static str
    ensures { line_text (session_head mode) ≡ codes "mdt " ++ result.now }
{
    match mode {
        SessionMode::Edit => mode_word(Mode::Edit),
        SessionMode::Cograph => mode_word(Mode::Cograph),
        SessionMode::Quiet => mode_word(Mode::Quiet),
        SessionMode::Of(class) => class_word(class),
    }
}

/// The text of the line of a tree, as of `Line::Tree`, without a line feed. Errors: want of memory.
pub fn write_tree(alloc: Global, tree: &Option<Tree>) -> Result<Vec<u8>, Memory>
    ensures { IfOk result (λ text. text.items ≡ line_text (lines.tree (plain_option tree.now))) }
{
    let mut text = Vec::with_capacity(alloc, SHORT)?;
    push_tree(alloc, &mut text, tree)?;
    Ok(text)
}

/// Appends the line of the tree of strong modules of a graph, as of `Line::Tree`, without a line
/// feed: from the outline of the tree and the rows of the graph, with no tree and no list of pairs.
/// Errors: want of memory; what the text is then is left open.
pub fn push_tree_by_rows<const W: usize>(
    text: &mut Vec<u8>,
    parts: &[OutlinePart<Kind>],
    graph: &GraphOf<W>,
    space: &mut RowSpace,
) -> Result<(), Memory>
    requires { (t : Option PlainTree) × IsTree (adjacent graph.now) graph.now.vertices t
        × (parts.now ≡ outline_option t) }
    ensures written { OnOk result ((t : Option PlainTree)
        → IsTree (adjacent graph.now) graph.now.vertices t → parts.now ≡ outline_option t
        → text.new.items ≡ text.old.items ++ line_text (lines.tree t)) }
{
    text.extend_from_slice(b"t ")?;
    push_text_by_rows(text, parts, graph, space)
}

/// The text of the line that an edit was applied and left a graph with this tree, as of
/// `Line::Applied`, without a line feed. Errors: want of memory.
pub fn write_applied(alloc: Global, tree: &Option<Tree>) -> Result<Vec<u8>, Memory>
    ensures { IfOk result (λ text. text.items ≡ line_text (lines.applied (plain_option tree.now))) }
{
    let mut text = Vec::with_capacity(alloc, SHORT)?;
    push_applied(alloc, &mut text, tree)?;
    Ok(text)
}

// Appends the line of a tree.
fn push_tree(alloc: Global, text: &mut Vec<u8>, tree: &Option<Tree>) -> Result<(), Memory>
    ensures { IfOk result (λ _. text.new.items
        ≡ text.old.items ++ line_text (lines.tree (plain_option tree.now))) }
{
    text.extend_from_slice(b"t ")?;
    push_text(alloc, text, tree)?;
    Ok(())
}

// Appends the line that an edit was applied and left a graph with this tree.
fn push_applied(alloc: Global, text: &mut Vec<u8>, tree: &Option<Tree>) -> Result<(), Memory>
    ensures { IfOk result (λ _. text.new.items
        ≡ text.old.items ++ line_text (lines.applied (plain_option tree.now))) }
{
    text.extend_from_slice(b"ok ")?;
    push_text(alloc, text, tree)?;
    Ok(())
}

/// Appends the first words of the line that the edit of a group with this number was refused.
/// Errors: want of memory; what the text is then is left open.
pub fn push_edit(text: &mut Vec<u8>, number: u64) -> Result<(), Memory>
    ensures appended { OnOk result (text.new.items
        ≡ text.old.items ++ (codes "no edit " ++ decimal number)) }
{
    text.extend_from_slice(b"no edit ")?;
    push_number(text, number)?;
    Ok(())
}

fn push_reason(text: &mut Vec<u8>, reason: EditReason) -> Result<(), Memory>
    ensures { IfOk result (λ _. text.new.items ≡ text.old.items ++ reason_words reason) }
{
    match reason {
        EditReason::Same => text.extend_from_slice(b"same")?,
        EditReason::NoVertex(v) => push_named(text, b"vertex ", v)?,
        EditReason::NameTaken(v) => push_named(text, b"taken ", v)?,
        EditReason::EdgeThere => text.extend_from_slice(b"edge-there")?,
        EditReason::EdgeAbsent => text.extend_from_slice(b"edge-absent")?,
    }
    Ok(())
}

fn push_named(text: &mut Vec<u8>, word: &[u8], name: u32) -> Result<(), Memory>
    ensures { IfOk result (λ _. text.new.items ≡ text.old.items ++ (word.now ++ decimal name)) }
{
    text.extend_from_slice(word)?;
    push_number(text, u64::from(name))?;
    Ok(())
}

// Appends a space and a name, for each of the four names.
fn push_p4(text: &mut Vec<u8>, p: &P4) -> Result<(), Memory>
    ensures { OnOk result (text.new.items ≡ text.old.items ++ p4_text p.now) }
{
    push_names(text, &[p.a, p.b, p.c, p.d])
}

/// Appends a space and a name for each name. Errors: want of memory; what the text is then is left
/// open.
pub fn push_names(text: &mut Vec<u8>, names: &[u32]) -> Result<(), Memory>
    ensures appended { OnOk result (text.new.items ≡ text.old.items ++ names_text names.now) }
{
    for v in names {
        push_named(text, b" ", *v)?;
    }
    Ok(())
}
