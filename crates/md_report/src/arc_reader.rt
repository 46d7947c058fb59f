//! Arcs in the texts of lines: pieces of two names with a mark between, each behind a space.
ghost use Rattle.std.specs.Prelude.{◌≡◌, ◌≢◌, List, IfOk, MatchOption};
ghost use Rattle.std.specs.List.{All};
ghost use Rattle.md_forcing.specs.declared.arc.Arc.{Arc};
ghost use Rattle.md_report.specs.Lines.{arc_text, arcs_text};
ghost use Rattle.md_report.specs.WellFormedLines.{IsNamedArc, IsNamedChain};
ghost use Rattle.md_report.specs.Cuts.{IsItem, NoItem};

use crate::pieces::{name, split_before, split_piece};
use md_forcing::{Arc, Chain};
use md_graph::Memory;
use std::alloc::Global;

// The arcs that a text spells, a space before each; none where it is no such text.
pub(crate) fn arcs(alloc: Global, text: &[u8]) -> Result<Option<Vec<Arc>>, Memory>
    ensures { IfOk result (λ found.
        MatchOption found ((list : List Arc) → All IsNamedArc list → text.now ≢ arcs_text list)
        (λ list. All IsNamedArc list.items × (text.now ≡ arcs_text list.items))) }
{
    let mut list = Vec::new(alloc);
    let mut rest = text;
    while !rest.is_empty() {
        let Some((by, more)) = split_arc(rest) else {
            return Ok(None);
        };
        list.push(by)?;
        rest = more;
    }
    Ok(Some(list))
}

// The arcs that a text spells, a space before each, where there is one or more; none where it is no
// such text.
pub(crate) fn chain(alloc: Global, text: &[u8]) -> Result<Option<Chain>, Memory>
    ensures { IfOk result (λ found. MatchOption found
        ((chain : List Arc) → IsNamedChain chain → text.now ≢ arcs_text chain)
        (λ chain. IsNamedChain chain × (text.now ≡ arcs_text chain))) }
{
    if text.is_empty() {
        return Ok(None);
    }
    match arcs(alloc, text)? {
        Some(list) => Ok(Some(Chain::from_list(list))),
        None => Ok(None),
    }
}

// The arc in the first piece, and the rest behind it.
fn split_arc(text: &[u8]) -> Option<(Arc, &[u8])>
    ensures { MatchOption result (NoItem arc_text IsNamedArc text.now)
        (λ p. IsItem arc_text IsNamedArc text.now p.0 p.1.now) }
{
    let (piece, rest) = split_piece(text)?;
    Some((arc(piece)?, rest))
}

// The arc of two names that a piece spells, if it spells one.
fn arc(piece: &[u8]) -> Option<Arc>
    ensures { MatchOption result ((a : Arc) → IsNamedArc a → piece.now ≢ arc_text a)
        (λ a. IsNamedArc a × (piece.now ≡ arc_text a)) }
{
    let (front, behind) = split_before(piece, b'>');
    let [_, back @ ..] = behind else {
        return None;
    };
    let tail = name(front)?;
    let head = name(back)?;
    if tail == head {
        return None;
    }
    Some(Arc { tail, head })
}
