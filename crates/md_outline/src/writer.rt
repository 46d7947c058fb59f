//! Writes the text of a tree from its outline.
ghost use Rattle.std.specs.Prelude.{◌≡◌, ◌+◌, ◌-◌, ◌<◌, ◌≤◌, ℕ, Bool, List, [], ◌∷◌, ◌++◌, length, drop, take, Option, IfSome, IfNone, IfOk, OnOk};
ghost use Rattle.std.specs.List.{All};
ghost use Rattle.md_graph.specs.PlainGraph.{adjacent};
ghost use Rattle.md_graph.specs.Sets.{NameSet};
ghost use Rattle.md_text.specs.Numbers.{decimal};
ghost use Rattle.md_text.specs.Pieces.{AreNumerals, piece_text};
ghost use Rattle.md_tree.specs.declared.Kind.{Kind};
ghost use Rattle.md_tree.specs.StrongTrees.{IsTree};
ghost use Rattle.md_tree.specs.Trees.{PlainTree, EachNode};
ghost use Rattle.md_tree.specs.TreeTexts.{tree_text, text_of, pairs_text};
ghost use Rattle.md_outline.specs.declared.outline.OutlinePart.{OutlinePart};
ghost use Rattle.md_outline.specs.declared.outline.OutlinePart.TheVariants.{Name};
ghost use Rattle.md_outline.specs.Outlines.{outline_of, outline_option};
ghost use Rattle.md_outline.specs.NodeRows.{AreHeadsOf, IsNodeByRows, pairs_by_rows};
ghost use Rattle.md_outline.specs.BegunNodes.{IsPartBelow, HasChildLeft, IsMarkPut, IsOnWay, MayGoOn};

use crate::OutlinePart;
use crate::head_pairs::put_head_pairs;
use crate::pair_space::PairSpace;
use md_blocks::put_two;
use md_graph::{GraphOf, Memory};
use md_text::{Chunk, Numerals, Piece};
use md_tree::{Kind, Lettered};
use std::alloc::Global;

/// What a writer of outlines needs beside the text. It serves many outlines, one after the other,
/// and keeps its memory.
#[derive(Drop)]
pub struct RowSpace {
    numerals: Numerals,
    progress: Progress,
}

// How far the text of a tree has come: the nodes that are begun, the innermost last; the heads of
// their finished children; and the end of the text, with what the pairs of a node need.
#[derive(Drop)]
struct Progress {
    begun: Vec<Begun>,
    heads: Vec<u32>,
    pairs: PairSpace,
}

// A node whose letter stands in the text: how many children it has, how many of them are still to
// come, and the mark before the first of these.
#[derive(Clone, Copy, Drop)]
struct Begun {
    kind: Kind,
    count: u32,
    left: u32,
    mark: u8,
}

impl RowSpace {
    /// Without memory at first.
    pub fn new(alloc: Global) -> RowSpace {
        RowSpace {
            numerals: Numerals::new(alloc),
            progress: Progress {
                begun: Vec::new(alloc),
                heads: Vec::new(alloc),
                pairs: PairSpace::new(alloc),
            },
        }
    }
}

/// Appends the text of the tree of strong modules of a graph, from the outline of the tree: the
/// pairs of a prime node are read off the rows of the graph at the least names of its children. No
/// tree is built and no list of pairs. Errors: want of memory; what the text is then is left open.
pub fn push_text_by_rows<const W: usize>(
    text: &mut Vec<u8>,
    parts: &[OutlinePart<Kind>],
    graph: &GraphOf<W>,
    space: &mut RowSpace,
) -> Result<(), Memory>
    requires { (t : Option PlainTree) × IsTree (adjacent graph.now) graph.now.vertices t
        × (parts.now ≡ outline_option t) }
    ensures written { OnOk result ((t : Option PlainTree)
        → IsTree (adjacent graph.now) graph.now.vertices t → parts.now ≡ outline_option t
        → text.new.items ≡ text.old.items ++ text_of t) }
{
    let _vertices = graph.vertices();
    if parts.is_empty() {
        text.extend_from_slice(b"empty")?;
        return Ok(());
    }
    space.numerals.spell(graph.bound())?;
    let numerals = space.numerals.as_slice();
    push_tree(text, parts, graph, numerals, &mut space.progress)
}

// The nodes that are begun stand on a stack of their own, the innermost last, so that no call nests
// as deep as the tree; and beside it the heads of their finished children. The end of the text is
// gathered in a chunk.
fn push_tree<const W: usize>(
    text: &mut Vec<u8>,
    parts: &[OutlinePart<Kind>],
    graph: &GraphOf<W>,
    numerals: &[Piece],
    progress: &mut Progress,
) -> Result<(), Memory>
    requires numerals { AreNumerals numerals.now }
    requires below { All (IsPartBelow (length numerals.now)) parts.now }
    requires tree { (t : PlainTree)
        × EachNode (IsNodeByRows (adjacent graph.now) graph.now.vertices) t
        × (parts.now ≡ outline_of t) }
    ensures { OnOk result ((t : PlainTree)
        → EachNode (IsNodeByRows (adjacent graph.now) graph.now.vertices) t
        → parts.now ≡ outline_of t
        → text.new.items ≡ text.old.items ++ tree_text t) }
{
    progress.begun.clear();
    progress.heads.clear();
    progress.pairs.chunk.clear();
    let mut next = 0;
    while next < parts.len() {
        put_part(text, parts[next], numerals, progress)?;
        next = put_names(
            text,
            parts,
            next + 1,
            numerals,
            &mut progress.begun,
            &mut progress.heads,
            &mut progress.pairs.chunk,
        )?;
        put_ends(text, graph, progress)?;
    }
    progress.pairs.chunk.flush(text)?;
    Ok(())
}

// The mark before a part, and the part: a name, or the letter of a node, which then is begun.
fn put_part(
    text: &mut Vec<u8>,
    part: OutlinePart<Kind>,
    numerals: &[Piece],
    progress: &mut Progress,
) -> Result<(), Memory>
    requires numerals { AreNumerals numerals.now }
    requires below { IsPartBelow (length numerals.now) part }
    requires ready { HasChildLeft progress.old.begun.items }
    ensures { OnOk result ((e : ℕ → ℕ → Bool) (s : NameSet) (whole : List ℕ)
        (others : List (OutlinePart Kind))
        → MayGoOn e s whole (text.old.items ++ progress.old.pairs.chunk) (part ∷ others)
        progress.old.begun.items progress.old.heads.items
        → IsOnWay e s whole (text.new.items ++ progress.new.pairs.chunk) others
        progress.new.begun.items progress.new.heads.items) }
{
    let mark = take_mark(&mut progress.begun)?;
    match part {
        OutlinePart::Name(name) => {
            let digits = numerals[name as usize];
            put_two(text, mark, digits, &mut progress.pairs.chunk)?;
            progress.heads.push(name)?;
        }
        OutlinePart::Node(kind, count) => {
            let letter = byte_piece(kind.letter());
            put_two(text, mark, letter, &mut progress.pairs.chunk)?;
            progress.begun.push(Begun {
                kind,
                count,
                left: count,
                mark: b'(',
            })?;
        }
    }
    Ok(())
}

// The names that come from a part on, as far as they are children of the innermost node that is
// begun: all that a leaf costs is here. The part behind them comes back.
fn put_names(
    text: &mut Vec<u8>,
    parts: &[OutlinePart<Kind>],
    from: usize,
    numerals: &[Piece],
    begun: &mut Vec<Begun>,
    heads: &mut Vec<u32>,
    chunk: &mut Chunk,
) -> Result<usize, Memory>
    requires numerals { AreNumerals numerals.now }
    requires below { All (IsPartBelow (length numerals.now)) parts.now }
    ensures written { IfOk result (λ next. (e : ℕ → ℕ → Bool) (s : NameSet) (whole : List ℕ)
        → IsOnWay e s whole (text.old.items ++ chunk.old) (drop from parts.now)
        begun.old.items heads.old.items
        → IsOnWay e s whole (text.new.items ++ chunk.new) (drop next parts.now)
        begun.new.items heads.new.items) }
    ensures on { IfOk result (λ next. from ≤ next) }
{
    let Some(mut node) = begun.pop() else {
        return Ok(from);
    };
    heads.reserve(node.left as usize)?;
    let mut next = from;
    while let Some(name) = next_name(parts, next, node.left) {
        put_two(text, byte_piece(node.mark), numerals[name as usize], chunk)?;
        heads.push_reserved(name);
        node.left -= 1;
        node.mark = b',';
        next += 1;
    }
    begun.push(node)?;
    Ok(next)
}

// The name that stands at a place of an outline, where a child is left.
#[inline(always)]
fn next_name(parts: &[OutlinePart<Kind>], at: usize, left: u32) -> Option<u32>
    ensures left { IfSome result (λ name. 0 < left) }
    ensures within { IfSome result (λ name. at < length parts.now) }
    ensures name { IfSome result (λ name. drop at parts.now
        ≡ Name name ∷ drop (at + 1) parts.now) }
{
    if left == 0 {
        return None;
    }
    match parts.get(at) {
        Some(OutlinePart::Name(name)) => Some(*name),
        _ => None,
    }
}

// The mark before the next child of the innermost node that is begun; nothing where none is begun.
fn take_mark(begun: &mut Vec<Begun>) -> Result<Piece, Memory>
    requires { HasChildLeft begun.old.items }
    ensures { IfOk result (λ mark. (text : List ℕ)
        → IsMarkPut text begun.old.items (text ++ piece_text mark) begun.new.items) }
{
    let Some(node) = begun.pop() else {
        return Ok(empty_piece());
    };
    begun.push(Begun {
        kind: node.kind,
        count: node.count,
        left: node.left - 1,
        mark: b',',
    })?;
    Ok(byte_piece(node.mark))
}

// A piece of one byte.
#[inline(always)]
fn byte_piece(byte: u8) -> Piece
    ensures { piece_text result ≡ byte ∷ [] }
{
    let mut bytes = [0; 8];
    bytes[0] = byte;
    Piece { bytes, used: 1 }
}

// A piece without bytes.
fn empty_piece() -> Piece
    ensures { piece_text result ≡ [] }
{
    Piece {
        bytes: [0; 8],
        used: 0,
    }
}

// The ends of the nodes that have no child left, up to the first that has one.
fn put_ends<const W: usize>(
    text: &mut Vec<u8>,
    graph: &GraphOf<W>,
    progress: &mut Progress,
) -> Result<(), Memory>
    requires { (whole : List ℕ) × (parts : List (OutlinePart Kind))
        × IsOnWay (adjacent graph.now) graph.now.vertices whole
        (text.old.items ++ progress.old.pairs.chunk) parts
        progress.old.begun.items progress.old.heads.items }
    ensures written { OnOk result ((whole : List ℕ) (parts : List (OutlinePart Kind))
        → IsOnWay (adjacent graph.now) graph.now.vertices whole
        (text.old.items ++ progress.old.pairs.chunk) parts
        progress.old.begun.items progress.old.heads.items
        → IsOnWay (adjacent graph.now) graph.now.vertices whole
        (text.new.items ++ progress.new.pairs.chunk) parts
        progress.new.begun.items progress.new.heads.items) }
    ensures ready { OnOk result (HasChildLeft progress.new.begun.items) }
{
    while let Some(node) = pop_ended(&mut progress.begun) {
        put_end(text, node, graph, &mut progress.heads, &mut progress.pairs)?;
    }
    Ok(())
}

// Takes the innermost node off, if it has no child left.
fn pop_ended(begun: &mut Vec<Begun>) -> Option<Begun>
    ensures ended { IfSome result (λ node. node.left ≡ 0) }
    ensures items { IfSome result (λ node. begun.old.items ≡ begun.new.items ++ node ∷ []) }
    ensures ready { IfNone result (HasChildLeft begun.new.items) }
    ensures stays { IfNone result (begun.new.items ≡ begun.old.items) }
{
    let node = begun.last()?;
    if node.left != 0 {
        return None;
    }
    begun.pop()
}

// The pairs and the closing bracket of a node. Of the heads of its children the first stays: it is
// the head of the node.
fn put_end<const W: usize>(
    text: &mut Vec<u8>,
    node: Begun,
    graph: &GraphOf<W>,
    heads: &mut Vec<u32>,
    pairs: &mut PairSpace,
) -> Result<(), Memory>
    requires count { node.count ≤ length heads.old.items }
    requires heads { AreHeadsOf graph.now.vertices
        (drop (length heads.old.items - node.count) heads.old.items) }
    ensures text { OnOk result (text.new.items ++ pairs.new.chunk
        ≡ (text.old.items ++ pairs.old.chunk) ++ (pairs_text 59
        (pairs_by_rows (adjacent graph.now) node.kind
        (drop (length heads.old.items - node.count) heads.old.items)) ++ 41 ∷ [])) }
    ensures heads { OnOk result (heads.new.items
        ≡ take (length heads.old.items - node.count + 1) heads.old.items) }
{
    let first = heads.len() - node.count as usize;
    if node.kind.lists() {
        put_head_pairs(text, graph, &heads[first..], pairs)?;
    }
    put_two(text, empty_piece(), byte_piece(b')'), &mut pairs.chunk)?;
    heads.truncate(first + 1);
    Ok(())
}
