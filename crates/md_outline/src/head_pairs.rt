//! Writes the pairs of a prime node, read off the rows of a graph. No list of pairs is made.
ghost use Rattle.std.specs.Prelude.{◌≡◌, ◌+◌, ◌*◌, ◌<◌, ◌≤◌, ◌^◌, ℕ, Bool, List, [], ◌∷◌, ◌++◌, length, get_or, IfErr, OnOk, IsTrue};
ghost use Rattle.std.specs.List.{All};
ghost use Rattle.std.specs.FinSet as set;
ghost use Rattle.md_graph.specs.NameSet.{ascending_from};
ghost use Rattle.md_graph.specs.PlainGraph.{adjacent, neighbours};
ghost use Rattle.md_graph.specs.Sets.{Has, Within};
ghost use Rattle.md_text.specs.Pieces.{piece_text, text_at};
ghost use Rattle.md_tree.specs.declared.Pair.{Pair};
ghost use Rattle.md_tree.specs.Spellings.{graph_pairs};
ghost use Rattle.md_tree.specs.TreeTexts.{pairs_text, pairs_text_by};
ghost use Rattle.md_blocks.specs.Refusals.{RefusesFront};
ghost use Rattle.md_outline.specs.HeadPairs.{near_heads, near_pairs, head_pairs, SpellPositions};
ghost use Rattle.md_outline.specs.NodeRows.{is_edge_up, AreHeadsOf};

use crate::pair_space::PairSpace;
use md_blocks::{Target, put_two, write_members};
use md_graph::{GraphOf, Memory, Set};
use md_text::{CHUNK_SIZE, Chunk, Piece, number_piece, piece_behind};
use md_tree::{Pair, Paired};

// So many bytes have room for two pieces.
const TWO_PIECES: usize = 16;

// The semicolon and the pairs, where there are some, of a prime node with these heads of its
// children. What is gathered in the chunk stands behind the text.
pub(crate) fn put_head_pairs<const W: usize>(
    text: &mut Vec<u8>,
    graph: &GraphOf<W>,
    heads: &[u32],
    space: &mut PairSpace,
) -> Result<(), Memory>
    requires { AreHeadsOf graph.now.vertices heads.now }
    ensures { OnOk result (text.new.items ++ space.new.chunk
        ≡ (text.old.items ++ space.old.chunk)
        ++ pairs_text 59 (head_pairs graph_pairs (is_edge_up (adjacent graph.now)) heads.now)) }
{
    let _vertices = graph.vertices();
    space.places.spell(heads)?;
    let all = Set::from_list(heads);
    let room = pair_room(space.places.as_slice(), heads);
    space.chunk.flush(text)?;
    text.reserve(count_pairs(graph, heads, &all).saturating_mul(room))?;
    gather_pairs(text, graph, heads, &all, space)
}

// How many bytes a pair of these heads has at most, with the mark before it.
fn pair_room(places: &[Piece], heads: &[u32]) -> usize {
    let Some(last) = heads.last() else {
        return 0;
    };
    match places.get(*last as usize) {
        Some(piece) => 2 * piece.used + 2,
        None => TWO_PIECES,
    }
}

// How many pairs the heads have.
fn count_pairs<const W: usize>(graph: &GraphOf<W>, heads: &[u32], all: &Set<W>) -> usize
    requires { (i : ℕ) → i < length heads.now → get_or heads.now i 0 < 64 * W }
{
    let whole = graph.vertices().is_subset(all);
    let mut ends: usize = 0;
    for head in heads {
        let row = graph.row(*head);
        let count = if whole {
            row.count()
        } else {
            row.and(all).count()
        };
        ends = ends.saturating_add(count as usize);
    }
    ends / 2
}

// Gathers the pairs of the heads.
fn gather_pairs<const W: usize>(
    text: &mut Vec<u8>,
    graph: &GraphOf<W>,
    heads: &[u32],
    all: &Set<W>,
    space: &mut PairSpace,
) -> Result<(), Memory>
    requires heads { AreHeadsOf graph.now.vertices heads.now }
    requires few { length heads.now ≤ 10 ^ 5 }
    requires all { all.now ≡ set.from_list heads.now }
    requires places { SpellPositions space.old.places 0 heads.now }
    ensures { OnOk result (text.new.items ++ space.new.chunk
        ≡ (text.old.items ++ space.old.chunk)
        ++ pairs_text 59 (head_pairs graph_pairs (is_edge_up (adjacent graph.now)) heads.now)) }
{
    let _vertices = graph.vertices();
    space.mark = b';';
    let whole = graph.vertices().is_subset(all);
    for (position, head) in heads.iter().enumerate() {
        put_head(text, graph, *head, all, whole, position as u32, space)?;
    }
    Ok(())
}

// Gathers the pairs of a head at the position `low`. Where all vertices are heads, which is told,
// its row need not be cut down to heads.
fn put_head<const W: usize>(
    text: &mut Vec<u8>,
    graph: &GraphOf<W>,
    head: u32,
    all: &Set<W>,
    whole: bool,
    low: u32,
    space: &mut PairSpace,
) -> Result<(), Memory>
    requires vertex { Has graph.now.vertices head }
    requires whole { IsTrue whole → Within graph.now.vertices all.now }
    requires low { low < 10 ^ 5 }
    requires there { All (λ v. v < length space.old.places)
        (ascending_from (set.intersection (neighbours graph.now head) all.now) (head + 1)) }
    ensures written { OnOk result ((e : ℕ → ℕ → Bool) (v j : ℕ) (ws : List ℕ) (more : List Pair)
        → SpellPositions space.old.places j ws
        → ascending_from (set.intersection (neighbours graph.now head) all.now) (head + 1)
        ≡ near_heads e v ws
        → (text.new.items ++ space.new.chunk) ++ pairs_text space.new.mark more
        ≡ (text.old.items ++ space.old.chunk)
        ++ pairs_text space.old.mark (near_pairs graph_pairs e v low j ws ++ more)) }
    ensures places { space.new.places ≡ space.old.places }
{
    let _vertices = graph.vertices();
    if whole {
        return put_row::<Pair, Memory, Vec<u8>, W>(text, graph.row(head), head + 1, low, space);
    }
    let near = graph.row(head).and(all);
    put_row::<Pair, Memory, Vec<u8>, W>(text, &near, head + 1, low, space)
}

/// Gathers the pairs of the position `low` with those of the near heads from a name on, each behind
/// the mark that `space` has for it. What is gathered stands behind the bytes of the target, which
/// takes them when there is no room for more. Conditions: the position has at most five digits, and
/// each of these heads has its place.
///
/// # Errors
///
/// Those of the target, where it refuses a front of what is to stand there.
// Never inlined, so that its loops have the registers to themselves.
#[inline(never)]
pub fn put_row<P: Paired, E, T: Target<E>, const W: usize>(
    target: &mut T,
    near: &Set<W>,
    from: u32,
    low: u32,
    space: &mut PairSpace,
) -> Result<(), E>
    requires low { low < 10 ^ 5 }
    requires there { All (λ v. v < length space.old.places) (ascending_from near.now from) }
    ensures written { OnOk result ((e : ℕ → ℕ → Bool) (v j : ℕ) (ws : List ℕ) (more : List P)
        → SpellPositions space.old.places j ws → ascending_from near.now from ≡ near_heads e v ws
        → (T.bytes target.new ++ space.new.chunk) ++ pairs_text_by P.rules space.new.mark more
        ≡ (T.bytes target.old ++ space.old.chunk)
        ++ pairs_text_by P.rules space.old.mark (near_pairs P.rules e v low j ws ++ more)) }
    ensures text { OnOk result (T.text target.new ≡ T.text target.old) }
    ensures refused { IfErr result (λ reason. (e : ℕ → ℕ → Bool) (v j : ℕ) (ws : List ℕ)
        (more : List P)
        → SpellPositions space.old.places j ws → ascending_from near.now from ≡ near_heads e v ws
        → RefusesFront T.bytes T.text T.may_refuse target.old
        ((T.bytes target.old ++ space.old.chunk)
        ++ pairs_text_by P.rules space.old.mark (near_pairs P.rules e v low j ws ++ more)) reason) }
    ensures places { space.new.places ≡ space.old.places }
{
    let Some(first) = near.first_from(from) else {
        return Ok(());
    };
    let digits = number_piece(low, P::between());
    let start = piece_behind(space.mark, digits);
    space.mark = b',';
    let pieces = space.places.as_slice();
    put_two(target, start, pieces[first as usize], &mut space.chunk)?;
    let start = piece_behind(b',', digits);
    write_members(near, first + 1, start, pieces, &mut space.chunk, target)
}
