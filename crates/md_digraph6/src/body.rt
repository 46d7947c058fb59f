//! The bits of a digraph6 line, one for each ordered pair of vertices, read row by row: a short row
//! byte by byte, a long one 64 bits at once.
ghost use Rattle.std.specs.Prelude.{◌≡◌, ℕ, false, ◌+◌, ◌*◌, ◌<◌, ◌≤◌, nat_lt, length, if◌then◌else◌};
ghost use Rattle.std.specs.Int.{bit_at};
ghost use Rattle.std.specs.FinSet as set;
ghost use Rattle.std.specs.List.{AllPass};
ghost use Rattle.md_graph.specs.Sets.{Has, Lacks};
ghost use Rattle.md_digraph.specs.PlainDigraph.{has_arc_to, empty_digraph};
ghost use Rattle.md_graph6.specs.Bits.{bit};
ghost use Rattle.md_graph6.specs.Line.{is_group};
ghost use Rattle.md_graph6.specs.Short.{IsUnread};
ghost use Rattle.md_graph6.specs.Window.{AreGroups};
ghost use Rattle.md_digraph6.specs.ArcLine.{some_loop, IsArcBodyOf};
ghost use Rattle.md_digraph6.specs.ArcFilled.{HasArcRows, IsArcRow, IsWithArcs};

use md_digraph::{DIRECTED_NAMES, DigraphOf};
use md_graph::{Set, WORDS};
use md_graph6::parts::{Unread, behind_bits, bits_from, low_bits, with_bits};

// A row of at most so many bits fits in a word behind the bits of a byte. From here on 64 bits at
// once take less.
const MOST_SHORT: u32 = 57;

// The bits of row i from column `low` on, 64 at most.
#[inline]
fn row_bits(body: &[u8], n: u32, i: u32, low: u32) -> u64
    requires few { n ≤ DIRECTED_NAMES }
    requires row { i < n }
    requires column { low ≤ n }
    requires groups { AllPass is_group body.now }
    ensures { (k : ℕ) → k < 64
        → bit_at result k ≡ (if nat_lt (low + k) n then bit body.now (i * n + (low + k)) else 0) }
{
    let place = i as usize * n as usize + low as usize;
    low_bits(bits_from(body, place), n - low)
}

// The heads of the arcs from i.
fn arc_row<const W: usize>(body: &[u8], n: u32, i: u32) -> Set<W>
    requires limit { W ≤ WORDS }
    requires few { n ≤ DIRECTED_NAMES }
    requires room { n ≤ 64 * W }
    requires row { i < n }
    requires groups { AllPass is_group body.now }
    ensures { IsArcRow body.now n i result }
{
    let mut row = Set::none();
    for w in 0..(n + 63) / 64 {
        row.insert_block(64 * w, row_bits(body, n, i, 64 * w));
    }
    row
}

// The heads of the arcs from i, the bits of its row being the lowest n of some unread ones.
fn short_row<const W: usize>(body: &[u8], n: u32, i: u32, unread: Unread) -> Set<W>
    requires limit { W ≤ WORDS }
    requires some { 0 < n }
    requires short { n < 58 }
    requires room { n ≤ 64 * W }
    requires enough { n ≤ unread.held }
    requires unread { IsUnread body.now (i * n) unread.bits unread.held unread.at }
    ensures { IsArcRow body.now n i result }
{
    let mut row = Set::none();
    row.insert_block(0, low_bits(unread.bits, n));
    row
}

// Takes in an arc from u to each of the heads. Conditions: all are vertices, u is no head, and no
// arc runs from u yet.
fn add_arcs<const W: usize>(graph: &mut DigraphOf<W>, u: u32, heads: &Set<W>)
    requires tail { Has graph.old.vertices u }
    requires heads { (v : ℕ) → Has heads.now v → Has graph.old.vertices v }
    requires differ { Lacks heads.now u }
    requires absent { (v : ℕ) → has_arc_to graph.old u v ≡ false }
    ensures { IsWithArcs graph.old u heads.now graph.new }
{
    for v in heads.members() {
        graph.add_arc(u, v);
    }
}

// Takes in the numbers below n. Condition: the directed graph has no vertices, and room for them.
fn add_numbers<const W: usize>(graph: &mut DigraphOf<W>, n: u32)
    requires empty { graph.old ≡ empty_digraph }
    requires room { n ≤ 64 * W }
    ensures vertices { (v : ℕ) → set.contains graph.new.vertices v ≡ nat_lt v n }
    ensures arcs { (u v : ℕ) → has_arc_to graph.new u v ≡ false }
{
    for v in 0..n {
        graph.add_vertex(v);
    }
}

// Takes in the arcs of a short line, row by row. Conditions: no arc is there, and no bit of a
// vertex with itself is 1.
fn fill_short<const W: usize>(graph: &mut DigraphOf<W>, n: u32, body: &[u8])
    requires short { n < 58 }
    requires room { n ≤ 64 * W }
    requires groups { AreGroups body.now }
    requires no_loop { some_loop body.now n n ≡ false }
    requires before { HasArcRows body.now n 0 graph.old }
    ensures { HasArcRows body.now n n graph.new }
{
    let _vertices = graph.vertices();
    let mut unread = Unread {
        bits: 0,
        held: 0,
        at: 0,
    };
    for i in 0..n {
        unread = with_bits(body, unread, n);
        let row = short_row(body, n, i, unread);
        add_arcs(graph, i, &row);
        unread = behind_bits(body, unread, n);
    }
}

// Takes in the arcs of a line, row by row. Conditions: no arc is there, and no bit of a vertex with
// itself is 1.
fn fill_rows<const W: usize>(graph: &mut DigraphOf<W>, n: u32, body: &[u8])
    requires few { n ≤ DIRECTED_NAMES }
    requires room { n ≤ 64 * W }
    requires groups { AllPass is_group body.now }
    requires no_loop { some_loop body.now n n ≡ false }
    requires before { HasArcRows body.now n 0 graph.old }
    ensures { HasArcRows body.now n n graph.new }
{
    let _vertices = graph.vertices();
    for i in 0..n {
        let row = arc_row(body, n, i);
        add_arcs(graph, i, &row);
    }
}

// Fills the directed graph with the numbers below n as vertices and the arcs whose bits are 1.
// Conditions: it has no vertices and room for n, n is at most the number of its names, each byte is
// from 63 to 126, and no bit of a vertex with itself is 1.
pub fn fill<const W: usize>(graph: &mut DigraphOf<W>, n: u32, body: &[u8])
    requires empty { graph.old ≡ empty_digraph }
    requires few { n ≤ DIRECTED_NAMES }
    requires room { n ≤ 64 * W }
    requires groups { AllPass is_group body.now }
    requires no_loop { some_loop body.now n n ≡ false }
    ensures { IsArcBodyOf body.now n graph.new }
{
    add_numbers(graph, n);
    if n <= MOST_SHORT {
        return fill_short(graph, n, body);
    }
    fill_rows(graph, n, body);
}
