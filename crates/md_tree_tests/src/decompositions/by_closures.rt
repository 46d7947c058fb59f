//! Trees by components, components of the complement and closures of pairs, a slow program that
//! writes their texts, beside the fast one: on all graphs of up to five vertices, and on larger
//! ones of many kinds.
ghost use Rattle.md_graph.specs.Sets.{Within};

use super::{is_same_set, join};
use crate::outlines::outline_by_tree;
use md_decompose::{decompose, graph_outline};
use md_graph::{Graph, Memory, NAMES, Names};
use md_modules::{closure_in, co_component, component};
use md_tree::{Kind, text};
use std::alloc::Global;
use std::process::Abort;
use std::test::Fail;

// The graph on the vertices below `count` without edges.
fn edgeless(rt: &impl Abort, alloc: Global, count: u32) -> Result<Graph, Memory> {
    let mut graph = Graph::new(alloc)?;
    for v in 0..count {
        assert!(rt; v < NAMES && !graph.has_vertex(v));
        graph.add_vertex(v);
    }
    Ok(graph)
}

// Joins `v` to the lower vertices whose bits are 1, and gives the bits behind these.
fn join_by_bits(rt: &impl Abort, graph: &mut Graph, v: u32, bits: u32) -> u32 {
    let mut left = bits;
    for u in 0..v {
        if left % 2 == 1 {
            join(rt, graph, u, v);
        }
        left /= 2;
    }
    left
}

// The graph of the pairs whose bits are 1, column by column.
fn by_bits(rt: &impl Abort, alloc: Global, count: u32, bits: u32) -> Result<Graph, Memory> {
    let mut graph = edgeless(rt, alloc, count)?;
    let mut left = bits;
    for v in 0..count {
        left = join_by_bits(rt, &mut graph, v, left);
    }
    Ok(graph)
}

// Small graphs of many kinds as graph6 lines of up to 30 vertices: random ones, sparse ones,
// cographs, permutation graphs, bipartite ones, and paths and random graphs that are put in the
// places of one another's vertices.
static DRAWN: [&[u8]; 16] = [
    b"Kz]QOMQSJx}_",
    b"WvKNjVDboLB@ZJuoVpZCVeXh|Lgkv?`uJKb]]|xX~JGE@sZ",
    b"O@G?B??O????hG?AYGO?@",
    b"W?PA???@?OW?G????C_QOW?????????@?g?OC@G??G?????",
    b"K_o@@FG?@E??",
    b"W@N@oID??sOc`HE_?coHK@??C???_?H?BDe|oXnW?_CWkvi",
    b"K^{??DF?oM_?",
    b"WGCOg?^VwAAHV~CRB|i~ZCR?VLGAOF~~|^l}?Q??A??B|lr",
    b"Krc?GAPOB?HC",
    b"W??L?R_u???A?GSA?MGD_@SPGAGD_@OSCD?@?S??I_I?cG?",
    b"Kb~I]\\HQqPD?",
    b"WGAWWjzGGHR{ererakwHN@H|?_?JNcu\\sEf`fr]kHUA_E??",
    b"]QhOA_Oa?CPAa?aD?CAn@aCQ_?COA?_?aGTIa?o?_?aP?gCa?_?a?O_A_A?EnPaPTOCAKO?P?O",
    b"KwjhF~~j\\B\\m",
    b"WVTYf|V~yaiIzn~~J}~~z~z|PZ^~^~~z~~|~znNf~~^^~fp",
    b"]A??LQ@@????@?iZ?a???iZO?@DRYWRAUH`IiYQw?AS?o??Dck@iZQ{TKH]G?AK?iYQ{XEQoC?",
];

// The bit of a pair in a graph6 line, by the place of the pair.
fn is_one(rt: &impl Abort, line: &[u8], place: usize) -> bool {
    let at = 1 + place / 6;
    assert!(rt; at < line.len() && line[at] >= 63);
    (line[at] - 63) >> (5 - place % 6) & 1 == 1
}

// Joins `v` to the lower vertices whose bits are 1, from a place of a graph6 line on, and gives the
// place behind these.
fn join_by_line(rt: &impl Abort, graph: &mut Graph, v: u32, line: &[u8], place: usize) -> usize {
    let mut next = place;
    for u in 0..v {
        if is_one(rt, line, next) {
            join(rt, graph, u, v);
        }
        next = next.wrapping_add(1);
    }
    next
}

// The graph of a graph6 line.
fn by_line(rt: &impl Abort, alloc: Global, line: &[u8]) -> Result<Graph, Memory> {
    assert!(rt; !line.is_empty() && line[0] >= 63);
    let count = u32::from(line[0] - 63);
    let mut graph = edgeless(rt, alloc, count)?;
    let mut place = 0;
    for v in 0..count {
        place = join_by_line(rt, &mut graph, v, line, place);
    }
    Ok(graph)
}

// The vertices in a set.
fn vertices_in(graph: &Graph, set: &Names) -> Names
    ensures { Within result graph.now.vertices }
{
    set.and(graph.vertices())
}

// Takes in the least module of `u` and `v` in the graph on `set`, unless it is the whole set.
fn take_closure(rt: &impl Abort, graph: &Graph, set: &Names, u: u32, v: u32, block: &mut Names) {
    let within = vertices_in(graph, set);
    assert!(rt; within.has(u));
    assert!(rt; within.has(v));
    let mut closure = Names::none();
    closure_in(graph, &within, u, v, &mut closure);
    if !is_same_set(&closure, set) {
        block.union_with(&closure);
    }
}

// The maximal proper module of `u` in a prime set.
fn block(rt: &impl Abort, graph: &Graph, set: &Names, u: u32) -> Names {
    let mut block = Names::none();
    for v in set.members() {
        if !block.has(v) {
            take_closure(rt, graph, set, u, v, &mut block);
        }
    }
    block
}

// The child with `u` of a set that is a node of the kind.
fn child(rt: &impl Abort, graph: &Graph, set: &Names, kind: Kind, u: u32) -> Names {
    let within = vertices_in(graph, set);
    assert!(rt; within.has(u));
    let mut child = Names::none();
    match kind {
        Kind::Parallel => component(graph, &within, u, &mut child),
        Kind::Series => co_component(graph, &within, u, &mut child),
        Kind::Prime => child = block(rt, graph, set, u),
    }
    child
}

// The kind of a set with the name `u` and another one.
fn kind_of(rt: &impl Abort, graph: &Graph, set: &Names, u: u32) -> Kind {
    if !is_same_set(&child(rt, graph, set, Kind::Parallel, u), set) {
        return Kind::Parallel;
    }
    if !is_same_set(&child(rt, graph, set, Kind::Series, u), set) {
        return Kind::Series;
    }
    Kind::Prime
}

// The children of a set that is a node of the kind, in order.
fn children(
    rt: &impl Abort,
    alloc: Global,
    graph: &Graph,
    set: &Names,
    kind: Kind,
) -> Result<Vec<Names>, Memory> {
    let mut sets = Vec::new(alloc);
    let mut rest = set.copy();
    for _ in 0..NAMES {
        let Some(u) = rest.first_from(0) else {
            return Ok(sets);
        };
        let next = child(rt, graph, set, kind, u);
        rest = rest.minus(&next);
        sets.push(next)?;
    }
    Ok(sets)
}

// What is still to be written of a tree.
#[derive(Drop)]
enum Piece {
    Set(Names),
    Word(String),
}

// Writes the name of a set, or how the text of its node begins; the rest waits.
fn divide(
    rt: &impl Abort,
    alloc: Global,
    graph: &Graph,
    set: &Names,
    waiting: &mut Vec<Piece>,
    written: &mut String,
) -> Result<(), Memory> {
    let Some(first) = set.first_from(0) else {
        return Ok(());
    };
    if set.count() == 1 {
        let word = format!(in alloc; "{first}")?;
        written.push_str(word.as_str())?;
        return Ok(());
    }
    let kind = kind_of(rt, graph, set, first);
    let sets = children(rt, alloc, graph, set, kind)?;
    written.push_str(letter(kind))?;
    let end = match kind {
        Kind::Prime => pairs_of(rt, alloc, graph, &sets)?,
        _ => String::new(alloc),
    };
    waiting.push(Piece::Word(format!(in alloc; "{end})")?))?;
    push_sets(alloc, sets, waiting)
}

fn letter(kind: Kind) -> &'static str {
    match kind {
        Kind::Parallel => "P(",
        Kind::Series => "S(",
        Kind::Prime => "R(",
    }
}

// Whether the first names of two sets are adjacent.
fn are_adjacent(rt: &impl Abort, graph: &Graph, left: &Names, right: &Names) -> bool {
    let (Some(u), Some(v)) = (left.first_from(0), right.first_from(0)) else {
        panic!(rt; "an empty child");
    };
    graph.has_edge(u, v)
}

// The pairs of children of a prime node between whose names there are edges, as its text has them.
fn pairs_of(
    rt: &impl Abort,
    alloc: Global,
    graph: &Graph,
    sets: &[Names],
) -> Result<String, Memory> {
    let mut word = String::new(alloc);
    for (i, left) in sets.iter().enumerate() {
        for (j, right) in sets.iter().enumerate() {
            if i < j && are_adjacent(rt, graph, left, right) {
                let mark = if word.is_empty() { ';' } else { ',' };
                let next = format!(in alloc; "{mark}{i}-{j}")?;
                word.push_str(next.as_str())?;
            }
        }
    }
    Ok(word)
}

// The sets wait, the first one at the end, with commas between.
fn push_sets(alloc: Global, sets: Vec<Names>, waiting: &mut Vec<Piece>) -> Result<(), Memory> {
    let mut left = sets;
    for _ in 0..NAMES {
        let Some(names) = left.pop() else {
            return Ok(());
        };
        waiting.push(Piece::Set(names))?;
        if !left.is_empty() {
            waiting.push(Piece::Word(format!(in alloc; ",")?))?;
        }
    }
    Ok(())
}

fn put(
    rt: &impl Abort,
    alloc: Global,
    graph: &Graph,
    piece: &Piece,
    waiting: &mut Vec<Piece>,
    written: &mut String,
) -> Result<(), Memory> {
    match piece {
        Piece::Set(names) => divide(rt, alloc, graph, names, waiting, written),
        Piece::Word(word) => {
            written.push_str(word.as_str())?;
            Ok(())
        }
    }
}

// The text of the tree by the slow program.
fn slow_text(rt: &impl Abort, alloc: Global, graph: &Graph) -> Result<String, Memory> {
    let mut written = String::new(alloc);
    let mut waiting = Vec::new(alloc);
    waiting.push(Piece::Set(graph.vertices().copy()))?;
    for _ in 0..8 * NAMES {
        let Some(piece) = waiting.pop() else {
            return Ok(written);
        };
        put(rt, alloc, graph, &piece, &mut waiting, &mut written)?;
    }
    Ok(written)
}

// Sees that both programs take a graph apart in the same way, and that its outline is that of its
// tree.
pub(super) fn compare(rt: &impl Abort, alloc: Global, graph: &Graph) -> Result<(), Memory> {
    let slow = slow_text(rt, alloc, graph)?;
    let tree = decompose(alloc, graph)?;
    let fast = text(alloc, &tree)?;
    assert_eq!(rt; fast.as_slice(), slow.as_bytes());
    let outline = graph_outline(alloc, graph)?;
    let expected = outline_by_tree(alloc, &tree)?;
    assert_eq!(rt; outline.as_slice(), expected.as_slice());
    Ok(())
}

// All graphs on the vertices below `count`, which are so many.
fn compare_all(rt: &impl Abort, alloc: Global, count: u32, graphs: u32) -> Result<(), Memory> {
    for bits in 0..graphs {
        let graph = by_bits(rt, alloc, count, bits)?;
        compare(rt, alloc, &graph)?;
    }
    Ok(())
}

#[test]
fn both_programs(rt: HostRuntime) -> Result<(), Fail> {
    for (count, graphs) in [(1, 1), (2, 2), (3, 8), (4, 64), (5, 1024)] {
        compare_all(&rt, rt.alloc(), count, graphs)?;
    }
    for line in &DRAWN {
        let graph = by_line(&rt, rt.alloc(), *line)?;
        compare(&rt, rt.alloc(), &graph)?;
    }
    Ok(())
}
