//! Whole digraph6 files: what is read from them, and the fault that is named.
ghost use Rattle.std.specs.Prelude.{◌≡◌};
ghost use Rattle.md_digraph.specs.PlainDigraph.{empty_digraph};

use md_digraph::{Digraph, DigraphOf};
use md_digraph6::{DigraphBySize, DirectedLines, DirectedRoom, scan_directed};
use md_graph::Memory;
use md_graph6::{G6Fault, G6Kind};
use std::alloc::Global;
use std::process::Abort;
use std::test::Fail;

// The number of vertices and the arcs of a directed graph.
type Wanted = (u32, &'static [(u32, u32)]);

// The number of arcs from u to numbers below n.
fn arcs_from(graph: &Digraph, u: u32, n: u32) -> usize {
    let mut count: usize = 0;
    for v in 0..n {
        count = count.wrapping_add(usize::from(graph.has_arc(u, v)));
    }
    count
}

// The number of arcs between numbers below n.
fn arc_count(graph: &Digraph, n: u32) -> usize {
    let mut count: usize = 0;
    for u in 0..n {
        count = count.wrapping_add(arcs_from(graph, u, n));
    }
    count
}

// The next directed graph of the file has these vertices and arcs.
fn gives(
    rt: &impl Abort,
    lines: &mut DirectedLines,
    graph: &mut Digraph,
    n: u32,
    arcs: &[(u32, u32)],
)
    requires { graph.old ≡ empty_digraph }
    ensures { graph.new ≡ empty_digraph }
{
    assert_eq!(rt; lines.next_bound(), n);
    assert!(rt; lines.next(graph));
    assert_eq!(rt; graph.count(), n);
    assert_eq!(rt; arc_count(graph, n), arcs.len());
    for (u, v) in arcs {
        assert!(rt; graph.has_arc(*u, *v));
    }
    graph.clear();
}

// The file spells these directed graphs.
fn spells(rt: &impl Abort, graph: &mut Digraph, bytes: &[u8], digraphs: &[Wanted])
    requires { graph.old ≡ empty_digraph }
    ensures { graph.new ≡ empty_digraph }
{
    let Ok(count) = scan_directed(bytes) else {
        panic!(rt; "a fault");
    };
    assert_eq!(rt; count as usize, digraphs.len());
    let mut lines = DirectedLines::new(bytes);
    for (n, arcs) in digraphs {
        gives(rt, &mut lines, graph, *n, arcs);
    }
    assert!(rt; !lines.next(graph));
}

// The files spell these directed graphs.
fn all_spell(rt: &impl Abort, graph: &mut Digraph, files: &[(&[u8], &[Wanted])])
    requires { graph.old ≡ empty_digraph }
    ensures { graph.new ≡ empty_digraph }
{
    for (bytes, digraphs) in files {
        spells(rt, graph, *bytes, *digraphs);
    }
}

// The file has this first fault.
fn refuses(rt: &impl Abort, bytes: &[u8], kind: G6Kind, line: u64) {
    assert_eq!(rt; scan_directed(bytes), Err(G6Fault { kind, line }));
}

// Files, and the directed graphs that they spell.
static SPELLED: [(&[u8], &[Wanted]); 5] = [
    (b"", &[]),
    (b">>digraph6<<", &[]),
    (b"&?\n&@?\n", &[(0, &[]), (1, &[])]),
    (
        b">>digraph6<<&DI?AO?\r\n",
        &[(5, &[(0, 2), (0, 4), (3, 1), (3, 4)])],
    ),
    (
        b"&BP_\n&BCo\r\n\n&AG\n\r\n&AW",
        &[
            (3, &[(0, 1), (1, 2), (2, 0)]),
            (3, &[(1, 0), (2, 0), (2, 1)]),
            (2, &[(1, 0)]),
            (2, &[(0, 1), (1, 0)]),
        ],
    ),
];

#[test]
fn files_spell(rt: HostRuntime) -> Result<(), Fail> {
    let mut graph = Digraph::new(rt.alloc())?;
    all_spell(&rt, &mut graph, &SPELLED);
    Ok(())
}

// The number of vertices of the directed graph in a room, and of words in its rows.
fn measures(room: &DirectedRoom) -> (u32, u32) {
    match room.digraph() {
        DigraphBySize::Small(graph) => (graph.count(), 1),
        DigraphBySize::Medium(graph) => (graph.count(), 16),
        DigraphBySize::Large(graph) => (graph.count(), 64),
    }
}

// The next directed graph comes into the room, with these measures, and goes again.
fn is_taken(
    alloc: Global,
    room: &mut DirectedRoom,
    lines: &mut DirectedLines,
    wanted: (u32, u32),
) -> Result<bool, Memory>
    requires { room.old ≡ empty_digraph }
    ensures { room.new ≡ empty_digraph }
{
    let found = room.fill(alloc, lines)?;
    let same = measures(room) == wanted;
    room.clear();
    Ok(found && same)
}

// A file of directed graphs without arcs on 1, 65 and 1,025 vertices.
fn file_of_all_widths(alloc: Global) -> Result<Vec<u8>, Fail> {
    let mut file = Vec::new(alloc);
    file.extend_from_slice(b"&@?\n&~?@@")?;
    file.resize(714, b'?')?;
    file.extend_from_slice(b"\n&~?O@")?;
    file.resize(175_825, b'?')?;
    Ok(file)
}

// The measures of the directed graphs of that file.
static WIDTHS: [(u32, u32); 3] = [(1, 1), (65, 16), (1_025, 64)];

#[test]
fn rooms_of_all_widths(rt: HostRuntime) -> Result<(), Fail> {
    let file = file_of_all_widths(rt.alloc())?;
    let Ok(_) = scan_directed(&file) else {
        panic!(&rt; "a fault");
    };
    let mut lines = DirectedLines::new(&file);
    let mut room = DirectedRoom::new(rt.alloc())?;
    for wanted in &WIDTHS {
        assert!(&rt; is_taken(rt.alloc(), &mut room, &mut lines, *wanted)?);
    }
    assert!(&rt; !room.fill(rt.alloc(), &mut lines)?);
    Ok(())
}

#[test]
fn empty_lines_are_passed_over(rt: HostRuntime) -> Result<(), Fail> {
    let bytes = b"\r\n\n&AG\n\r";
    let Ok(_) = scan_directed(bytes) else {
        panic!(&rt; "a fault");
    };
    let mut graph: DigraphOf<1> = DigraphOf::new(rt.alloc())?;
    let mut lines = DirectedLines::new(bytes);
    assert_eq!(&rt; lines.next_bound(), 2);
    assert!(&rt; lines.take_first(&mut graph));
    assert!(&rt; graph.has_arc(1, 0));
    assert_eq!(&rt; lines.next_bound(), 0);
    Ok(())
}

// The line of 4,096 vertices whose last byte is this one, and whose other bits are 0.
fn longest_line(alloc: Global, last: u8) -> Result<Vec<u8>, Fail> {
    let mut line = Vec::new(alloc);
    line.extend_from_slice(b"&~@??")?;
    line.resize(2_796_207, b'?')?;
    line.push(last)?;
    Ok(line)
}

#[test]
fn long_sizes_are_read(rt: HostRuntime) -> Result<(), Fail> {
    let alloc = rt.alloc();
    let mut graph = Digraph::new(alloc)?;
    let mut file = Vec::new(alloc);
    file.extend_from_slice(b"&~??~?_")?;
    file.resize(667, b'?')?;
    spells(&rt, &mut graph, &file, &[(63, &[(0, 6)])]);
    refuses(&rt, &longest_line(alloc, b'C')?, G6Kind::Loop, 1);
    refuses(&rt, &longest_line(alloc, b'B')?, G6Kind::BadPadding, 1);
    spells(
        &rt,
        &mut graph,
        &longest_line(alloc, b'G')?,
        &[(4096, &[(4095, 4094)])],
    );
    Ok(())
}

// Files, and their first faults.
static REFUSED: [(&[u8], G6Kind, u64); 19] = [
    (b"DQc\n", G6Kind::OtherFormat, 1),
    (b"&?\n:A_\n", G6Kind::OtherFormat, 2),
    (b">>digraph6<<>>digraph6<<&?\n", G6Kind::OtherFormat, 1),
    (b"&\n", G6Kind::Truncated, 1),
    (b"&>\n", G6Kind::BadByte, 1),
    (b"&A!!\n", G6Kind::BadByte, 1),
    (b"&~?\n", G6Kind::Truncated, 1),
    (b"&~??}\n", G6Kind::BadSize, 1),
    (b"&~~??????\n", G6Kind::BadSize, 1),
    (b"&~@?@\n", G6Kind::TooManyVertices, 1),
    (b"&~~~~~~~~\n", G6Kind::TooManyVertices, 1),
    (b"&AG\n\n&B_\n", G6Kind::Truncated, 3),
    (b"&@__\n", G6Kind::TrailingBytes, 1),
    (b"&@_\n", G6Kind::Loop, 1),
    (b"&@~\n", G6Kind::Loop, 1),
    (b"&@^\n", G6Kind::BadPadding, 1),
    (b"&AD\n", G6Kind::Loop, 1),
    (b"&AC\n", G6Kind::Loop, 1),
    (b"&AA\n", G6Kind::BadPadding, 1),
];

#[test]
fn faults_are_named(rt: HostRuntime) {
    for (bytes, kind, line) in &REFUSED {
        refuses(&rt, *bytes, *kind, *line);
    }
}
