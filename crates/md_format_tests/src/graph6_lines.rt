//! Whole graph6 files: what is read from them, and the fault that is named.
ghost use Rattle.std.specs.Prelude.{◌≡◌};
ghost use Rattle.md_graph.specs.PlainGraph.{empty_graph};

use md_graph::{Graph, GraphOf, NAMES};
use md_graph6::{G6Fault, G6Kind, Lines, scan};
use std::process::Abort;
use std::test::Fail;

// The number of vertices and the edges of a graph.
pub(super) type Wanted = (u32, &'static [(u32, u32)]);

// The next graph of the file has these vertices and edges.
fn gives(rt: &impl Abort, lines: &mut Lines, graph: &mut Graph, n: u32, edges: &[(u32, u32)])
    requires { graph.old ≡ empty_graph }
    ensures { graph.new ≡ empty_graph }
{
    assert!(rt; lines.next(graph));
    assert_eq!(rt; graph.count(), n);
    assert_eq!(rt; graph.edge_count() as usize, edges.len());
    for (u, v) in edges {
        assert!(rt; graph.has_edge(*u, *v));
    }
    graph.clear();
}

// The file spells these graphs.
fn spells(rt: &impl Abort, graph: &mut Graph, bytes: &[u8], graphs: &[Wanted])
    requires { graph.old ≡ empty_graph }
    ensures { graph.new ≡ empty_graph }
{
    let Ok(count) = scan(bytes, NAMES) else {
        panic!(rt; "a fault");
    };
    assert_eq!(rt; count as usize, graphs.len());
    let mut lines = Lines::new(bytes);
    for (n, edges) in graphs {
        gives(rt, &mut lines, graph, *n, edges);
    }
    assert!(rt; !lines.next(graph));
}

// The files spell these graphs.
pub(super) fn all_spell(rt: &impl Abort, graph: &mut Graph, files: &[(&[u8], &[Wanted])])
    requires { graph.old ≡ empty_graph }
    ensures { graph.new ≡ empty_graph }
{
    for (bytes, graphs) in files {
        spells(rt, graph, *bytes, *graphs);
    }
}

// The file has this first fault.
fn refuses(rt: &impl Abort, bytes: &[u8], kind: G6Kind, line: u64) {
    assert_eq!(rt; scan(bytes, NAMES), Err(G6Fault { kind, line }));
}

// The files have these first faults.
pub(super) fn all_refuse(rt: &impl Abort, files: &[(&[u8], G6Kind, u64)]) {
    for (bytes, kind, line) in files {
        refuses(rt, *bytes, *kind, *line);
    }
}

// Files, and the graphs that they spell.
static SPELLED: [(&[u8], &[Wanted]); 8] = [
    (b"", &[]),
    (b">>graph6<<", &[]),
    (b"?\n", &[(0, &[])]),
    (b"\r\n", &[]),
    (b"DQc\n", &[(5, &[(0, 2), (0, 4), (1, 3), (3, 4)])]),
    (b"DhO\n", &[(5, &[(0, 1), (1, 2), (2, 3), (1, 4)])]),
    (b">>graph6<<Ch\n", &[(4, &[(0, 1), (1, 2), (2, 3)])]),
    (
        b"@\nA?\nA_\n\nBw\r\nBg",
        &[
            (1, &[]),
            (2, &[]),
            (2, &[(0, 1)]),
            (3, &[(0, 1), (0, 2), (1, 2)]),
            (3, &[(0, 1), (1, 2)]),
        ],
    ),
];

#[test]
fn files_spell(rt: HostRuntime) -> Result<(), Fail> {
    let mut graph = Graph::new(rt.alloc())?;
    all_spell(&rt, &mut graph, &SPELLED);
    Ok(())
}

#[test]
fn empty_lines_are_passed_over(rt: HostRuntime) -> Result<(), Fail> {
    let bytes = b"\r\n\nA_\n\r";
    let Ok(_) = scan(bytes, NAMES) else {
        panic!(&rt; "a fault");
    };
    let mut graph: GraphOf<1> = GraphOf::new(rt.alloc())?;
    let mut lines = Lines::new(bytes);
    assert_eq!(&rt; lines.next_bound(), 2);
    assert!(&rt; lines.take_first(&mut graph));
    assert!(&rt; graph.has_edge(0, 1));
    assert_eq!(&rt; lines.next_bound(), 0);
    Ok(())
}

#[test]
fn long_sizes_are_read(rt: HostRuntime) -> Result<(), Fail> {
    let mut graph = Graph::new(rt.alloc())?;
    let mut file = Vec::new(rt.alloc());
    file.push(b'}')?;
    file.resize(317, b'?')?;
    spells(&rt, &mut graph, &file, &[(62, &[])]);
    file.clear();
    file.extend_from_slice(b"~??~")?;
    file.resize(330, b'?')?;
    file.push(b'\n')?;
    spells(&rt, &mut graph, &file, &[(63, &[])]);
    file.clear();
    file.extend_from_slice(b"~@??")?;
    file.resize(1_397_764, b'?')?;
    spells(&rt, &mut graph, &file, &[(4096, &[])]);
    Ok(())
}

// As many vertices as the limit aren't too many, one more is.
#[test]
fn limits(rt: HostRuntime) {
    let many = G6Fault {
        kind: G6Kind::TooManyVertices,
        line: 2,
    };
    assert_eq!(&rt; scan(b"@\nA_\n", 2), Ok(2));
    assert_eq!(&rt; scan(b"@\nA_\n", 1), Err(many));
    assert_eq!(&rt; scan(b"@\n~@?@\n", 4_096), Err(many));
}

// Files, and their first faults.
static REFUSED: [(&[u8], G6Kind, u64); 16] = [
    (b"A`\n", G6Kind::BadPadding, 1),
    (b"DhO\nDQ\n", G6Kind::Truncated, 2),
    (b"~??}\n", G6Kind::BadSize, 1),
    (b"~@?@\n", G6Kind::Truncated, 1),
    (b"~C?@\n", G6Kind::TooManyVertices, 1),
    (b"~?\n", G6Kind::Truncated, 1),
    (b"A__\n", G6Kind::TrailingBytes, 1),
    (b"@\nB!\n", G6Kind::BadByte, 2),
    (b";Fa@x^\n", G6Kind::OtherFormat, 1),
    (b"&DI?AO?\n", G6Kind::OtherFormat, 1),
    (b"~~??????\n", G6Kind::BadSize, 1),
    (b"~~???}~~\n", G6Kind::BadSize, 1),
    (b"~~???~??\n", G6Kind::TooManyVertices, 1),
    (b"~~~~~~~~\n", G6Kind::TooManyVertices, 1),
    (b"~~?\n", G6Kind::Truncated, 1),
    (b">>graph6<\n", G6Kind::BadByte, 1),
];

#[test]
fn faults_are_named(rt: HostRuntime) {
    all_refuse(&rt, &REFUSED);
}
