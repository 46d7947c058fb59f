//! DIMACS files with the graphs that they spell or their faults, and graphs with their texts. A
//! copy of a line is in both directions where colouring files have it so; the last file is the
//! Mycielski graph on 11 vertices.
ghost use Rattle.std.specs.Prelude.{◌≤◌};

use DimacsKind::*;
use md_dimacs::{DimacsFault, DimacsKind, read, write};
use md_graph::{Graph, GraphOf, Memory, NAMES};
use std::alloc::Global;
use std::process::Abort;
use std::test::Fail;

fn check_fault(
    rt: &impl Abort,
    alloc: Global,
    file: &str,
    kind: DimacsKind,
    line: u64,
) -> Result<(), Memory> {
    let mut graph = Graph::new(alloc)?;
    assert_eq!(rt;
        read(file.as_bytes(), NAMES, &mut graph),
        Err(DimacsFault { kind, line })
    );
    assert_eq!(rt; graph.count(), 0);
    Ok(())
}

fn check_text(rt: &impl Abort, alloc: Global, file: &str, text: &str) -> Result<(), Memory> {
    let mut graph = Graph::new(alloc)?;
    assert_eq!(rt; read(file.as_bytes(), NAMES, &mut graph), Ok(()));
    let written = write(alloc, &graph)?;
    assert_eq!(rt; written.as_slice(), text.as_bytes());
    Ok(())
}

// Files, and their first faults.
static FAULTS: [(&str, DimacsKind, u64); 17] = [
    ("", NoProblemLine, 1),
    ("c x\n", NoProblemLine, 2),
    ("p edge 1 0\np edge 1 0\n", SecondProblemLine, 2),
    ("e 1 2\n", EdgeBeforeProblem, 1),
    ("p edge x 0\n", BadNumber, 1),
    ("p edge 1 1234567890123456789\n", BadNumber, 1),
    ("p edge 2 1\ne 1 3\n", VertexOutOfRange, 2),
    ("p edge 2 1\ne 2 2\n", Loop, 2),
    ("q\n", UnknownLine, 1),
    ("p edge 16384 0\n", TooManyVertices, 1),
    ("p edge 3\n", FieldCount, 1),
    ("p edge 2 1\ne 1 2 5\n", FieldCount, 2),
    ("p col x\n", FieldCount, 1),
    ("p foo 1 0\n", UnknownLine, 1),
    ("p edge 2 1\ne 1 x\n", BadNumber, 2),
    ("p edge 2 1\ne 0 1\n", VertexOutOfRange, 2),
    ("p edge 2 1\ne 9 9\n", VertexOutOfRange, 2),
];

const MYCIELSKI: &str =
    "p edge 11 20\ne 1 2\ne 1 4\ne 1 7\ne 1 9\ne 2 3\ne 2 6\ne 2 8\ne 3 5\ne 3 7\ne 3 10\ne 4 5\ne 4 6\ne 4 10\ne 5 8\ne 5 9\ne 6 11\ne 7 11\ne 8 11\ne 9 11\ne 10 11\n";

// Files, and what is written of their graphs.
static TEXTS: [(&str, &str); 11] = [
    ("p edge 0 0\n", "p edge 0 0\n"),
    ("p edge 3 999999999999999999\n", "p edge 3 0\n"),
    ("p edge 3 2\ne 1 2\ne 2 3\n", "p edge 3 2\ne 1 2\ne 2 3\n"),
    ("p edge 4096 0\n", "p edge 4096 0\n"),
    ("p edge 16383 0\n", "p edge 16383 0\n"),
    ("p edge 2 1\r\ne 1 2\r\n", "p edge 2 1\ne 1 2\n"),
    ("\tp edge 2 1\n  e 1 2", "p edge 2 1\ne 1 2\n"),
    ("comment\np edge 2 0\n", "p edge 2 0\n"),
    (
        "n 1 2\np edge 2 1\nd 1\nv 2\nx 1 2 3\ne 2 1\n",
        "p edge 2 1\ne 1 2\n",
    ),
    (
        "c queen part\np col 3 4\ne 1 2\ne 2 1\ne 2 3\ne 3 2\n",
        "p edge 3 2\ne 1 2\ne 2 3\n",
    ),
    (MYCIELSKI, MYCIELSKI),
];

#[test]
fn files(rt: HostRuntime) -> Result<(), Fail> {
    for (file, kind, line) in &FAULTS {
        check_fault(&rt, rt.alloc(), *file, *kind, *line)?;
    }
    for (file, text) in &TEXTS {
        check_text(&rt, rt.alloc(), *file, *text)?;
    }
    Ok(())
}

#[test]
fn limits(rt: HostRuntime) -> Result<(), Fail> {
    let many = DimacsFault {
        kind: TooManyVertices,
        line: 1,
    };
    let mut small: GraphOf<1> = GraphOf::new(rt.alloc())?;
    assert_eq!(&rt; read(b"p edge 64 0\n", 64, &mut small), Err(many));
    small.clear();
    let file = b"p edge 63 1\ne 63 1\n";
    assert_eq!(&rt; read(file, 63, &mut small), Err(many));
    small.clear();
    assert_eq!(&rt; read(file, 64, &mut small), Ok(()));
    assert!(&rt; small.has_edge(1, 63));
    let mut large = Graph::new(rt.alloc())?;
    assert_eq!(&rt; read(b"p edge 4096 0\n", 4_096, &mut large), Err(many));
    Ok(())
}

// Takes in a vertex and its edge to the vertex 0.
fn take_ray(graph: &mut Graph, v: u32) {
    if v < NAMES && !graph.has_vertex(v) {
        graph.add_vertex(v);
    }
    if v != 0 && graph.has_vertex(0) && graph.has_vertex(v) && !graph.has_edge(0, v) {
        graph.add_edge(0, v);
    }
}

#[test]
fn rows(rt: HostRuntime) -> Result<(), Fail> {
    let mut graph = Graph::new(rt.alloc())?;
    for v in 0..7 {
        take_ray(&mut graph, v);
    }
    let text = write(rt.alloc(), &graph)?;
    assert_eq!(rt;
        text.as_slice(),
        b"p edge 7 6\ne 1 2\ne 1 3\ne 1 4\ne 1 5\ne 1 6\ne 1 7\n".as_slice()
    );
    Ok(())
}

// The places of the vertices 2, 5 and 9 are written, in a graph of any number of words.
fn writes_places<const W: usize>(
    rt: &impl Abort,
    alloc: Global,
    graph: &mut GraphOf<W>,
) -> Result<(), Fail>
    requires { 1 ≤ W }
{
    for v in [2, 5, 9] {
        if !graph.has_vertex(v) {
            graph.add_vertex(v);
        }
    }
    if graph.has_vertex(2) && graph.has_vertex(9) && !graph.has_edge(2, 9) {
        graph.add_edge(2, 9);
    }
    let text = write(alloc, graph)?;
    assert_eq!(rt; text.as_slice(), b"p edge 3 1\ne 1 3\n".as_slice());
    Ok(())
}

#[test]
fn places(rt: HostRuntime) -> Result<(), Fail> {
    let mut large = Graph::new(rt.alloc())?;
    writes_places(&rt, rt.alloc(), &mut large)?;
    let mut small: GraphOf<1> = GraphOf::new(rt.alloc())?;
    writes_places(&rt, rt.alloc(), &mut small)
}
