//! Graph files and scripts in each format, as inputs of the program, with memory enough.
ghost use Rattle.std.specs.Prelude.{◌≡◌, OnOk};
ghost use Rattle.md_graph.specs.PlainGraph.{empty_graph};

use md_dimacs::{DimacsFault, DimacsKind};
use md_graph::{Graph, Memory, NAMES};
use md_graph6::{G6Fault, G6Kind};
use md_input::{
    Fault, Format, GraphBySize, Graphs, InputStop, Room, SessionInputs, session_inputs,
};
use md_script::ScriptKind;
use std::alloc::Global;
use std::process::Abort;
use std::test::Fail;

// What the room has: the words a row, the vertices, and the edges.
fn has(room: &Room) -> (u32, u32, u32) {
    match room.graph() {
        GraphBySize::Small(graph) => (1, graph.count(), graph.edge_count()),
        GraphBySize::Medium(graph) => (16, graph.count(), graph.edge_count()),
        GraphBySize::Broad(graph) => (64, graph.count(), graph.edge_count()),
        GraphBySize::Large(graph) => (256, graph.count(), graph.edge_count()),
    }
}

// This is what the room has of the next graph.
fn next_has(
    rt: &impl Abort,
    alloc: Global,
    graphs: &mut Graphs,
    room: &mut Room,
    wanted: (u32, u32, u32),
) -> Result<(), Fail>
    requires { room.old ≡ empty_graph }
    ensures { OnOk result (room.new ≡ empty_graph) }
{
    assert!(rt; graphs.next_into(alloc, room)?);
    assert_eq!(rt; has(room), wanted);
    room.clear();
    Ok(())
}

// The file is read, and this is what the room has of its graphs, one after the other.
fn reads(
    rt: &impl Abort,
    alloc: Global,
    from: Format,
    file: &[u8],
    wanted: &[(u32, u32, u32)],
) -> Result<(), Fail> {
    let Ok(mut graphs) = Graphs::read(alloc, NAMES, from, file) else {
        panic!(rt; "a fault");
    };
    let mut room = Room::new(alloc)?;
    for graph in wanted {
        next_has(rt, alloc, &mut graphs, &mut room, *graph)?;
    }
    assert!(rt; !graphs.next_into(alloc, &mut room)?);
    Ok(())
}

// The file has this fault.
fn refuses(rt: &impl Abort, alloc: Global, from: Format, file: &[u8], fault: Fault) {
    let Err(stop) = Graphs::read(alloc, NAMES, from, file) else {
        panic!(rt; "no fault");
    };
    assert!(rt; stop == InputStop::BadInput(fault));
}

// What the room has of the graphs of the first file.
static THREE: [(u32, u32, u32); 3] = [(1, 1, 0), (1, 2, 0), (1, 3, 3)];

#[test]
fn graphs_of_files(rt: HostRuntime) -> Result<(), Fail> {
    let alloc = rt.alloc();
    reads(&rt, alloc, Format::G6, b"@\nA?\n\nBw", &THREE)?;
    let padded = G6Fault {
        kind: G6Kind::BadPadding,
        line: 2,
    };
    refuses(&rt, alloc, Format::G6, b"@\nA`\n", Fault::Graph6(padded));
    let unknown = DimacsFault {
        kind: DimacsKind::UnknownLine,
        line: 1,
    };
    refuses(&rt, alloc, Format::Dimacs, b"q\n", Fault::Dimacs(unknown));
    Ok(())
}

// Puts the line of a graph of n vertices, whose first and last are joined.
fn push_line(rt: &impl Abort, alloc: Global, n: u32, text: &mut Vec<u8>) -> Result<(), Memory> {
    assert!(rt; n <= NAMES);
    let ends = [(0, n.saturating_sub(1))];
    let edges = if n > 1 { ends.as_slice() } else { &[] };
    let graph = Graph::from_edges(alloc, n, edges)?.expect(rt, "edges");
    text.extend_from_slice(md_graph6::write(alloc, &graph)?.as_slice())?;
    Ok(())
}

// The lines of graphs of so many vertices come one after the other into rows of so many words.
fn come(rt: &impl Abort, alloc: Global, sizes: &[(u32, u32)]) -> Result<(), Fail> {
    let mut text = Vec::new(alloc);
    let mut wanted = Vec::new(alloc);
    for (n, words) in sizes {
        push_line(rt, alloc, *n, &mut text)?;
        wanted.push((*words, *n, u32::from(*n > 1)))?;
    }
    reads(rt, alloc, Format::G6, &text, &wanted)
}

// Numbers of vertices, and the words a row that they come into.
static SIZES: [(u32, u32); 12] = [
    (0, 1),
    (62, 1),
    (63, 1),
    (64, 1),
    (65, 16),
    (1_023, 16),
    (1_024, 16),
    (1_025, 64),
    (4_095, 64),
    (4_096, 64),
    (4_097, 256),
    (5_000, 256),
];

#[test]
fn lines_of_all_sizes(rt: HostRuntime) -> Result<(), Fail> {
    let alloc = rt.alloc();
    come(&rt, alloc, &SIZES)?;
    let mut sizes = Vec::new(alloc);
    sizes.extend_from_slice(&SIZES)?;
    sizes.reverse();
    come(&rt, alloc, &sizes)
}

// Edge files, and the words a row, the vertices and the edges of their graphs.
static EDGE_FILES: [(&str, (u32, u32, u32)); 9] = [
    ("p edge 3 1\ne 1 2\n", (1, 3, 1)),
    ("p edge 62 2\ne 62 1\ne 2 62\n", (1, 62, 2)),
    ("p edge 63 2\ne 63 1\ne 2 63\n", (1, 63, 2)),
    ("p edge 64 2\ne 64 1\ne 2 64\n", (16, 64, 2)),
    ("p edge 1023 2\ne 1023 1\ne 2 1023\n", (16, 1_023, 2)),
    ("p edge 1024 2\ne 1024 1\ne 2 1024\n", (64, 1_024, 2)),
    ("p edge 4095 2\ne 4095 1\ne 2 4095\n", (64, 4_095, 2)),
    ("p edge 4096 2\ne 4096 1\ne 2 4096\n", (256, 4_096, 2)),
    ("p edge 16383 2\ne 16383 1\ne 2 16383\n", (256, 16_383, 2)),
];

// Limits of the number of vertices, and whether a graph on ten is within.
static LIMITS: [(u32, bool); 5] = [
    (9, false),
    (10, false),
    (11, true),
    (64, true),
    (4_096, true),
];

#[test]
fn edge_files_of_all_sizes(rt: HostRuntime) -> Result<(), Fail> {
    for (file, wanted) in &EDGE_FILES {
        reads(&rt, rt.alloc(), Format::Dimacs, file.as_bytes(), &[*wanted])?;
    }
    let many = DimacsFault {
        kind: DimacsKind::TooManyVertices,
        line: 1,
    };
    refuses(
        &rt,
        rt.alloc(),
        Format::Dimacs,
        b"p edge 16384 0\n",
        Fault::Dimacs(many),
    );
    for (limit, wanted) in &LIMITS {
        let read = Graphs::read(rt.alloc(), *limit, Format::Dimacs, b"p edge 10 0\n");
        assert!(&rt; read.is_ok() == *wanted);
    }
    let loops = DimacsFault {
        kind: DimacsKind::Loop,
        line: 2,
    };
    refuses(
        &rt,
        rt.alloc(),
        Format::Dimacs,
        b"p edge 70 1\ne 70 70\n",
        Fault::Dimacs(loops),
    );
    Ok(())
}

// The words a row, the vertices, and the edits of the session's inputs.
fn sizes_of(inputs: &SessionInputs) -> (u32, u32, u64) {
    match inputs {
        SessionInputs::Broad(graph, script) => (64, graph.count(), script.len()),
        SessionInputs::Large(graph, script) => (256, graph.count(), script.len()),
    }
}

// The graph file and the script are read, into rows of so many words.
fn are_read(
    rt: &impl Abort,
    alloc: Global,
    from: Format,
    file: &[u8],
    script: &str,
    wanted: (u32, u32, u64),
) {
    let Ok(inputs) = session_inputs(alloc, from, file, script.as_bytes()) else {
        panic!(rt; "a fault");
    };
    assert_eq!(rt; sizes_of(&inputs), wanted, "{script}");
}

// The two have this first fault.
fn are_refused(
    rt: &impl Abort,
    alloc: Global,
    from: Format,
    file: &[u8],
    script: &str,
    fault: Fault,
) {
    let Err(stop) = session_inputs(alloc, from, file, script.as_bytes()) else {
        panic!(rt; "no fault");
    };
    assert!(rt; stop == InputStop::BadInput(fault));
}

// Scripts, the words a row that they take, and their edits.
static SCRIPTS: [(&str, u32, u64); 8] = [
    ("", 64, 0),
    ("+e 0 1\n# none\n-v 1\n", 64, 2),
    ("+e 4095 0\n", 64, 1),
    ("-e 4095 4096\n", 256, 1),
    ("-e 4096 0\n+v 1\n", 256, 2),
    ("+v 9 4095\n", 64, 1),
    ("+v 9 7 4096 8\n", 256, 1),
    ("-v 16383\n", 256, 1),
];

#[test]
fn inputs_of_sessions(rt: HostRuntime) -> Result<(), Fail> {
    let alloc = rt.alloc();
    for (script, words, edits) in &SCRIPTS {
        are_read(
            &rt,
            alloc,
            Format::G6,
            b"Bw\n",
            *script,
            (*words, 3, *edits),
        );
        are_read(
            &rt,
            alloc,
            Format::Dimacs,
            b"p edge 3 0\n",
            *script,
            (*words, 3, *edits),
        );
    }
    for (n, words) in [(4_095, 64), (4_096, 64), (4_097, 256)] {
        let mut text = Vec::new(alloc);
        push_line(&rt, alloc, n, &mut text)?;
        are_read(&rt, alloc, Format::G6, &text, "-v 0\n", (words, n, 1));
    }
    for (file, n, words) in [
        ("p edge 4095 0\n", 4_095, 64),
        ("p edge 4096 0\n", 4_096, 256),
    ] {
        are_read(
            &rt,
            alloc,
            Format::Dimacs,
            file.as_bytes(),
            "",
            (words, n, 0),
        );
    }
    Ok(())
}

#[test]
fn faults_of_inputs(rt: HostRuntime) -> Result<(), Fail> {
    let alloc = rt.alloc();
    let loops = DimacsFault {
        kind: DimacsKind::Loop,
        line: 2,
    };
    let looped = b"p edge 70 1\ne 70 70\n";
    are_refused(
        &rt,
        alloc,
        Format::Dimacs,
        looped,
        "*\n",
        Fault::Dimacs(loops),
    );
    are_refused(&rt, alloc, Format::G6, b"", "*\n", Fault::NotOneGraph(0));
    are_refused(&rt, alloc, Format::G6, b"@\n@\n", "", Fault::NotOneGraph(2));
    let unknown = Fault::Script(ScriptKind::UnknownEdit, 2);
    are_refused(&rt, alloc, Format::G6, b"@\n", "+e 0 1\n*\n", unknown);
    for file in [b"p edge 3 0\n".as_slice(), b"p edge 4096 0\n"] {
        are_refused(&rt, alloc, Format::Dimacs, file, "+e 0 1\n*\n", unknown);
    }
    Ok(())
}
