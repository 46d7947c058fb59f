//! Trees of graphs that may be states of sessions, and of graphs that may not.
use super::reports::session_answer;
use md_bar::Class;
use md_checker::CheckAnswer;
use md_input::Format;
use md_report::SessionMode;
use std::alloc::Global;
use std::process::Abort;
use std::test::Fail;

const PATH: &[u8] = b"Ch\n";

const CYCLE: &[u8] = b"Cl\n";

const EDGES: &[u8] = b"C`\n";

const STAR: &[u8] = b"Cs\n";

// Sees whether a report of a session without edits is right that has the line alone.
fn check_state(
    rt: &impl Abort,
    alloc: Global,
    session: (SessionMode, &[u8]),
    graph: (Format, &[u8]),
    line: &[u8],
    want: bool,
) -> Result<(), Fail> {
    let (mode, word) = session;
    let mut report = Vec::new(alloc);
    for piece in [b"mdt ", word, b"\n", line, b"\nend\n"] {
        report.extend_from_slice(piece)?;
    }
    let answer = session_answer(rt, alloc, mode, graph, b"", &report);
    let wanted = if want {
        CheckAnswer::Accepted
    } else {
        CheckAnswer::Rejected(2)
    };
    assert_eq!(rt; answer, wanted);
    Ok(())
}

const EDIT: (SessionMode, &[u8]) = (SessionMode::Edit, b"edit");

const COGRAPH: (SessionMode, &[u8]) = (SessionMode::Cograph, b"cograph");

const QUIET: (SessionMode, &[u8]) = (SessionMode::Quiet, b"quiet");

const TRIVIAL: (SessionMode, &[u8]) = (SessionMode::Of(Class::Trivial), b"trivial");

const THRESHOLD: (SessionMode, &[u8]) = (SessionMode::Of(Class::Threshold), b"threshold");

static STATES: [((SessionMode, &[u8]), &[u8], &[u8], bool); 15] = [
    (EDIT, PATH, b"t R(0,1,2,3;0-1,1-2,2-3)", true),
    (COGRAPH, PATH, b"t R(0,1,2,3;0-1,1-2,2-3)", false),
    (QUIET, PATH, b"t R(0,1,2,3;0-1,1-2,2-3)", false),
    (TRIVIAL, PATH, b"t R(0,1,2,3;0-1,1-2,2-3)", false),
    (THRESHOLD, PATH, b"t R(0,1,2,3;0-1,1-2,2-3)", false),
    (COGRAPH, CYCLE, b"t S(P(0,2),P(1,3))", true),
    (TRIVIAL, CYCLE, b"t S(P(0,2),P(1,3))", false),
    (THRESHOLD, CYCLE, b"t S(P(0,2),P(1,3))", false),
    (COGRAPH, EDGES, b"t P(S(0,1),S(2,3))", true),
    (TRIVIAL, EDGES, b"t P(S(0,1),S(2,3))", true),
    (THRESHOLD, EDGES, b"t P(S(0,1),S(2,3))", false),
    (TRIVIAL, STAR, b"t S(0,P(1,2,3))", true),
    (THRESHOLD, STAR, b"t S(0,P(1,2,3))", true),
    (THRESHOLD, STAR, b"t S(0,1,2,3)", false),
    (THRESHOLD, STAR, b"ok S(0,P(1,2,3))", false),
];

#[test]
fn states(rt: HostRuntime) -> Result<(), Fail> {
    for (session, file, line, want) in &STATES {
        check_state(&rt, rt.alloc(), *session, (Format::G6, *file), *line, *want)?;
    }
    Ok(())
}

// How many nodes stand above one another in a deep tree.
const DEPTH: u32 = 50;

// The lines of the edges of a deep graph on the vertices from 1 on, and how many there are. Its
// last four vertices stand below nodes, series nodes and parallel ones in turn, each of which has a
// name besides.
fn deep_edges(alloc: Global, depth: u32, inner: &[(u32, u32)]) -> Result<(Vec<u8>, u64), Fail> {
    let mut lines = Vec::new(alloc);
    let mut count: u64 = 0;
    for v in 1..depth.saturating_add(1) {
        if v % 2 == 1 {
            for w in v.saturating_add(1)..depth.saturating_add(5) {
                let line = format!(in alloc; "e {v} {w}\n")?;
                lines.extend_from_slice(line.as_bytes())?;
                count = count.saturating_add(1);
            }
        }
    }
    for (v, w) in inner {
        let first = depth.saturating_add(*v);
        let second = depth.saturating_add(*w);
        let line = format!(in alloc; "e {first} {second}\n")?;
        lines.extend_from_slice(line.as_bytes())?;
        count = count.saturating_add(1);
    }
    Ok((lines, count))
}

// The line of its tree; the text of the inner tree has the digits 1 to 4 for its vertices.
fn deep_line(alloc: Global, depth: u32, inner: &[u8]) -> Result<Vec<u8>, Fail> {
    let mut text = Vec::new(alloc);
    text.extend_from_slice(b"t ")?;
    for v in 1..depth.saturating_add(1) {
        let letter = if v % 2 == 1 { "S" } else { "P" };
        let begun = format!(in alloc; "{letter}({v},")?;
        text.extend_from_slice(begun.as_bytes())?;
    }
    for byte in inner {
        if *byte >= b'1' && *byte <= b'4' {
            let name = format!(in alloc; "{}", depth.saturating_add(u32::from(*byte - b'0')))?;
            text.extend_from_slice(name.as_bytes())?;
        } else {
            text.push(*byte)?;
        }
    }
    for _ in 0..depth {
        text.push(b')')?;
    }
    Ok(text)
}

static DEEP: [((SessionMode, &[u8]), u32, &[(u32, u32)], &[u8], bool); 7] = [
    (
        TRIVIAL,
        DEPTH,
        &[(1, 2), (1, 3), (1, 4)],
        b"S(1,P(2,3,4))",
        true,
    ),
    (
        THRESHOLD,
        DEPTH,
        &[(1, 2), (1, 3), (1, 4)],
        b"S(1,P(2,3,4))",
        true,
    ),
    (
        COGRAPH,
        DEPTH,
        &[(1, 2), (1, 4), (2, 3), (3, 4)],
        b"S(P(1,3),P(2,4))",
        true,
    ),
    (
        TRIVIAL,
        DEPTH,
        &[(1, 2), (1, 4), (2, 3), (3, 4)],
        b"S(P(1,3),P(2,4))",
        false,
    ),
    (
        THRESHOLD,
        DEPTH,
        &[(1, 2), (1, 4), (2, 3), (3, 4)],
        b"S(P(1,3),P(2,4))",
        false,
    ),
    (
        TRIVIAL,
        DEPTH + 1,
        &[(1, 2), (3, 4)],
        b"P(S(1,2),S(3,4))",
        true,
    ),
    (
        THRESHOLD,
        DEPTH + 1,
        &[(1, 2), (3, 4)],
        b"P(S(1,2),S(3,4))",
        false,
    ),
];

// The file of a deep graph.
fn deep_file(alloc: Global, depth: u32, inner: &[(u32, u32)]) -> Result<Vec<u8>, Fail> {
    let (lines, count) = deep_edges(alloc, depth, inner)?;
    let head = format!(in alloc; "p edge {} {count}\n", depth.saturating_add(4))?;
    let mut file = Vec::new(alloc);
    file.extend_from_slice(head.as_bytes())?;
    file.extend_from_slice(&lines)?;
    Ok(file)
}

fn check_deep(
    rt: &impl Abort,
    alloc: Global,
    session: (SessionMode, &[u8]),
    depth: u32,
    edges: &[(u32, u32)],
    text: &[u8],
    want: bool,
) -> Result<(), Fail> {
    let file = deep_file(alloc, depth, edges)?;
    let line = deep_line(alloc, depth, text)?;
    check_state(rt, alloc, session, (Format::Dimacs, &file), &line, want)
}

#[test]
fn deep_states(rt: HostRuntime) -> Result<(), Fail> {
    for (session, depth, edges, text, want) in &DEEP {
        check_deep(&rt, rt.alloc(), *session, *depth, *edges, *text, *want)?;
    }
    Ok(())
}
