//! Reports and their answers.
use md_checker::{CheckAnswer, Checker, check_graphs, check_session};
use md_input::{Format, InputStop};
use md_report::{GraphMode, Line, Mode, SessionMode};
use md_tree::read_tree;
use std::alloc::Global;
use std::process::Abort;
use std::test::Fail;

// The answer of a report over the graphs of a file of lines.
fn answer_of(
    rt: &impl Abort,
    alloc: Global,
    mode: GraphMode,
    file: &[u8],
    report: &[u8],
) -> CheckAnswer {
    let Ok(answer) = check_graphs(alloc, mode, Format::G6, file, report) else {
        panic!(rt; "stopped");
    };
    answer
}

const ACCEPTED: CheckAnswer = CheckAnswer::Accepted;

const GROWN: (&[u8], &[u8]) = (b"@\n", b"+v 1 0\n+v 1\n");

const PATH_EDIT: (&[u8], &[u8]) = (b"Ch\n", b"+e 0 2\n");

const REFUSED: (&[u8], &[u8]) = (b"Cg\n", b"+e 2 3\n+e 1 3\n");

const ALONE: (&[u8], &[u8]) = (b"@\n", b"");

const PATH_ALONE: (&[u8], &[u8]) = (b"Ch\n", b"");

const PATH_GROWN: (&[u8], &[u8]) = (b"C?\n", b"+e 0 1\n+e 1 2\n+e 2 3\n+e 0 1\n");

const CYCLE: (&[u8], &[u8]) = (b"Cl\n", b"+v 0\n");

const NESTED: (&[u8], &[u8]) = (b"Etg?\n", b"+v 0\n");

const PATH_OF_FOUR: (&[u8], &[u8]) = (b"DHC\n", b"+v 0\n");

const CYCLE_OF_FIVE: (&[u8], &[u8]) = (b"Dhc\n", b"+v 0\n");

static OVER_GRAPHS: [(GraphMode, &[u8], &[u8], CheckAnswer); 14] = [
    (
        GraphMode::Tree,
        b"Bw\n",
        b"mdt tree\nt S(0,1,2)\nend\n",
        ACCEPTED,
    ),
    (
        GraphMode::Tree,
        b"Bw\n",
        b"mdt tree\nt S(0,1,2)\n",
        CheckAnswer::Rejected(3),
    ),
    (
        GraphMode::Tree,
        b"Bw\n",
        b"mdt tree\nt S(0,1,2)\nend",
        CheckAnswer::Rejected(3),
    ),
    (
        GraphMode::Tree,
        b"Bw\n",
        b"mdt tree\nt S(0,1,2)\nend\nend\n",
        CheckAnswer::Rejected(4),
    ),
    (
        GraphMode::Tree,
        b"Bw\n",
        b"mdt tree\nt P(0,1,2)\nend\n",
        CheckAnswer::Rejected(2),
    ),
    (
        GraphMode::Tree,
        b"Bw\n",
        b"mdt tree\nt S(0,1,2)\nt S(0,1,2)\nend\n",
        CheckAnswer::Rejected(3),
    ),
    (
        GraphMode::Tree,
        b"Bw\n",
        b"mdt edit\nt S(0,1,2)\nend\n",
        CheckAnswer::Rejected(1),
    ),
    (
        GraphMode::Tree,
        b"Bw\n",
        b"mdt tree\r\nt S(0,1,2)\nend\n",
        CheckAnswer::Rejected(1),
    ),
    (GraphMode::Tree, b"Bw\n", b"", CheckAnswer::Rejected(1)),
    (GraphMode::Tree, b"", b"mdt tree\nend\n", ACCEPTED),
    (
        GraphMode::Compare,
        b"Bw\n",
        b"mdt compare\nyes 0>1 0>2 1>2\nend\n",
        ACCEPTED,
    ),
    (
        GraphMode::Compare,
        b"Bw\n",
        b"mdt compare\nyes 0>1 0>2 2>1\nend\n",
        CheckAnswer::Rejected(2),
    ),
    (
        GraphMode::Permute,
        b"Bw\n",
        b"mdt permute\nyes 0 1 2 / 2 1 0\nend\n",
        ACCEPTED,
    ),
    (
        GraphMode::Permute,
        b"Bw\n",
        b"mdt permute\nyes 0 1 2 / 2 0 1\nend\n",
        CheckAnswer::Rejected(2),
    ),
];

#[test]
fn reports_over_graphs(rt: HostRuntime) {
    for (mode, file, report, want) in &OVER_GRAPHS {
        let got = answer_of(&rt, rt.alloc(), *mode, *file, *report);
        assert!(&rt; got == *want);
    }
}

// Graphs of 2, 64 and 2 vertices.
#[test]
fn small_and_large_graphs(rt: HostRuntime) -> Result<(), Fail> {
    let alloc = rt.alloc();
    let mut file = Vec::new(alloc);
    file.extend_from_slice(b"A_\n~?@?")?;
    for _ in 0..336 {
        file.push(b'?')?;
    }
    file.extend_from_slice(b"\nA_\n")?;
    let mut report = Vec::new(alloc);
    report.extend_from_slice(b"mdt tree\nt S(0,1)\nt P(0")?;
    for v in 1..64 {
        let name = format!(in alloc; ",{v}")?;
        report.extend_from_slice(name.as_bytes())?;
    }
    report.extend_from_slice(b")\nt S(0,1)\nend\n")?;
    let answer = answer_of(&rt, alloc, GraphMode::Tree, &file, &report);
    assert!(&rt; answer == CheckAnswer::Accepted);
    Ok(())
}

// The answer of a report of a session on the one graph of a file, or why there is none.
fn judge(
    alloc: Global,
    mode: SessionMode,
    graph: (Format, &[u8]),
    script: &[u8],
    report: &[u8],
) -> Result<CheckAnswer, InputStop> {
    let (format, file) = graph;
    check_session(alloc, mode, format, file, script, report)
}

// The answer of a report of a session on the one graph of a file.
pub(super) fn session_answer(
    rt: &impl Abort,
    alloc: Global,
    mode: SessionMode,
    graph: (Format, &[u8]),
    script: &[u8],
    report: &[u8],
) -> CheckAnswer {
    let Ok(answer) = judge(alloc, mode, graph, script, report) else {
        panic!(rt; "stopped");
    };
    answer
}

// Sees that the answer of a report of a session on the one graph of a file of lines is this one.
fn expect_session(
    rt: &impl Abort,
    alloc: Global,
    mode: SessionMode,
    files: (&[u8], &[u8]),
    report: &[u8],
    want: CheckAnswer,
) {
    let (file, script) = files;
    let got = session_answer(rt, alloc, mode, (Format::G6, file), script, report);
    assert_eq!(rt; got, want);
}

static OF_SESSIONS: [(SessionMode, (&[u8], &[u8]), &[u8], CheckAnswer); 13] = [
    (
        SessionMode::Edit,
        GROWN,
        b"mdt edit\nt 0\nok S(0,1)\nno taken 1\nend\n",
        ACCEPTED,
    ),
    (
        SessionMode::Edit,
        GROWN,
        b"mdt edit\nt 0\nok S(0,1)\nend\n",
        CheckAnswer::Rejected(4),
    ),
    (
        SessionMode::Edit,
        GROWN,
        b"mdt edit\nt 0\nok P(0,1)\nno taken 1\nend\n",
        CheckAnswer::Rejected(3),
    ),
    (
        SessionMode::Cograph,
        PATH_EDIT,
        b"mdt cograph\np4 0 1 2 3\nend\n",
        ACCEPTED,
    ),
    (
        SessionMode::Cograph,
        PATH_EDIT,
        b"mdt cograph\np4 0 1 2 3\nok S(2,P(0,1,3))\nend\n",
        CheckAnswer::Rejected(3),
    ),
    (
        SessionMode::Cograph,
        PATH_EDIT,
        b"mdt cograph\np4 0 2 1 3\nend\n",
        CheckAnswer::Rejected(2),
    ),
    // The tree is right, but the graph is no cograph.
    (
        SessionMode::Cograph,
        PATH_EDIT,
        b"mdt cograph\nt R(0,1,2,3;0-1,1-2,2-3)\nend\n",
        CheckAnswer::Rejected(2),
    ),
    (
        SessionMode::Cograph,
        REFUSED,
        b"mdt cograph\nt P(S(P(0,2),1),3)\nno p4 0 1 2 3\nok S(P(0,2,3),1)\nend\n",
        ACCEPTED,
    ),
    (
        SessionMode::Cograph,
        REFUSED,
        b"mdt cograph\nt P(S(0,1,2),3)\nno p4 0 1 2 3\nok S(P(0,2,3),1)\nend\n",
        CheckAnswer::Rejected(2),
    ),
    (
        SessionMode::Cograph,
        REFUSED,
        b"mdt cograph\nt P(S(P(0,2),1),3)\nok R(0,1,2,3;0-1,1-2,2-3)\n",
        CheckAnswer::Rejected(3),
    ),
    (
        SessionMode::Cograph,
        REFUSED,
        b"mdt cograph\nt P(S(P(0,2),1),3)\nno p4 0 1 2 3\nok S(P(0,2),1,3)\nend\n",
        CheckAnswer::Rejected(4),
    ),
    (
        SessionMode::Cograph,
        REFUSED,
        b"mdt cograph\nt P(S(P(0,2),1),3)\nno p4 0 1 2 3\nok\nend\n",
        CheckAnswer::Rejected(4),
    ),
    (
        SessionMode::Edit,
        (b"Ch\n", b""),
        b"mdt edit\nt R(0,1,2,3;0-1,1-2,2-3)\nend\n",
        ACCEPTED,
    ),
];

#[test]
fn reports_of_sessions(rt: HostRuntime) {
    for (mode, files, report, want) in &OF_SESSIONS {
        expect_session(&rt, rt.alloc(), *mode, *files, *report, *want);
    }
}

static QUIET: [((&[u8], &[u8]), &[u8], CheckAnswer); 23] = [
    (ALONE, b"mdt quiet\nt 0\nend\n", ACCEPTED),
    (ALONE, b"mdt quiet\nt 1\nend\n", CheckAnswer::Rejected(2)),
    (ALONE, b"mdt quiet\nt 0\n", CheckAnswer::Rejected(3)),
    (
        PATH_ALONE,
        b"mdt quiet\nt R(0,1,2,3;0-1,1-2,2-3)\nend\n",
        CheckAnswer::Rejected(2),
    ),
    (
        PATH_GROWN,
        b"mdt quiet\nok\nok\nno p4 0 1 2 3\nno edge-there\nt P(S(0,1,2),3)\nend\n",
        CheckAnswer::Rejected(6),
    ),
    (PATH_EDIT, b"mdt quiet\np4 0 1 2 3\nend\n", ACCEPTED),
    (PATH_EDIT, b"mdt quiet\nok\n", CheckAnswer::Rejected(2)),
    (
        PATH_GROWN,
        b"mdt quiet\nok\nok\nno p4 0 1 2 3\nno edge-there\nt P(S(P(0,2),1),3)\nend\n",
        ACCEPTED,
    ),
    (
        PATH_GROWN,
        b"ok\nok\nno p4 0 1 2 3\nno edge-there\nt P(S(P(0,2),1),3)\nend\n",
        CheckAnswer::Rejected(1),
    ),
    (
        PATH_GROWN,
        b"mdt quiet\nok\nno p4 0 1 2 3\nno edge-there\nt P(S(P(0,2),1),3)\nend\n",
        CheckAnswer::Rejected(3),
    ),
    (
        PATH_GROWN,
        b"mdt quiet\nok\nok\nno edge-there\nt P(S(P(0,2),1),3)\nend\n",
        CheckAnswer::Rejected(4),
    ),
    (
        PATH_GROWN,
        b"mdt quiet\nok\nok\nno p4 0 1 2 3\nt P(S(P(0,2),1),3)\nend\n",
        CheckAnswer::Rejected(5),
    ),
    (
        PATH_GROWN,
        b"mdt quiet\nok\nok\nno p4 0 1 2 3\nno edge-there\nend\n",
        CheckAnswer::Rejected(6),
    ),
    (
        PATH_GROWN,
        b"mdt quiet\nok\nok\nno p4 0 1 2 3\nno edge-there\nt P(S(P(0,2),1),3)\n",
        CheckAnswer::Rejected(7),
    ),
    (
        PATH_GROWN,
        b"mdt quiet\nok\nok\nok\nno edge-there\nt P(0,1,2,3)\nend\n",
        CheckAnswer::Rejected(4),
    ),
    (
        PATH_GROWN,
        b"mdt quiet\nok P(S(0,1),2,3)\n",
        CheckAnswer::Rejected(2),
    ),
    (
        PATH_GROWN,
        b"mdt quiet\nok\nt P(S(0,1),2,3)\n",
        CheckAnswer::Rejected(3),
    ),
    (
        PATH_GROWN,
        b"mdt quiet\np4 0 1 2 3\nend\n",
        CheckAnswer::Rejected(2),
    ),
    (
        (b"?\n", b"+e 0 1\n"),
        b"mdt quiet\nno vertex 0\nt empty\nend\n",
        ACCEPTED,
    ),
    (
        CYCLE,
        b"mdt quiet\nno taken 0\nt S(P(0,2),P(1,3))\nend\n",
        ACCEPTED,
    ),
    (
        NESTED,
        b"mdt quiet\nno taken 0\nt P(S(0,P(1,S(2,P(3,4)))),5)\nend\n",
        ACCEPTED,
    ),
    (
        PATH_OF_FOUR,
        b"mdt quiet\nno taken 0\n",
        CheckAnswer::Rejected(2),
    ),
    (
        CYCLE_OF_FIVE,
        b"mdt quiet\nno taken 0\n",
        CheckAnswer::Rejected(2),
    ),
];

#[test]
fn reports_in_mode_quiet(rt: HostRuntime) {
    for (files, report, want) in &QUIET {
        expect_session(&rt, rt.alloc(), SessionMode::Quiet, *files, *report, *want);
    }
}

// Sees whether the checker takes the line.
fn feed(
    rt: &impl Abort,
    alloc: Global,
    checker: &mut Checker<'_>,
    line: &Line,
    want: bool,
) -> Result<(), Fail> {
    assert_eq!(rt; checker.feed(alloc, line)?, want);
    Ok(())
}

// Sees whether the lines so far are a whole report.
fn expect_complete(rt: &impl Abort, checker: &Checker<'_>, want: bool) {
    assert_eq!(rt; checker.complete(), want);
}

// Feeds a checker of the tree report of one graph.
fn feed_lines(
    rt: &impl Abort,
    alloc: Global,
    checker: &mut Checker<'_>,
    tree: &Line,
) -> Result<(), Fail> {
    feed(rt, alloc, checker, &Line::End, false)?;
    expect_complete(rt, checker, false);
    feed(rt, alloc, checker, &Line::Head(Mode::Tree), true)?;
    feed(rt, alloc, checker, &Line::End, false)?;
    feed(rt, alloc, checker, tree, true)?;
    expect_complete(rt, checker, false);
    feed(rt, alloc, checker, &Line::End, true)?;
    expect_complete(rt, checker, true);
    Ok(())
}

#[test]
fn lines_fed(rt: HostRuntime) -> Result<(), Fail> {
    let alloc = rt.alloc();
    let Ok(mut checker) = Checker::over_graphs(alloc, GraphMode::Tree, Format::G6, b"DhO\n") else {
        panic!(&rt; "stopped");
    };
    let Ok(tree) = read_tree(alloc, b"R(P(0,4),1,2,3;0-1,1-2,2-3)") else {
        panic!(&rt; "not read");
    };
    feed_lines(&rt, alloc, &mut checker, &Line::Tree(tree))
}
