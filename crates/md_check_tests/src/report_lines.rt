//! Lines and their texts, there and back.
use super::certificates::arcs_of;
use md_forcing::{Arc, Arcs, Chain};
use md_graph::Memory;
use md_modules::P4;
use md_report::{Line, LineFault, Mode, Order, read_line, write_applied, write_line, write_tree};
use md_script::EditReason;
use md_tree::{Tree, read_tree};
use std::alloc::Global;
use std::process::Abort;
use std::test::Fail;

// Sees that a text is read as a line that has this text again.
fn expect_back(rt: &impl Abort, alloc: Global, text: &str) -> Result<(), Fail> {
    let line = read_line(alloc, text.as_bytes())?;
    let again = write_line(alloc, &line)?;
    assert!(rt; again.as_slice() == text.as_bytes(), "{text}");
    Ok(())
}

// Sees that a line has this text, and that the text is read as a line that has it again.
fn expect(rt: &impl Abort, alloc: Global, line: &Line, text: &str) -> Result<(), Fail> {
    let written = write_line(alloc, line)?;
    assert!(rt; written.as_slice() == text.as_bytes(), "{text}");
    expect_back(rt, alloc, text)
}

fn expect_each(rt: &impl Abort, alloc: Global, rows: &[(Line, &str)]) -> Result<(), Fail> {
    for (line, text) in rows {
        expect(rt, alloc, line, text)?;
    }
    Ok(())
}

#[test]
fn heads(rt: HostRuntime) -> Result<(), Fail> {
    let rows = [
        (Line::Head(Mode::Tree), "mdt tree"),
        (Line::Head(Mode::Edit), "mdt edit"),
        (Line::Head(Mode::Cograph), "mdt cograph"),
        (Line::Head(Mode::Compare), "mdt compare"),
        (Line::Head(Mode::Permute), "mdt permute"),
        (Line::Head(Mode::Quiet), "mdt quiet"),
    ];
    expect_each(&rt, rt.alloc(), &rows)
}

#[test]
fn lines_of_states(rt: HostRuntime) -> Result<(), Fail> {
    let rows = [
        (Line::Tree(None), "t empty"),
        (Line::Tree(Some(Tree::Leaf(12))), "t 12"),
        (Line::Applied(Some(Tree::Leaf(0))), "ok 0"),
        (Line::AppliedQuiet, "ok"),
        (Line::NothingToUndo, "no undo"),
        (Line::End, "end"),
    ];
    expect_each(&rt, rt.alloc(), &rows)
}

// The line of an edit that leaves the graph of the tree with a text.
fn applied_line(alloc: Global, text: &[u8]) -> Result<Line, Fail> {
    Ok(Line::Applied(read_tree(alloc, text)?))
}

#[test]
fn line_of_a_node(rt: HostRuntime) -> Result<(), Fail> {
    let line = applied_line(rt.alloc(), b"P(0,1)")?;
    expect(&rt, rt.alloc(), &line, "ok P(0,1)")
}

// The same of a line that is handed over.
fn expect_line(rt: &impl Abort, alloc: Global, line: Line, text: &str) -> Result<(), Fail> {
    expect(rt, alloc, &line, text)
}

static REASONS: [(EditReason, &str); 5] = [
    (EditReason::Same, "no same"),
    (EditReason::NoVertex(4095), "no vertex 4095"),
    (EditReason::NameTaken(10), "no taken 10"),
    (EditReason::EdgeThere, "no edge-there"),
    (EditReason::EdgeAbsent, "no edge-absent"),
];

#[test]
fn refusals(rt: HostRuntime) -> Result<(), Fail> {
    for (reason, text) in &REASONS {
        expect_line(&rt, rt.alloc(), Line::Refused(*reason), text)?;
    }
    Ok(())
}

static REASONS_OF_GROUPS: [(u64, EditReason, &str); 3] = [
    (1, EditReason::Same, "no edit 1 same"),
    (20, EditReason::NoVertex(4095), "no edit 20 vertex 4095"),
    (200_000, EditReason::EdgeThere, "no edit 200000 edge-there"),
];

#[test]
fn refusals_of_groups(rt: HostRuntime) -> Result<(), Fail> {
    for (number, reason, text) in &REASONS_OF_GROUPS {
        expect_line(&rt, rt.alloc(), Line::GroupRefused(*number, *reason), text)?;
    }
    Ok(())
}

const PATH: P4 = P4 {
    a: 0,
    b: 10,
    c: 2,
    d: 4095,
};

#[test]
fn lines_of_paths(rt: HostRuntime) -> Result<(), Fail> {
    let rows = [
        (Line::RefusedP4(PATH), "no p4 0 10 2 4095"),
        (Line::GroupRefusedP4(3, PATH), "no edit 3 p4 0 10 2 4095"),
        (Line::NotCograph(PATH), "p4 0 10 2 4095"),
    ];
    expect_each(&rt, rt.alloc(), &rows)
}

// Sees what the line of the orientation with these arcs is.
fn expect_oriented(
    rt: &impl Abort,
    alloc: Global,
    pairs: &[(u32, u32)],
    text: &str,
) -> Result<(), Fail> {
    let arcs = Arcs::from_list(arcs_of(alloc, pairs)?);
    expect(rt, alloc, &Line::Oriented(arcs), text)
}

#[test]
fn orientations(rt: HostRuntime) -> Result<(), Fail> {
    expect_oriented(&rt, rt.alloc(), &[], "yes")?;
    expect_oriented(&rt, rt.alloc(), &[(0, 1), (4095, 12)], "yes 0>1 4095>12")
}

fn chain_of(alloc: Global, pair: (u32, u32)) -> Result<Chain, Memory> {
    Ok(Chain::from_list(arcs_of(alloc, &[pair])?))
}

#[test]
fn forcing_chains(rt: HostRuntime) -> Result<(), Fail> {
    let alloc = rt.alloc();
    let forced = Line::Forced(chain_of(alloc, (2, 1))?);
    expect(&rt, alloc, &forced, "no 2>1")?;
    let of_graph = Line::ForcedIn(chain_of(alloc, (2, 1))?);
    expect(&rt, alloc, &of_graph, "no g 2>1")?;
    let of_complement = Line::ForcedInComplement(chain_of(alloc, (0, 4095))?);
    expect(&rt, alloc, &of_complement, "no c 0>4095")
}

// Sees what the line of two orders is.
fn expect_orders(
    rt: &impl Abort,
    alloc: Global,
    first: &[u32],
    second: &[u32],
    text: &str,
) -> Result<(), Fail> {
    let first = Order::new(alloc, first)?;
    let second = Order::new(alloc, second)?;
    expect(rt, alloc, &Line::Orders(first, second), text)
}

#[test]
fn two_orders(rt: HostRuntime) -> Result<(), Fail> {
    expect_orders(&rt, rt.alloc(), &[], &[], "yes /")?;
    expect_orders(&rt, rt.alloc(), &[1, 0], &[0, 1], "yes 1 0 / 0 1")
}

// The same of a long text.
fn expect_long(rt: &impl Abort, alloc: Global, line: &Line, text: &[u8]) -> Result<(), Fail> {
    let written = write_line(alloc, line)?;
    assert!(rt; written.as_slice() == text);
    let read = read_line(alloc, text)?;
    let again = write_line(alloc, &read)?;
    assert!(rt; again.as_slice() == text);
    Ok(())
}

// Puts the arcs from a tail to many names behind others, and their texts.
fn push_arcs(
    alloc: Global,
    tail: u32,
    arcs: &mut Vec<Arc>,
    text: &mut Vec<u8>,
) -> Result<(), Fail> {
    for head in 95..1010 {
        arcs.push(Arc { tail, head })?;
        let arc = format!(in alloc; " {tail}>{head}")?;
        text.extend_from_slice(arc.as_bytes())?;
    }
    Ok(())
}

// Four runs of arcs with one tail each, of names of one to four digits.
#[test]
fn line_of_many_arcs(rt: HostRuntime) -> Result<(), Fail> {
    let alloc = rt.alloc();
    let mut arcs = Vec::new(alloc);
    let mut expected = Vec::new(alloc);
    expected.extend_from_slice(b"yes")?;
    for tail in [5, 42, 90, 1203] {
        push_arcs(alloc, tail, &mut arcs, &mut expected)?;
    }
    expect_long(
        &rt,
        alloc,
        &Line::Oriented(Arcs::from_list(arcs)),
        &expected,
    )
}

#[test]
fn lines_of_trees(rt: HostRuntime) -> Result<(), Fail> {
    let alloc = rt.alloc();
    let tree = read_tree(alloc, b"S(P(0,1),2)")?;
    let first = write_tree(alloc, &tree)?;
    assert!(rt; first.as_slice() == "t S(P(0,1),2)".as_bytes());
    let applied = write_applied(alloc, &tree)?;
    assert!(rt; applied.as_slice() == "ok S(P(0,1),2)".as_bytes());
    Ok(())
}

static NO_LINES: [&str; 17] = [
    "",
    "okay",
    "ok ",
    "mdt",
    "mdt edits",
    "t 01",
    "t empty ",
    "t  7",
    "ok P(1,0)",
    "p4 0 1 2 3 4",
    "p4 0 1 1 3",
    "end ",
    "yes/",
    "yes 1 0 /0 1",
    "yes 0>0",
    "yes 0>16384",
    "yes 0>1 2",
];

static NO_REFUSALS: [&str; 12] = [
    "no",
    "no ",
    "no same ",
    "no vertex 16384",
    "no vertex 01",
    "no taken",
    "no edge",
    "no p4 3 2 1 0",
    "no g",
    "no gc 0>1",
    "no c 0>1 ",
    "no 0>1,1>2",
];

static NO_GROUP_LINES: [&str; 11] = [
    "no edit",
    "no edit 1",
    "no edit 0 same",
    "no edit 01 same",
    "no edit 200001 same",
    "no edit 1 undo",
    "no edit 1 edit 2 same",
    "no edit 1 same ",
    "no edit 1 g 0>1",
    "no edit 1 p4 3 2 1 0",
    "no undo ",
];

// Sees that none of the texts is a line.
fn expect_none(rt: &impl Abort, alloc: Global, texts: &[&str]) {
    for text in texts {
        let read = read_line(alloc, text.as_bytes());
        assert!(rt; matches!(read, Err(LineFault::Syntax)), "{text}");
    }
}

#[test]
fn texts_of_no_line(rt: HostRuntime) {
    expect_none(&rt, rt.alloc(), &NO_LINES);
    expect_none(&rt, rt.alloc(), &NO_REFUSALS);
    expect_none(&rt, rt.alloc(), &NO_GROUP_LINES);
}
