//! Scripts with their edits or faults, and edits with their reasons and what they change.
ghost use Rattle.std.specs.Prelude.{◌*◌};
ghost use Rattle.md_graph.specs.declared.TheConstants.{WORDS};
ghost use Rattle.md_script.specs.Items.{HasItemNamesBelow};

use crate::graphs::graph_of;
use EditReason::*;
use ScriptKind::*;
use md_graph::{Graph, GraphOf, Memory, NAMES, Names};
use md_script::{
    EDITS, Edit, EditReason, HistoryOf, Item, Neighbours, ScriptFault, ScriptKind, apply,
    back_through, inverse, read_script, reason, take_back, take_item_back,
};
use std::alloc::Global;
use std::process::Abort;
use std::test::Fail;

// The fault of a text that has one.
fn fault_of(rt: &impl Abort, alloc: Global, text: &[u8]) -> ScriptFault {
    match read_script(alloc, text) {
        Ok(_) => panic!(rt; "a script"),
        Err(fault) => fault,
    }
}

fn check_fault(rt: &impl Abort, alloc: Global, file: &str, kind: ScriptKind, line: u64) {
    let fault = fault_of(rt, alloc, file.as_bytes());
    assert_eq!(rt; fault, ScriptFault::Bad { kind, line }, "{file}");
}

// Sees that each text has a fault of this kind in this line.
fn check_faults(rt: &impl Abort, alloc: Global, rows: &[(&str, ScriptKind, u64)]) {
    for (file, kind, line) in rows {
        check_fault(rt, alloc, file, *kind, *line);
    }
}

// The word of an edit, its first name, and whether its other names are these.
fn parts<'a>(edit: &'a Edit, others: &[u32]) -> (&'static str, u32, bool) {
    match edit {
        Edit::AddEdge { u, v } => ("+e", *u, [*v].as_slice() == others),
        Edit::DelEdge { u, v } => ("-e", *u, [*v].as_slice() == others),
        Edit::AddVertex { x, neighbours } => ("+v", *x, neighbours.as_slice() == others),
        Edit::DelVertex { x } => ("-v", *x, others.is_empty()),
    }
}

// Compares an item of one edit with plain numbers: its word, its first name, and the others.
fn check_one(rt: &impl Abort, item: &Item, word: &str, first: u32, others: &[u32]) {
    let Item::One(edit) = item else {
        panic!(rt; "no edit");
    };
    let (found, name, has_others) = parts(edit, others);
    assert!(rt; found == word && name == first && has_others);
}

// Sees that a script has these edits: of each the word, the first name, and the others.
fn check_script(
    rt: &impl Abort,
    alloc: Global,
    file: &str,
    edits: &[(&str, u32, &[u32])],
) -> Result<(), ScriptFault> {
    let script = read_script(alloc, file.as_bytes())?;
    assert_eq!(rt; script.len() as usize, edits.len(), "{file}");
    for (i, (word, first, others)) in edits.iter().enumerate() {
        assert!(rt; (i as u64) < script.len());
        check_one(rt, script.get(i as u64), word, *first, others);
    }
    Ok(())
}

static SHORT: [(&str, u32, &[u32]); 2] = [("+v", 7, &[1, 3]), ("-e", 2, &[4])];

static LONG: [(&str, u32, &[u32]); 4] = [
    ("-v", 0, &[]),
    ("+v", 16383, &[]),
    ("+v", 5, &[5, 63, 64]),
    ("+e", 7, &[7]),
];

#[test]
fn scripts(rt: HostRuntime) -> Result<(), Fail> {
    let alloc = rt.alloc();
    check_script(&rt, alloc, "", &[])?;
    check_script(&rt, alloc, "+v 7 3 1 3\n-e 2 4\n", &SHORT)?;
    let file = "# a script\r\n\r\n \t\n-v 0\r\n+v\t16383 \n#\n+v 5 5 64 63\n+e 007 7";
    check_script(&rt, alloc, file, &LONG)?;
    Ok(())
}

static FAULTS: [(&str, ScriptKind, u64); 13] = [
    ("\n+w 1", UnknownEdit, 2),
    ("+e 1 2\ne 1 2 3\n", UnknownEdit, 2),
    ("+e 1 2 3", FieldCount, 1),
    ("-e x", FieldCount, 1),
    ("+v\r\n", FieldCount, 1),
    ("#\n#\n-v 1 2\n", FieldCount, 3),
    ("+e 16384 x\n", NameTooLarge, 1),
    ("+e x 16384\n", BadNumber, 1),
    ("-v -1\n", BadNumber, 1),
    ("+v 1 2 3 4 5a 16384\n", BadNumber, 1),
    ("-e 1 1234567890123456789\n", BadNumber, 1),
    ("-e 1 999999999999999999\n", NameTooLarge, 1),
    ("+v 1 2 3 16384\n", NameTooLarge, 1),
];

#[test]
fn faults(rt: HostRuntime) {
    check_faults(&rt, rt.alloc(), &FAULTS);
}

fn check_bound(rt: &impl Abort, alloc: Global, file: &str, bound: u32) -> Result<(), ScriptFault> {
    let script = read_script(alloc, file.as_bytes())?;
    assert_eq!(rt; script.bound(), bound, "{file}");
    Ok(())
}

static BOUNDS: [(&str, u32); 7] = [
    ("", 0),
    ("-v 0\n", 1),
    ("+e 3 9\n-e 9 4\n", 10),
    ("+v 2 7 5\n", 8),
    ("+v 9 7 5\n-v 3\n", 10),
    ("-v 16383\n+v 0\n", 16_384),
    ("-v 3\nundo\nbegin\n+e 7 1\n-v 2\ncommit\n", 8),
];

#[test]
fn bounds(rt: HostRuntime) -> Result<(), Fail> {
    for (file, bound) in &BOUNDS {
        check_bound(&rt, rt.alloc(), file, *bound)?;
    }
    Ok(())
}

// The sort of an item, and how many edits it has.
fn sort_of(item: &Item) -> (&'static str, u64) {
    match item {
        Item::One(_) => ("edit", 1),
        Item::Undo => ("undo", 0),
        Item::Group(group) => ("group", group.len()),
    }
}

fn check_item(rt: &impl Abort, item: &Item, sort: &str, edits: u64) {
    let (found, count) = sort_of(item);
    assert!(rt; found == sort && count == edits);
}

fn check_items(
    rt: &impl Abort,
    alloc: Global,
    file: &str,
    undos: u64,
    items: &[(&str, u64)],
) -> Result<(), ScriptFault> {
    let script = read_script(alloc, file.as_bytes())?;
    assert_eq!(rt; script.undos(), undos, "{file}");
    assert_eq!(rt; script.len() as usize, items.len(), "{file}");
    for (i, (sort, edits)) in items.iter().enumerate() {
        assert!(rt; (i as u64) < script.len());
        check_item(rt, script.get(i as u64), sort, *edits);
    }
    Ok(())
}

static MIXED: [(&str, u64); 5] = [
    ("edit", 1),
    ("group", 2),
    ("undo", 0),
    ("edit", 1),
    ("undo", 0),
];

#[test]
fn groups(rt: HostRuntime) -> Result<(), Fail> {
    let alloc = rt.alloc();
    check_items(&rt, alloc, "undo\n", 1, &[("undo", 0)])?;
    check_items(&rt, alloc, "begin\ncommit\n", 0, &[("group", 0)])?;
    check_items(
        &rt,
        alloc,
        "begin\n# x\n\n+v 1\r\ncommit\r\n",
        0,
        &[("group", 1)],
    )?;
    let file = "-v 1\nbegin\n+e 0 2\n-v 1\ncommit\nundo\n+v 3\n undo \t\n";
    check_items(&rt, alloc, file, 2, &MIXED)?;
    Ok(())
}

static FAULTS_OF_GROUPS: [(&str, ScriptKind, u64); 16] = [
    ("commit\n", NoGroup, 1),
    ("begin\nundo\n", Nested, 2),
    ("begin\nbegin\n", Nested, 2),
    ("begin\n+e 0 1\n", OpenGroup, 3),
    ("begin\n", OpenGroup, 2),
    ("begin", OpenGroup, 2),
    ("begin\n# x\n\n", OpenGroup, 4),
    ("undo 1\n", FieldCount, 1),
    ("begin\n+e 0\n", FieldCount, 2),
    ("begin\nbegin 1\n", FieldCount, 2),
    ("undo x\ncommit\n", FieldCount, 1),
    ("commit 1\n", FieldCount, 1),
    ("begin\n+e 0 16384\nundo\n", NameTooLarge, 2),
    ("begin\ncommit\ncommit\n", NoGroup, 3),
    ("undo\nbegins\n", UnknownEdit, 2),
    ("Undo\n", UnknownEdit, 1),
];

#[test]
fn faults_of_groups(rt: HostRuntime) {
    check_faults(&rt, rt.alloc(), &FAULTS_OF_GROUPS);
}

// A text of a first line, so many lines of an edit, and what stands behind them.
fn long_text(alloc: Global, first: &[u8], edits: u64, behind: &[u8]) -> Result<Vec<u8>, Memory> {
    let mut text = Vec::new(alloc);
    text.extend_from_slice(first)?;
    for _ in 0..edits {
        text.extend_from_slice(b"-v 9\n")?;
    }
    text.extend_from_slice(behind)?;
    Ok(text)
}

// As many lines that count as a script may have.
fn check_longest(
    rt: &impl Abort,
    alloc: Global,
    first: &[u8],
    edits: u64,
    behind: &[u8],
    items: u64,
) -> Result<(), Fail> {
    let text = long_text(alloc, first, edits, behind)?;
    let script = read_script(alloc, &text)?;
    assert_eq!(rt; script.len(), items);
    Ok(())
}

#[test]
fn longest_scripts(rt: HostRuntime) -> Result<(), Fail> {
    check_longest(&rt, rt.alloc(), b"# edits\n", EDITS, b"# end", 200_000)?;
    check_longest(&rt, rt.alloc(), b"begin\n", EDITS - 1, b"commit\n", 1)
}

// The fault of a text of as many lines that count as a script may have, and what stands behind
// them.
fn check_behind(
    rt: &impl Abort,
    alloc: Global,
    behind: &[u8],
    kind: ScriptKind,
    line: u64,
) -> Result<(), Memory> {
    let text = long_text(alloc, b"# edits\n", EDITS, behind)?;
    assert_eq!(rt; fault_of(rt, alloc, &text), ScriptFault::Bad { kind, line });
    Ok(())
}

#[test]
fn faults_behind_the_longest_script(rt: HostRuntime) -> Result<(), Fail> {
    check_behind(&rt, rt.alloc(), b"begin 1\n", TooManyEdits, 200_002)?;
    check_behind(&rt, rt.alloc(), b"\ncommit\n", NoGroup, 200_003)?;
    Ok(())
}

// Applies an edit unless there is a reason against it, and compares that. Condition: the names in
// the item are names.
fn check_step(rt: &impl Abort, graph: &mut Graph, item: &Item, expected: Option<EditReason>)
    requires { HasItemNamesBelow (64 * WORDS) item.now }
{
    let Item::One(edit) = item else {
        panic!(rt; "no edit");
    };
    let found = reason(graph, edit);
    assert_eq!(rt; found, expected);
    if found.is_none() {
        apply(graph, edit);
    }
}

fn check_counts(rt: &impl Abort, graph: &Graph, counts: (u32, u32)) {
    let (vertices, edges) = counts;
    assert_eq!(rt; graph.count(), vertices);
    assert_eq!(rt; graph.edge_count(), edges);
}

// Applies each edit that can be applied, and compares the reasons against the others, and how many
// vertices and edges there are at the end.
fn check_run(
    rt: &impl Abort,
    alloc: Global,
    graph: &mut Graph,
    file: &str,
    reasons: &[Option<EditReason>],
    counts: (u32, u32),
) -> Result<(), ScriptFault> {
    let script = read_script(alloc, file.as_bytes())?;
    assert_eq!(rt; script.len() as usize, reasons.len(), "{file}");
    for (i, expected) in reasons.iter().enumerate() {
        assert!(rt; (i as u64) < script.len());
        check_step(rt, graph, script.get(i as u64), *expected);
    }
    check_counts(rt, graph, counts);
    Ok(())
}

static REASONS: [Option<EditReason>; 9] = [
    Some(Same),
    Some(NoVertex(5)),
    Some(NoVertex(6)),
    Some(NoVertex(7)),
    Some(EdgeThere),
    Some(NoVertex(0)),
    Some(NoVertex(8)),
    Some(NameTaken(3)),
    Some(NoVertex(4)),
];

static NO_EDGE: [Option<EditReason>; 5] = [None, Some(EdgeAbsent), None, None, None];

// Sees that 1 is adjacent to 2 and to the last name, and that 3 is gone.
fn check_last(rt: &impl Abort, graph: &Graph) {
    assert!(rt; graph.has_edge(1, 2) && graph.has_edge(16383, 1));
    assert!(rt; !graph.has_vertex(3));
}

#[test]
fn edits(rt: HostRuntime) -> Result<(), Fail> {
    let alloc = rt.alloc();
    let mut graph = Graph::new(alloc)?;
    let file = "+v 3\n+v 1 3\n+v 2 3 1\n";
    check_run(&rt, alloc, &mut graph, file, &[None; 3], (3, 3))?;
    let file = "+e 5 5\n-e 5 6\n+e 1 6\n-e 7 6\n+e 1 2\n-v 0\n+v 3 9 8 1\n+v 3 2\n+v 4 2 4\n";
    check_run(&rt, alloc, &mut graph, file, &REASONS, (3, 3))?;
    let file = "-e 2 1\n-e 1 2\n-v 3\n+v 16383 1\n+e 1 2\n";
    check_run(&rt, alloc, &mut graph, file, &NO_EDGE, (3, 2))?;
    check_last(&rt, &graph);
    Ok(())
}

// An edit that is taken back.
#[test]
fn edit_taken_back(rt: HostRuntime) -> Result<(), Fail> {
    let mut graph = graph_of(&rt, rt.alloc(), 3, &[(0, 1)])?;
    let edit = Edit::DelVertex { x: 1 };
    assert!(rt; reason(&graph, &edit).is_none());
    let past = inverse(&graph, &edit);
    apply(&mut graph, &edit);
    assert!(rt; graph.count() == 2 && graph.edge_count() == 0);
    take_back(&mut graph, &past);
    assert!(rt; graph.count() == 3 && graph.has_edge(0, 1));
    Ok(())
}

#[test]
fn neighbours(rt: HostRuntime) -> Result<(), Fail> {
    let mut names = Names::none();
    let none = Neighbours::new(rt.alloc(), &names)?;
    assert!(rt; none.as_slice().is_empty());
    names.insert(64);
    names.insert(3);
    names.insert(NAMES - 1);
    let some = Neighbours::new(rt.alloc(), &names)?;
    assert_eq!(rt; some.as_slice(), [3, 64, 16383].as_slice());
    Ok(())
}

// The graph with these edges, and its edits taken back as one item.
#[test]
fn histories(rt: HostRuntime) -> Result<(), Fail> {
    let alloc = rt.alloc();
    let mut graph = GraphOf::<1>::from_edges(alloc, 3, &[(0, 1)])?.expect(&rt, "edges");
    let mut history = HistoryOf::<1>::new(alloc)?;
    history.reserve(alloc, 3)?;
    assert!(rt; history.spare() >= 3 && history.items() == 0);
    let edit = Edit::DelVertex { x: 1 };
    assert!(rt; reason(&graph, &edit).is_none());
    let past = inverse(&graph, &edit);
    apply(&mut graph, &edit);
    history.open_item();
    history.push(past);
    assert!(rt; history.items() == 1 && history.last_len() == 1);
    let mut redo = HistoryOf::<1>::new(alloc)?;
    redo.reserve(alloc, 2)?;
    redo.open_item();
    back_through(&mut graph, &history, &mut redo);
    assert!(rt; graph.has_edge(0, 1) && history.items() == 1);
    take_item_back(&mut graph, &mut redo);
    assert!(rt; graph.count() == 2 && redo.items() == 0);
    take_item_back(&mut graph, &mut history);
    assert!(rt; graph.has_edge(0, 1) && history.items() == 0);
    Ok(())
}

#[test]
fn forgotten_history(rt: HostRuntime) -> Result<(), Fail> {
    let mut history = HistoryOf::<1>::new(rt.alloc())?;
    history.reserve(rt.alloc(), 1)?;
    history.open_item();
    history.forget();
    assert_eq!(rt; history.items(), 0);
    Ok(())
}
