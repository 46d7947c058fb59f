//! Sessions over scripts, by the lines that they give.
ghost use Rattle.std.specs.Prelude.{◌≡◌, ◌*◌, ◌<◌, ◌≤◌, OnOk};
ghost use Rattle.md_graph.specs.declared.TheConstants.{WORDS};
ghost use Rattle.md_script.specs.Histories.{HistoryFits};
ghost use Rattle.md_script.specs.Items.{HasItemNamesBelow, room_for};
ghost use Rattle.md_report.specs.ItemLines.{IsAllowed};
ghost use Rattle.md_report.specs.declared.line.SessionMode.TheVariants as modes;

use crate::graphs::{graph_of, history_for_one};
use md_graph::{Graph, GraphOf, Memory, Steps};
use md_modules::P4;
use md_report::{Line, write_line};
use md_script::{Edit, EditReason, HistoryOf, Item, Script, read_script};
use md_session::{
    Answer, CographSession, CographSessionOf, GeneralSession, GeneralSessionOf, ItemAnswer,
    LocalAnswer, LocalSessionOf, Opened, OpenedOf,
};
use std::alloc::Global;
use std::marker::Brand;
use std::process::Abort;
use std::sync::ledger::{Blank, Ledger};
use std::test::Fail;

// Whether a line has this text.
fn check_line(rt: &impl Abort, alloc: Global, line: &Line, expected: &str) -> Result<(), Memory> {
    let text = write_line(alloc, line)?;
    assert_eq!(rt; text.as_slice(), expected.as_bytes(), "{expected}");
    Ok(())
}

// Applies an edit, and compares its line. Condition: the names in the item are names.
fn check_edit(
    rt: &impl Abort,
    alloc: Global,
    session: &mut GeneralSession,
    item: &Item,
    expected: &str,
) -> Result<(), Memory>
    requires { HasItemNamesBelow (64 * WORDS) item.now }
{
    let Item::One(edit) = item else {
        panic!(rt; "no edit");
    };
    let line = session.apply(alloc, edit)?;
    check_line(rt, alloc, &line, expected)
}

// Applies a script to the graph without vertices, and compares the line of each edit and of the
// tree at the end.
fn check(
    rt: &impl Abort,
    alloc: Global,
    script: &Script,
    lines: &[&str],
    last: &str,
) -> Result<(), Memory> {
    let mut session = GeneralSession::new(Graph::new(alloc)?);
    assert_eq!(rt; script.len() as usize, lines.len());
    for (i, expected) in lines.iter().enumerate() {
        assert!(rt; (i as u64) < script.len());
        check_edit(rt, alloc, &mut session, script.get(i as u64), expected)?;
    }
    check_line(rt, alloc, &Line::Tree(session.tree(alloc)?), last)
}

static SCRIPTS: [(&[u8], [&str; 8], &str); 2] = [
    (
        b"+v 0\n+v 1 0\n+v 2 1\n+v 3 2\n+v 4 1\n+e 0 4\n-v 3\n+v 3 0 1 2 4\n",
        [
            "ok 0",
            "ok S(0,1)",
            "ok S(P(0,2),1)",
            "ok R(0,1,2,3;0-1,1-2,2-3)",
            "ok R(P(0,4),1,2,3;0-1,1-2,2-3)",
            "ok R(S(0,4),1,2,3;0-1,1-2,2-3)",
            "ok S(P(S(0,4),2),1)",
            "ok S(P(S(0,4),2),1,3)",
        ],
        "t S(P(S(0,4),2),1,3)",
    ),
    (
        b"+v 0\n+v 1 0\n+v 2 1\n+e 7 7\n+v 0 9\n+v 0\n-e 0 2\n+e 0 1\n",
        [
            "ok 0",
            "ok S(0,1)",
            "ok S(P(0,2),1)",
            "no same",
            "no vertex 9",
            "no taken 0",
            "no edge-absent",
            "no edge-there",
        ],
        "t S(P(0,2),1)",
    ),
];

#[test]
fn sessions(rt: HostRuntime) -> Result<(), Fail> {
    for (file, lines, last) in &SCRIPTS {
        let script = read_script(rt.alloc(), *file)?;
        check(&rt, rt.alloc(), &script, lines, last)?;
    }
    Ok(())
}

#[test]
fn narrow_session(rt: HostRuntime) -> Result<(), Fail> {
    let alloc = rt.alloc();
    let mut session = GeneralSessionOf::new(graph_of(&rt, alloc, 3, &[(0, 1)])?);
    let line = session.apply(alloc, &Edit::AddEdge { u: 1, v: 2 })?;
    check_line(&rt, alloc, &line, "ok S(P(0,2),1)")?;
    Ok(())
}

// The session on a cograph.
fn session_of<const W: usize>(
    rt: &impl Abort,
    alloc: Global,
    graph: GraphOf<W>,
) -> Result<CographSessionOf<W>, Memory> {
    match CographSessionOf::new(alloc, graph)? {
        OpenedOf::Session(session) => Ok(session),
        OpenedOf::NotCograph(_) => panic!(rt; "no session"),
    }
}

// Applies an edit in a session on cographs, and compares the answer. Condition: the names in the
// item are names.
fn check_answer<L: Ledger>(
    rt: &impl Abort,
    session: &mut CographSession,
    item: &Item,
    expected: Answer,
    steps: &mut Steps<L>,
)
    requires { HasItemNamesBelow (64 * WORDS) item.now }
{
    let Item::One(edit) = item else {
        panic!(rt; "no edit of a cograph");
    };
    assert_eq!(rt; session.apply(edit, steps), expected);
}

// Sees that the session has the path on 0, 1 and 2.
fn check_path(rt: &impl Abort, alloc: Global, session: &CographSession) -> Result<(), Memory> {
    check_line(
        rt,
        alloc,
        &Line::Tree(session.tree(alloc)?),
        "t S(P(0,2),1)",
    )?;
    assert_eq!(rt; session.node_count(), 5);
    assert_eq!(rt; session.cotree().leaves, 3);
    Ok(())
}

// Applies a script to the graph without vertices, in a session on cographs.
fn answers<L: Ledger>(
    rt: &impl Abort,
    alloc: Global,
    script: &Script,
    expected: &[Answer],
    blank: Blank,
) -> Result<(), Memory>
    requires name { blank.name ≡ L.name }
    requires parts { blank.parts ≡ L.parts }
    requires some { 0 < blank.parts }
{
    let mut steps = Steps::<L>::new(blank);
    let mut session = session_of(rt, alloc, Graph::new(alloc)?)?;
    assert_eq!(rt; script.len() as usize, expected.len());
    for (i, answer) in expected.iter().enumerate() {
        assert!(rt; (i as u64) < script.len());
        check_answer(rt, &mut session, script.get(i as u64), *answer, &mut steps);
    }
    check_path(rt, alloc, &session)
}

// The path of the edges 0-1, 1-2 and 2-3.
const PATH: P4 = P4 {
    a: 0,
    b: 1,
    c: 2,
    d: 3,
};

#[test]
fn sessions_on_cographs(rt: HostRuntime) -> Result<(), Fail> {
    let script = read_script(rt.alloc(), b"+v 0\n+v 1 0\n+v 2 1\n+v 3 2\n+v 2\n+e 0 1\n")?;
    let expected = [
        Answer::Applied,
        Answer::Applied,
        Answer::Applied,
        Answer::RefusedP4(PATH),
        Answer::Refused(EditReason::NameTaken(2)),
        Answer::Refused(EditReason::EdgeThere),
    ];
    answers::<Brand>(&rt, rt.alloc(), &script, &expected, Blank::new(1))?;
    Ok(())
}

#[test]
fn session_on_a_path(rt: HostRuntime) -> Result<(), Fail> {
    let edges = [(0, 1), (1, 2), (2, 3)];
    let graph = Graph::from_edges(rt.alloc(), 4, &edges)?.expect(&rt, "edges");
    let Opened::NotCograph(found) = CographSession::new(rt.alloc(), graph)? else {
        panic!(&rt; "a session on a path");
    };
    assert_eq!(&rt; found, PATH);
    Ok(())
}

// Takes the end of an edge away from a graph on three names.
fn edit_of_a_cograph<L: Ledger>(rt: &impl Abort, session: &mut CographSessionOf<1>, blank: Blank)
    requires name { blank.name ≡ L.name }
    requires parts { blank.parts ≡ L.parts }
    requires some { 0 < blank.parts }
{
    let mut steps = Steps::<L>::new(blank);
    let edit = Edit::DelVertex { x: 1 };
    assert_eq!(rt; session.apply(&edit, &mut steps), Answer::Applied);
    assert_eq!(rt; session.vertex_count(), 2);
}

// The session with rows of one word on the graph on three names with one edge.
fn narrow_cograph(rt: &impl Abort, alloc: Global) -> Result<CographSessionOf<1>, Memory> {
    session_of(rt, alloc, graph_of(rt, alloc, 3, &[(0, 1)])?)
}

#[test]
fn narrow_session_on_a_cograph(rt: HostRuntime) -> Result<(), Fail> {
    let mut session = narrow_cograph(&rt, rt.alloc())?;
    edit_of_a_cograph::<Brand>(&rt, &mut session, Blank::new(1));
    Ok(())
}

// Answers an item, and compares its line. Conditions: the names in the item are below 64, the
// history has room for it, and is that of the session.
fn check_item(
    rt: &impl Abort,
    alloc: Global,
    session: &mut GeneralSessionOf<1>,
    history: &mut HistoryOf<1>,
    item: &Item,
    expected: &str,
) -> Result<(), Memory>
    requires names { HasItemNamesBelow 64 item.now }
    requires room { room_for item.now ≤ history.old.spare }
    requires fits { HistoryFits 64 (IsAllowed modes.Edit) session.old history.old.items }
    ensures { OnOk result (HistoryFits 64 (IsAllowed modes.Edit) session.new history.new.items) }
{
    let line = session.apply_item(alloc, item, history)?;
    check_line(rt, alloc, &line, expected)
}

// Two undos, of which the second has nothing left. Condition: the history is that of the session.
fn check_undos(
    rt: &impl Abort,
    alloc: Global,
    session: &mut GeneralSessionOf<1>,
    history: &mut HistoryOf<1>,
    expected: &str,
) -> Result<(), Memory>
    requires { HistoryFits 64 (IsAllowed modes.Edit) session.old history.old.items }
{
    check_item(rt, alloc, session, history, &Item::Undo, expected)?;
    check_item(rt, alloc, session, history, &Item::Undo, "no undo")
}

// An edit of a session, and two undos.
fn check_items(
    rt: &impl Abort,
    alloc: Global,
    session: &mut GeneralSessionOf<1>,
) -> Result<(), Memory> {
    let mut history = history_for_one(alloc)?;
    let item = Item::One(Edit::DelVertex { x: 1 });
    check_item(rt, alloc, session, &mut history, &item, "ok P(0,2)")?;
    check_undos(rt, alloc, session, &mut history, "ok S(P(0,2),1)")
}

#[test]
fn items(rt: HostRuntime) -> Result<(), Fail> {
    let mut session = GeneralSessionOf::new(graph_of(&rt, rt.alloc(), 3, &[(0, 1), (1, 2)])?);
    check_items(&rt, rt.alloc(), &mut session)?;
    Ok(())
}

// An edit of a session on a cograph, and two undos, of which the second has nothing left.
fn undo_on_a_cograph<L: Ledger>(
    rt: &impl Abort,
    alloc: Global,
    session: &mut CographSessionOf<1>,
    blank: Blank,
) -> Result<(), Memory>
    requires name { blank.name ≡ L.name }
    requires parts { blank.parts ≡ L.parts }
    requires some { 0 < blank.parts }
{
    let mut steps = Steps::<L>::new(blank);
    let mut history = history_for_one(alloc)?;
    let item = Item::One(Edit::DelVertex { x: 1 });
    let first = session.apply_item(&item, &mut history, &mut steps);
    let second = session.apply_item(&Item::Undo, &mut history, &mut steps);
    let third = session.apply_item(&Item::Undo, &mut history, &mut steps);
    assert!(rt; matches!(first, ItemAnswer::Applied) && matches!(second, ItemAnswer::Applied));
    assert!(rt; matches!(third, ItemAnswer::NothingToUndo) && session.vertex_count() == 3);
    Ok(())
}

#[test]
fn items_on_cographs(rt: HostRuntime) -> Result<(), Fail> {
    let mut session = narrow_cograph(&rt, rt.alloc())?;
    undo_on_a_cograph::<Brand>(&rt, rt.alloc(), &mut session, Blank::new(1))?;
    Ok(())
}

// Answers an item in a session that keeps its tree, and compares its line. Conditions: the names in
// the item are below 64, the history has room for it, and is that of the session.
fn check_local<L: Ledger>(
    rt: &impl Abort,
    alloc: Global,
    session: &mut LocalSessionOf<1>,
    history: &mut HistoryOf<1>,
    item: &Item,
    work: &mut Steps<L>,
    expected: &str,
) -> Result<(), Memory>
    requires names { HasItemNamesBelow 64 item.now }
    requires room { room_for item.now ≤ history.old.spare }
    requires fits { HistoryFits 64 (IsAllowed modes.Edit) session.old history.old.items }
    ensures { OnOk result (HistoryFits 64 (IsAllowed modes.Edit) session.new history.new.items) }
{
    let line = session.apply_item(alloc, item, history, work)?;
    check_line(rt, alloc, &line, expected)
}

// Two undos in a session that keeps its tree, of which the second has nothing left. Condition: the
// history is that of the session.
fn check_local_undos<L: Ledger>(
    rt: &impl Abort,
    alloc: Global,
    session: &mut LocalSessionOf<1>,
    history: &mut HistoryOf<1>,
    work: &mut Steps<L>,
    expected: &str,
) -> Result<(), Memory>
    requires { HistoryFits 64 (IsAllowed modes.Edit) session.old history.old.items }
{
    check_local(rt, alloc, session, history, &Item::Undo, work, expected)?;
    let second = session.answer_item(alloc, &Item::Undo, history, work)?;
    assert!(rt; matches!(second, LocalAnswer::NothingToUndo));
    Ok(())
}

// An edit of an edge between twins of a session that keeps its tree, and two undos.
fn undo_of_an_edge<L: Ledger>(
    rt: &impl Abort,
    alloc: Global,
    session: &mut LocalSessionOf<1>,
    blank: Blank,
) -> Result<(), Memory>
    requires name { blank.name ≡ L.name }
    requires parts { blank.parts ≡ L.parts }
    requires some { 0 < blank.parts }
{
    let mut work = Steps::<L>::new(blank);
    let mut history = history_for_one(alloc)?;
    let item = Item::One(Edit::AddEdge { u: 0, v: 4 });
    let line = "ok R(S(0,4),1,2,3;0-1,1-2,2-3)";
    check_local(rt, alloc, session, &mut history, &item, &mut work, line)?;
    let line = "ok R(P(0,4),1,2,3;0-1,1-2,2-3)";
    check_local_undos(rt, alloc, session, &mut history, &mut work, line)
}

#[test]
fn items_of_kept_trees(rt: HostRuntime) -> Result<(), Fail> {
    let alloc = rt.alloc();
    let graph = graph_of(&rt, alloc, 5, &[(0, 1), (1, 2), (2, 3), (1, 4)])?;
    let mut session = LocalSessionOf::new(alloc, graph)?;
    undo_of_an_edge::<Brand>(&rt, alloc, &mut session, Blank::new(1))?;
    let last = Line::Tree(session.tree(alloc)?);
    check_line(&rt, alloc, &last, "t R(P(0,4),1,2,3;0-1,1-2,2-3)")?;
    Ok(())
}
