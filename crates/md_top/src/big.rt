//! A session on cographs over the edits that a number gives, told in five numbers.
ghost use Rattle.std.specs.Prelude.{◌≡◌, ◌<◌, ◌≤◌, ◌+◌, ◌-◌, ℕ, [], ◌∷◌, ◌++◌, length, IfOk};
ghost use Rattle.std.specs.FinSet.{empty};
ghost use Rattle.md_graph.specs.NameSet.{range};
ghost use Rattle.md_graph.specs.PlainGraph.{empty_graph};
ghost use Rattle.md_text.specs.Numbers.{decimal};
ghost use Rattle.md_script.specs.Edit.{HasNamesBelow};
ghost use Rattle.md_session.specs.Answers.{IsAnswered};
ghost use Rattle.md_top.specs.declared.request.Request.{Request};
ghost use Rattle.md_top.specs.declared.short.TheConstants.{ROOM};
ghost use Rattle.md_top.specs.Big.{neighbours_before, insertion, cuts_at, deletions_at, inserts, cuts, deletions, RunsTo, AreNumbersOf, numbers_line};
ghost use Rattle.md_top.specs.Sinks.{sink_run};
ghost use Rattle.md_top.specs.Command.{CommandEnds};

use crate::put::put_piece;
use crate::short::ShortText;
use crate::stop::{Stop, Verdict};
use md_graph::{GraphOf, Memory, Names, Steps};
use md_io::Sink;
use md_script::{Edit, Neighbours};
use md_session::{Answer, CographSessionOf, OpenedOf};
use std::alloc::Global;
use std::marker::Brand;
use std::sync::ledger::{Blank, Ledger};

/// How many names a session over the edits that a number gives may have.
pub const BIGGEST: u32 = 4_096;

/// What is told of the session.
#[derive(Clone, Copy, Debug, PartialEq, Eq)]
pub struct Numbers {
    /// How many names were taken in.
    pub inserted: u32,
    /// How many edges could not be left out.
    pub refused: u32,
    /// The nodes of the tree then.
    pub nodes: u64,
    /// The names that are left at the end.
    pub left: u32,
    /// The nodes of the tree at the end.
    pub left_nodes: u64,
}

/// Puts the numbers of the session for a size, in one put. Condition: the size is at most
/// `BIGGEST`.
pub fn big<O: Sink>(alloc: Global, size: u32, out: &mut O) -> Result<Verdict, Stop>
    requires { size ≤ BIGGEST }
    ensures ends { CommandEnds (Request.Big size) result (sink_run O.Sink out.old out.new) }
    ensures faults_never_fall { O.faults out.old ≤ O.faults out.new }
{
    let told = run_session(alloc, size)?;
    let line = numbers_line(&told);
    put_piece(out, line.as_slice())?;
    Ok(Verdict::Done)
}

// The session for a size, told in numbers. Condition: the size is at most `BIGGEST`.
fn run_session(alloc: Global, size: u32) -> Result<Numbers, Memory>
    requires { size ≤ BIGGEST }
    ensures told { IfOk result (λ n. AreNumbersOf size n) }
{
    let mut session = first_session(alloc)?;
    let inserted = insert_all(alloc, &mut session, size)?;
    let refused = cut_all(&mut session, size);
    let nodes = session.node_count();
    delete_all(&mut session, size);
    Ok(Numbers {
        inserted,
        refused,
        nodes,
        left: session.vertex_count(),
        left_nodes: session.node_count(),
    })
}

// A session on the graph without vertices.
fn first_session(alloc: Global) -> Result<CographSessionOf<64>, Memory>
    ensures first { IfOk result (λ session. session ≡ empty_graph) }
{
    let graph = GraphOf::new(alloc)?;
    match CographSessionOf::new(alloc, graph)? {
        OpenedOf::Session(session) => Ok(session),
        OpenedOf::NotCograph(_) => unreachable!(),
    }
}

// Takes in each name below a size; how many were taken in.
fn insert_all(alloc: Global, session: &mut CographSessionOf<64>, size: u32) -> Result<u32, Memory>
    requires { size ≤ BIGGEST }
    ensures run { IfOk result (λ done.
        (undone : ℕ) × RunsTo session.old (inserts size) done undone session.new) }
{
    let none = Names::none();
    let mut before = Names::none();
    let mut inserted = 0;
    for v in 0..size {
        inserted += insert(alloc, session, v, neighbours_before(v, &before, &none))?;
        before.insert(v);
    }
    Ok(inserted)
}

// Takes in a name with these neighbours; how many edits were applied.
fn insert(
    alloc: Global,
    session: &mut CographSessionOf<64>,
    v: u32,
    names: &Names,
) -> Result<u32, Memory>
    requires few { v < BIGGEST }
    requires names { names.now ≡ neighbours_before v }
    ensures run { IfOk result (λ done.
        (undone : ℕ) × RunsTo session.old (insertion v ∷ []) done undone session.new) }
    ensures few { IfOk result (λ done. done ≤ 1) }
{
    let neighbours = Neighbours::new(alloc, names)?;
    let edit = Edit::AddVertex { x: v, neighbours };
    Ok(count_applied(session, &edit))
}

// The neighbours of a new name: the names before it, or none.
fn neighbours_before<'a>(v: u32, before: &'a Names, none: &'a Names) -> &'a Names
    requires before { before.now ≡ range 0 v }
    requires none { none.now ≡ empty }
    ensures { result.now ≡ neighbours_before v }
{
    if v % 2 == 1 { before } else { none }
}

// Tries to leave out the edges between 1 and the names below a size; how many could not be.
fn cut_all(session: &mut CographSessionOf<64>, size: u32) -> u32
    requires { size ≤ BIGGEST }
    ensures run { (done : ℕ) × RunsTo session.old (cuts size) done result session.new }
{
    let mut refused = 0;
    for v in 0..size {
        refused += cut(session, v);
    }
    refused
}

// Tries to leave out the edge between 1 and a name; how many edits were refused.
fn cut(session: &mut CographSessionOf<64>, v: u32) -> u32
    requires { v < BIGGEST }
    ensures run { (done : ℕ) × RunsTo session.old (cuts_at v) done result session.new }
    ensures few { result ≤ 1 }
{
    if 3 <= v && v % 2 == 1 {
        return 1 - count_applied(session, &Edit::DelEdge { u: 1, v });
    }
    0
}

// Leaves out the even names below a size.
fn delete_all(session: &mut CographSessionOf<64>, size: u32)
    requires { size ≤ BIGGEST }
    ensures run { (done : ℕ) × (undone : ℕ)
        × RunsTo session.old (deletions size) done undone session.new }
{
    for v in 0..size {
        delete(session, v);
    }
}

// Leaves out a name if it is even.
fn delete(session: &mut CographSessionOf<64>, v: u32)
    requires { v < BIGGEST }
    ensures run { (done : ℕ) × (undone : ℕ)
        × RunsTo session.old (deletions_at v) done undone session.new }
{
    if v % 2 == 0 {
        count_applied(session, &Edit::DelVertex { x: v });
    }
}

// How many edits are applied of one that the session answers. Condition: the names in the edit are
// below `BIGGEST`.
fn count_applied(session: &mut CographSessionOf<64>, edit: &Edit) -> u32
    requires { HasNamesBelow BIGGEST edit.now }
    ensures run { RunsTo session.old (edit.now ∷ []) result (1 - result) session.new }
    ensures few { result ≤ 1 }
{
    match answer(session, edit) {
        Answer::Applied => 1,
        Answer::Refused(_) => 0,
        Answer::RefusedP4(_) => 0,
    }
}

// The answer to an edit. Condition: the names in the edit are below `BIGGEST`.
fn answer(session: &mut CographSessionOf<64>, edit: &Edit) -> Answer
    requires { HasNamesBelow BIGGEST edit.now }
    ensures { IsAnswered session.old edit.now result session.new }
{
    apply_counting::<Brand>(session, edit, Blank::new(1))
}

// The answer to an edit; nobody reads the steps. Condition: the names in the edit are below
// `BIGGEST`.
fn apply_counting<L: Ledger>(
    session: &mut CographSessionOf<64>,
    edit: &Edit,
    blank: Blank,
) -> Answer
    requires name { blank.name ≡ L.name }
    requires parts { blank.parts ≡ L.parts }
    requires some { 0 < blank.parts }
    requires names { HasNamesBelow BIGGEST edit.now }
    ensures { IsAnswered session.old edit.now result session.new }
{
    let mut steps = Steps::<L>::new(blank);
    session.apply(edit, &mut steps)
}

// The line that tells numbers.
fn numbers_line(numbers: &Numbers) -> ShortText
    ensures { result ≡ numbers_line numbers.now }
{
    let mut line = ShortText::new();
    push_number(&mut line, b"inserted ", numbers.inserted as u64);
    push_number(&mut line, b" refused ", numbers.refused as u64);
    push_number(&mut line, b" nodes ", numbers.nodes);
    push_number(&mut line, b" left ", numbers.left as u64);
    push_number(&mut line, b" nodes ", numbers.left_nodes);
    line.push(b"\n");
    line
}

// Appends a word and a number. Condition: there is room for them.
fn push_number(line: &mut ShortText, word: &[u8], n: u64)
    requires { length line.old + length word.now + 20 ≤ ROOM }
    ensures items { line.new ≡ line.old ++ (word.now ++ decimal n) }
    ensures len { length line.new ≤ length line.old + length word.now + 20 }
{
    line.push(word);
    line.push_decimal(n);
}
