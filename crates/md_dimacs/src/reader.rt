//! Reads a DIMACS edge file.
ghost use Rattle.std.specs.Prelude.{◌≡◌, ◌≢◌, ◌<◌, ◌≤◌, ◌+◌, ◌*◌, ◌^◌, length, None, Some, IfSome, MatchOption, IfOk, IfErr, OnOk, OnErr};
ghost use Rattle.md_graph.specs.PlainGraph.{empty_graph, with_edge};
ghost use Rattle.md_graph.specs.Sets.{Has};
ghost use Rattle.md_text.specs.Lines.{lines};
ghost use Rattle.md_text.specs.Fields.{fields};
ghost use Rattle.md_dimacs.specs.declared.line.LineClass.TheVariants.{Passed};
ghost use Rattle.md_dimacs.specs.Line.{class_of, sizes_of, ends_of, fault_of_words};
ghost use Rattle.md_dimacs.specs.File.{Spells, AreSizes, fault_behind, first_fault};
ghost use Rattle.md_dimacs.specs.Read.{IsBehindProblem, HasVertices, edgeless, with_ends, with_lines};

use crate::line::{LineClass, class_of, read_ends, read_problem};
use crate::{DimacsFault, DimacsKind};
use md_graph::{GraphOf, NAMES};
use md_text::{split_field, split_line, without_return};

/// Reads the graph that the bytes of a DIMACS edge file spell, whose names are below the limit: the
/// vertices 1 to N of its problem line, and the edges of its edge lines, each once. The graph may
/// have any number of words a row. It takes no memory. Conditions: the graph has no vertices, and
/// room for names below the limit.
///
/// # Errors
///
/// It refuses exactly where the file has a fault, and names the first; the graph then has no
/// vertices.
pub fn read<const W: usize>(
    bytes: &[u8],
    limit: u32,
    graph: &mut GraphOf<W>,
) -> Result<(), DimacsFault>
    requires empty { graph.old ≡ empty_graph }
    requires few { limit ≤ NAMES }
    requires room { limit ≤ 64 * W }
    ensures spells { OnOk result (Spells limit bytes.now graph.new) }
    ensures faultless { OnOk result (first_fault limit bytes.now ≡ None) }
    ensures fault { IfErr result (λ fault. first_fault limit bytes.now ≡ Some fault) }
    ensures refused { OnErr result (graph.new ≡ empty_graph) }
{
    let (n, count, rest) = find_problem(bytes, limit)?;
    graph.add_range(1, n);
    let outcome = read_edges(n, rest, count, graph);
    if outcome.is_err() {
        graph.clear();
    }
    outcome
}

// Reads the lines up to the problem line: the number of vertices, how many lines that were, and
// what stands behind them.
fn find_problem(bytes: &[u8], limit: u32) -> Result<(u32, u64, &[u8]), DimacsFault>
    requires { limit ≤ NAMES }
    ensures found { IfOk result (λ p.
        IsBehindProblem limit (lines bytes.now) p.0 p.1 (lines p.2.now)) }
    ensures room { IfOk result (λ p. p.1 + length p.2.now ≤ length bytes.now) }
    ensures below { IfOk result (λ p. p.0 < limit) }
    ensures fault { IfErr result (λ fault. first_fault limit bytes.now ≡ Some fault) }
{
    let mut rest = bytes;
    let mut count = 0u64;
    while !rest.is_empty() {
        let (line, more) = split_line(rest);
        rest = more;
        count += 1;
        match read_first(limit, without_return(line)) {
            Ok(None) => {}
            Ok(Some(n)) => return Ok((n, count, rest)),
            Err(kind) => return Err(DimacsFault { kind, line: count }),
        }
    }
    Err(DimacsFault {
        kind: DimacsKind::NoProblemLine,
        line: count + 1,
    })
}

// Reads a line before which no problem line stood: the number of vertices if it is one, and none if
// it is read past.
#[tactic(auto, unfolding(crate::specs::Line::edge_fault))]
fn read_first(limit: u32, line: &[u8]) -> Result<Option<u32>, DimacsKind>
    requires { limit ≤ NAMES }
    ensures read { IfOk result (λ size. MatchOption size (class_of (fields line.now) ≡ Passed)
        (λ n. AreSizes limit n (sizes_of (fields line.now)))) }
    ensures below { IfOk result (λ size. IfSome size (λ n. n < limit)) }
    ensures fault { IfErr result (λ kind. fault_of_words limit None (fields line.now)
        ≡ Some kind) }
{
    let Some((first, rest)) = split_field(line) else {
        return Ok(None);
    };
    match class_of(first) {
        LineClass::Passed => Ok(None),
        LineClass::Problem => {
            let n = read_problem(limit, rest)?;
            Ok(Some(n))
        }
        LineClass::Edge => Err(DimacsKind::EdgeBeforeProblem),
        LineClass::Unknown => Err(DimacsKind::UnknownLine),
    }
}

// Reads the lines behind the problem line, before which `count` lines stood.
fn read_edges<const W: usize>(
    n: u32,
    bytes: &[u8],
    count: u64,
    graph: &mut GraphOf<W>,
) -> Result<(), DimacsFault>
    requires vertices { HasVertices n graph.old }
    requires room { count + length bytes.now < 2 ^ 64 }
    ensures added { OnOk result (graph.new ≡ with_lines graph.old (lines bytes.now)) }
    ensures faultless { OnOk result (fault_behind NAMES (Some n) count (lines bytes.now) ≡ None) }
    ensures fault { IfErr result (λ fault. fault_behind NAMES (Some n) count (lines bytes.now)
        ≡ Some fault) }
{
    let mut rest = bytes;
    let mut count = count;
    while !rest.is_empty() {
        let (line, more) = split_line(rest);
        rest = more;
        count += 1;
        if let Err(kind) = read_line(n, without_return(line), graph) {
            return Err(DimacsFault { kind, line: count });
        }
    }
    Ok(())
}

// Reads one line behind the problem line, and takes in the edge that it names, if it names one.
#[tactic(auto, unfolding(crate::specs::Line::problem_fault))]
fn read_line<const W: usize>(n: u32, line: &[u8], graph: &mut GraphOf<W>) -> Result<(), DimacsKind>
    requires { HasVertices n graph.old }
    ensures added { OnOk result (graph.new ≡ with_ends graph.old (ends_of (fields line.now))) }
    ensures faultless { OnOk result (fault_of_words NAMES (Some n) (fields line.now) ≡ None) }
    ensures fault { IfErr result (λ kind. fault_of_words NAMES (Some n) (fields line.now)
        ≡ Some kind) }
{
    let Some((first, rest)) = split_field(line) else {
        return Ok(());
    };
    match class_of(first) {
        LineClass::Passed => Ok(()),
        LineClass::Problem => Err(DimacsKind::SecondProblemLine),
        LineClass::Edge => {
            let (u, v) = read_ends(n, rest)?;
            take_edge(u, v, graph);
            Ok(())
        }
        LineClass::Unknown => Err(DimacsKind::UnknownLine),
    }
}

// Takes in the edge between u and v, unless it is there.
fn take_edge<const W: usize>(u: u32, v: u32, graph: &mut GraphOf<W>)
    requires first { Has graph.old.vertices u }
    requires second { Has graph.old.vertices v }
    requires differ { u ≢ v }
    ensures { graph.new ≡ with_edge graph.old u v }
{
    if !graph.has_edge(u, v) {
        graph.add_edge(u, v);
    }
}
