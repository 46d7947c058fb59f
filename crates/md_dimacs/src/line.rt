//! One line of a DIMACS edge file.
ghost use Rattle.std.specs.Prelude.{◌≡◌, ◌≢◌, ◌<◌, ◌≤◌, length, None, Some, IfOk, IfErr, OnOk, IsTrue};
ghost use Rattle.md_text.specs.Fields.{fields};
ghost use Rattle.md_dimacs.specs.Line.{class_of_field, is_form, both, sizes_in, ends_in, is_vertex, sizes_fault, problem_fault, ends_fault, edge_fault};
ghost use Rattle.md_dimacs.specs.File.{AreSizes};

use crate::DimacsKind;
use md_graph::NAMES;
use md_text::{number, three_fields, two_numbers};

// The class of a line, by its first field.
#[derive(Clone, Copy)]
pub(crate) enum LineClass {
    // Read past: no field, a comment, or a line of `n`, `d`, `v` or `x`.
    Passed,
    // A problem line, `p`.
    Problem,
    // An edge line, `e`.
    Edge,
    // Of no class.
    Unknown,
}

// The class of a line that begins with this field.
#[tactic(auto, unfolding(crate::specs::Line::class_of_field))]
pub(crate) fn class_of(field: &[u8]) -> LineClass
    requires { 0 < length field.now }
    ensures { result ≡ class_of_field field.now }
{
    if field[0] == b'c' {
        return LineClass::Passed;
    }
    if field.len() != 1 {
        return LineClass::Unknown;
    }
    match field[0] {
        b'p' => LineClass::Problem,
        b'e' => LineClass::Edge,
        b'n' | b'd' | b'v' | b'x' => LineClass::Passed,
        _ => LineClass::Unknown,
    }
}

// Whether the second field of a problem line is right.
#[tactic(auto, unfolding(crate::specs::Line::is_form))]
fn names_edges(field: &[u8]) -> bool
    ensures { result ≡ is_form field.now }
{
    field == b"edge".as_slice() || field == b"col".as_slice()
}

// Reads the fields behind the `p` of a first problem line: the number of vertices, which is below
// the limit.
pub(crate) fn read_problem(limit: u32, rest: &[u8]) -> Result<u32, DimacsKind>
    requires { limit ≤ NAMES }
    ensures sizes { IfOk result (λ n. AreSizes limit n (sizes_in (fields rest.now))) }
    ensures below { IfOk result (λ n. n < limit) }
    ensures fault { IfErr result (λ kind. problem_fault limit None (fields rest.now) ≡ Some kind) }
{
    match three_fields(rest) {
        Some((form, vertices, edges)) => {
            if !names_edges(form) {
                return Err(DimacsKind::UnknownLine);
            }
            checked_size(limit, number(vertices), number(edges))
        }
        None => Err(DimacsKind::FieldCount),
    }
}

// The number of vertices that the two numbers of a problem line give.
fn checked_size(limit: u32, vertices: Option<u64>, edges: Option<u64>) -> Result<u32, DimacsKind>
    requires { limit ≤ NAMES }
    ensures sizes { IfOk result (λ n. AreSizes limit n (both vertices edges)) }
    ensures below { IfOk result (λ n. n < limit) }
    ensures fault { IfErr result (λ kind. sizes_fault limit vertices edges ≡ Some kind) }
{
    let Some(n) = vertices else {
        return Err(DimacsKind::BadNumber);
    };
    if edges.is_none() {
        return Err(DimacsKind::BadNumber);
    }
    if n >= u64::from(limit) {
        return Err(DimacsKind::TooManyVertices);
    }
    Ok(n as u32)
}

// Reads the fields behind the `e` of an edge line, where there are `n` vertices: the two ends.
// Always inlined: with a reader for each width it would be a call an edge.
#[inline(always)]
pub(crate) fn read_ends(n: u32, rest: &[u8]) -> Result<(u32, u32), DimacsKind>
    ensures ends { IfOk result (λ p. ends_in (fields rest.now) ≡ Some p) }
    ensures first { IfOk result (λ p. IsTrue (is_vertex n p.0)) }
    ensures second { IfOk result (λ p. IsTrue (is_vertex n p.1)) }
    ensures differ { IfOk result (λ p. p.0 ≢ p.1) }
    ensures faultless { OnOk result (edge_fault (Some n) (fields rest.now) ≡ None) }
    ensures fault { IfErr result (λ kind. edge_fault (Some n) (fields rest.now) ≡ Some kind) }
{
    match two_numbers(rest) {
        Some((first, second)) => checked_ends(n, first, second),
        None => Err(DimacsKind::FieldCount),
    }
}

// The ends that the two numbers of an edge line give, where there are `n` vertices.
fn checked_ends(n: u32, first: Option<u64>, second: Option<u64>) -> Result<(u32, u32), DimacsKind>
    ensures ends { IfOk result (λ p. both first second ≡ Some p) }
    ensures first { IfOk result (λ p. IsTrue (is_vertex n p.0)) }
    ensures second { IfOk result (λ p. IsTrue (is_vertex n p.1)) }
    ensures differ { IfOk result (λ p. p.0 ≢ p.1) }
    ensures faultless { OnOk result (ends_fault n first second ≡ None) }
    ensures fault { IfErr result (λ kind. ends_fault n first second ≡ Some kind) }
{
    let Some(u) = first else {
        return Err(DimacsKind::BadNumber);
    };
    let Some(v) = second else {
        return Err(DimacsKind::BadNumber);
    };
    if !is_vertex_of(n, u) || !is_vertex_of(n, v) {
        return Err(DimacsKind::VertexOutOfRange);
    }
    if u == v {
        return Err(DimacsKind::Loop);
    }
    Ok((u as u32, v as u32))
}

// Whether a number is one of the vertices 1 to n.
fn is_vertex_of(n: u32, u: u64) -> bool
    ensures { result ≡ is_vertex n u }
{
    0 < u && u <= u64::from(n)
}
