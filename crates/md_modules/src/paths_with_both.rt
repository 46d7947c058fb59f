//! Induced paths on four vertices that hold two given vertices.
ghost use Rattle.std.specs.Prelude.{◌≡◌, ◌≢◌, ◌*◌, ℕ, ◌<◌, ◌↔◌, Bool, true, false, not, IfSome, IfNone};
ghost use Rattle.md_graph.specs.Sets.{Has};
ghost use Rattle.md_graph.specs.PlainGraph.{adjacent};
ghost use Rattle.md_modules.specs.InducedPaths.{IsInducedPathWithBoth};
ghost use Rattle.md_modules.specs.PathSearch.{IsPathOf, IsSeenAlone, IsSeenAlike};

use crate::P4;
use crate::induced_paths::{ascending, first_across};
use md_graph::{GraphOf, Set};

/// An induced path on four vertices that holds both `u` and `v`; `None` exactly where there is
/// none. It takes no memory, and at most one row operation for each vertex that one of the two sees
/// alone, or both see. Condition: they are two different vertices.
pub fn find_p4_with_both<const W: usize>(graph: &GraphOf<W>, u: u32, v: u32) -> Option<P4>
    requires first { Has graph.now.vertices u }
    requires second { Has graph.now.vertices v }
    requires differ { u ≢ v }
    ensures found { IfSome result (λ p.
        IsInducedPathWithBoth (adjacent graph.now) graph.now.vertices u v p.a p.b p.c p.d) }
    ensures none { IfNone result ((a b c d : ℕ)
        → IsInducedPathWithBoth (adjacent graph.now) graph.now.vertices u v a b c d
        → ⊥) }
{
    let _vertices = graph.vertices();
    let joined = graph.has_edge(u, v);
    let by_u = seen_alone(graph, u, v);
    let by_v = seen_alone(graph, v, u);
    if let Some((b, c)) = pair_across(graph, &by_u, &by_v, joined) {
        return Some(path_between(u, b, c, v, joined));
    }
    let alike = seen_alike(graph, u, v, joined);
    if let Some((m, z)) = pair_across(graph, &by_v, &alike, !joined) {
        return Some(path_past(u, v, m, z, joined));
    }
    if let Some((m, z)) = pair_across(graph, &by_u, &alike, !joined) {
        return Some(path_past(v, u, m, z, joined));
    }
    None
}

// The names other than `v` that `u` sees and `v` doesn't.
fn seen_alone<const W: usize>(graph: &GraphOf<W>, u: u32, v: u32) -> Set<W>
    requires first { u < 64 * W }
    requires second { v < 64 * W }
    ensures { (z : ℕ) → Has result z ↔ IsSeenAlone graph.now u v z }
{
    let mut names = graph.row(u).minus(graph.row(v));
    names.remove(v);
    names
}

// The vertices that neither sees (`joined`), or both see.
fn seen_alike<const W: usize>(graph: &GraphOf<W>, u: u32, v: u32, joined: bool) -> Set<W>
    requires first { u < 64 * W }
    requires second { v < 64 * W }
    ensures { (z : ℕ) → Has result z ↔ IsSeenAlike graph.now u v joined z }
{
    let near = graph.row(u);
    if joined {
        return graph.vertices().minus(near).minus(graph.row(v));
    }
    near.and(graph.row(v))
}

// A member of each of two sets that aren't to each other as `value` says.
fn pair_across<const W: usize>(
    graph: &GraphOf<W>,
    firsts: &Set<W>,
    seconds: &Set<W>,
    value: bool,
) -> Option<(u32, u32)>
    ensures found { IfSome result (λ p. Has firsts.now p.0 × Has seconds.now p.1
        × (adjacent graph.now p.0 p.1 ≡ not value)) }
    ensures none { IfNone result ((m z : ℕ) → Has firsts.now m → Has seconds.now z
        → adjacent graph.now m z ≡ not value → ⊥) }
{
    for m in firsts.members() {
        if let Some(z) = first_across(graph, m, seconds, value) {
            return Some((m, z));
        }
    }
    None
}

// The path from `b` over `u` and `v` to `c` (`joined`), or from `u` over `b` and `c` to `v`.
fn path_between(u: u32, b: u32, c: u32, v: u32, joined: bool) -> P4
    ensures inner { joined ≡ true → IsPathOf result b u v c }
    ensures outer { joined ≡ false → IsPathOf result u b c v }
{
    if joined {
        return ascending(b, u, v, c);
    }
    ascending(u, b, c, v)
}

// The path from `u` over `v` and `m` to `z` (`joined`), or from `u` over `z` and `v` to `m`.
fn path_past(u: u32, v: u32, m: u32, z: u32, joined: bool) -> P4
    ensures next { joined ≡ true → IsPathOf result u v m z }
    ensures over { joined ≡ false → IsPathOf result u z v m }
{
    if joined {
        return ascending(u, v, m, z);
    }
    ascending(u, z, v, m)
}
