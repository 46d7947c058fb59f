//! What a program over the crates of graphs can promise, proved from the contracts of their public
//! calls alone.
ghost use Rattle.std.specs.Prelude.{◌↔◌, ℕ, List, IfOk, IsTrue};
ghost use Rattle.md_graph.specs.Sets.{NameSet, Has, Lacks};
ghost use Rattle.md_graph.specs.PlainGraph.{adjacent};
ghost use Rattle.md_modules.specs.Modules.{IsModule};
ghost use Rattle.md_modules.specs.InducedPaths.{HasInducedPath};
ghost use Rattle.md_comparability.specs.Orders.{Realise};
ghost use Rattle.md_comparability.specs.Orientations.{HasTransitiveOrientation};

use md_graph::{GraphOf, Memory, Set};
use md_modules::{closure, find_p4};
use md_orient::{PermVerdict, Verdict, model, orient};
use std::alloc::Global;

/// Whether the graph has a transitive orientation. Errors: want of memory.
pub fn is_comparability_graph<const W: usize>(
    alloc: Global,
    graph: &GraphOf<W>,
) -> Result<bool, Memory>
    ensures oriented { IfOk result (λ is.
        IsTrue is ↔ HasTransitiveOrientation (adjacent graph.now)) }
{
    let _vertices = graph.vertices();
    match orient(alloc, graph)? {
        Verdict::Transitive(_) => Ok(true),
        Verdict::Forced(_) => Ok(false),
    }
}

/// Whether the graph is a permutation graph: two orders of its vertices realise it. Errors: want of
/// memory.
pub fn is_permutation_graph<const W: usize>(
    alloc: Global,
    graph: &GraphOf<W>,
) -> Result<bool, Memory>
    ensures realised { IfOk result (λ is.
        IsTrue is ↔ ((p : List ℕ) × (q : List ℕ)
        × Realise (adjacent graph.now) graph.now.vertices p q)) }
{
    let _vertices = graph.vertices();
    match model(alloc, graph)? {
        PermVerdict::Orders(_, _) => Ok(true),
        PermVerdict::ForcedIn(_) => Ok(false),
        PermVerdict::ForcedInComplement(_) => Ok(false),
    }
}

/// Whether some module of the graph holds `u` and `v` and not `w`. Condition: `u` and `v` are
/// vertices.
pub fn can_part<const W: usize>(graph: &GraphOf<W>, u: u32, v: u32, w: u32) -> bool
    requires first { Has graph.now.vertices u }
    requires second { Has graph.now.vertices v }
    ensures parted { IsTrue result ↔ ((m : NameSet)
        × IsModule (adjacent graph.now) graph.now.vertices m
        × Has m u × Has m v × Lacks m w) }
{
    let _vertices = graph.vertices();
    let mut least = Set::none();
    closure(graph, u, v, &mut least);
    !least.has(w)
}

/// Whether some four vertices of the graph are an induced path.
pub fn has_induced_path<const W: usize>(graph: &GraphOf<W>) -> bool
    ensures path { IsTrue result ↔ HasInducedPath (adjacent graph.now) graph.now.vertices }
{
    find_p4(graph).is_some()
}
