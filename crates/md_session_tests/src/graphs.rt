//! Graphs of a few vertices, and histories of their sessions.
ghost use Rattle.std.specs.Prelude.{◌≡◌, ◌≤◌, [], IfOk};

use md_graph::{GraphOf, Memory};
use md_script::HistoryOf;
use std::alloc::Global;
use std::process::Abort;

// The graph with rows of one word on the names below `n` with these edges.
pub(crate) fn graph_of(
    rt: &impl Abort,
    alloc: Global,
    n: u32,
    edges: &[(u32, u32)],
) -> Result<GraphOf<1>, Memory> {
    assert!(rt; n <= 64);
    Ok(GraphOf::from_edges(alloc, n, edges)?.expect(rt, "edges"))
}

// The history without items, with room for an edit.
pub(crate) fn history_for_one(alloc: Global) -> Result<HistoryOf<1>, Memory>
    ensures items { IfOk result (λ h. h.items ≡ []) }
    ensures room { IfOk result (λ h. 2 ≤ h.spare) }
{
    let mut history = HistoryOf::<1>::new(alloc)?;
    history.reserve(alloc, 2)?;
    Ok(history)
}
