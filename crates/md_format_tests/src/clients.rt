//! What a program over the crates of formats can promise, proved from the contracts of their public
//! calls alone.
ghost use Rattle.std.specs.Prelude.{◌≡◌, ◌<◌, ◌↔◌, List, length, IfOk, IfSome, IfNone, IsTrue};
ghost use Rattle.std.specs.FinSet.{len};
ghost use Rattle.md_graph6.specs.Written.{renumbered};
ghost use Rattle.md_dimacs.specs.Text.{IsRenamed};
ghost use Rattle.md_digraph.specs.PlainDigraph.{PlainDigraph};
ghost use Rattle.md_digraph6.specs.ArcFile.{SpellsDigraphs};
ghost use Rattle.md_script.specs.declared.item.Item.{Item};
ghost use Rattle.md_script.specs.File.{SpellsScript};

use md_digraph6::scan_directed;
use md_graph::{Graph, GraphOf, Memory, NAMES};
use md_graph6::{Lines, write};
use md_script::{ScriptFault, read_script};
use std::alloc::Global;

/// The graph that the graph6 line of a graph spells: that graph, its vertices renumbered from 0 on.
/// Errors: want of memory.
pub fn read_back<const W: usize>(alloc: Global, graph: &GraphOf<W>) -> Result<Graph, Memory>
    ensures same { IfOk result (λ read. read ≡ renumbered graph.now) }
{
    let text = write(alloc, graph)?;
    let mut read = Graph::new(alloc)?;
    Lines::new(&text).next(&mut read);
    Ok(read)
}

/// The graph that the DIMACS text of a graph spells: that graph, each vertex named by its place
/// from 1 on. Condition: the graph has fewer vertices than there are names. Errors: want of memory.
pub fn read_dimacs_back<const W: usize>(alloc: Global, graph: &GraphOf<W>) -> Result<Graph, Memory>
    requires fewer { len graph.now.vertices < NAMES }
    ensures renamed { IfOk result (IsRenamed graph.now) }
{
    let _vertices = graph.vertices();
    let text = md_dimacs::write(alloc, graph)?;
    let mut read = Graph::new(alloc)?;
    match md_dimacs::read(&text, NAMES, &mut read) {
        Ok(()) => Ok(read),
        Err(_) => unreachable!(),
    }
}

/// How many directed graphs the bytes of a digraph6 file spell; `None` exactly where they spell
/// none.
pub fn count_digraphs(bytes: &[u8]) -> Option<u64>
    ensures counted { IfSome result (λ count. (digraphs : List PlainDigraph)
        × SpellsDigraphs bytes.now digraphs × (count ≡ length digraphs)) }
    ensures none { IfNone result ((digraphs : List PlainDigraph)
        → SpellsDigraphs bytes.now digraphs → ⊥) }
{
    match scan_directed(bytes) {
        Ok(count) => Some(count),
        Err(_) => None,
    }
}

/// Whether the bytes spell a script. Errors: want of memory.
pub fn is_script(alloc: Global, bytes: &[u8]) -> Result<bool, Memory>
    ensures spelled { IfOk result (λ is. IsTrue is
        ↔ ((items : List Item) × SpellsScript bytes.now items)) }
{
    match read_script(alloc, bytes) {
        Ok(_) => Ok(true),
        Err(ScriptFault::Bad { .. }) => Ok(false),
        Err(ScriptFault::Memory) => Err(Memory),
    }
}
