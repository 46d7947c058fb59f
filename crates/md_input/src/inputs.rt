//! The graph and the script that a session is over, and the script that bytes spell.
ghost use Rattle.std.specs.Prelude.{◌≡◌, [], ◌∷◌, None, IfOk, IfErr};
ghost use Rattle.std.specs.Option.{option_or};
ghost use Rattle.md_graph.specs.PlainGraph.{PlainGraph};
ghost use Rattle.md_script.specs.File.{SpellsScript};
ghost use Rattle.md_input.specs.declared.format.Format.TheVariants.{G6, Dimacs};
ghost use Rattle.md_input.specs.Inputs.{graph_of_inputs, script_of_inputs, HaveRoom};
ghost use Rattle.md_input.specs.Spelling.{SpellsGraphs};
ghost use Rattle.md_input.specs.Faults.{one_graph_fault, script_fault, IsStopAt};

use crate::fault::{Fault, InputStop};
use crate::format::Format;
use crate::room::{BROAD, is_read};
use md_graph::{Graph, GraphOf, NAMES};
use md_graph6::{Lines, scan};
use md_script::Script;
use std::alloc::Global;

/// The graph and the script that a session is over, by the number of words a row of the graph.
#[derive(Drop)]
pub enum SessionInputs {
    /// Sixty-four words: the names in both are below 4,096.
    Broad(GraphOf<64>, Script),
    /// As many as there may be.
    Large(Graph, Script),
}

/// The one graph of a graph file, and the script that bytes spell. The rows of the graph have
/// sixty-four words where the names in both are below 4,096.
///
/// # Errors
///
/// The first fault of the graph file, or its number of graphs, or the first fault of the script;
/// want of memory.
pub fn session_inputs(
    alloc: Global,
    from: Format,
    file: &[u8],
    script: &[u8],
) -> Result<SessionInputs, InputStop>
    ensures graph { IfOk result (λ inputs.
        SpellsGraphs from file.now (graph_of_inputs inputs ∷ [])) }
    ensures script { IfOk result (λ inputs. SpellsScript script.now (script_of_inputs inputs)) }
    ensures room { IfOk result HaveRoom }
    ensures faultless { IfOk result (λ _.
        option_or (one_graph_fault from file.now) (script_fault script.now) ≡ None) }
    ensures stops { IfErr result (IsStopAt
        (option_or (one_graph_fault from file.now) (script_fault script.now))) }
{
    match from {
        Format::G6 => inputs_of_lines(alloc, file, script),
        Format::Dimacs => inputs_of_edges(alloc, file, script),
    }
}

// The one graph of a graph6 file, and the script.
fn inputs_of_lines(alloc: Global, file: &[u8], script: &[u8]) -> Result<SessionInputs, InputStop>
    ensures graph { IfOk result (λ inputs.
        SpellsGraphs G6 file.now (graph_of_inputs inputs ∷ [])) }
    ensures script { IfOk result (λ inputs. SpellsScript script.now (script_of_inputs inputs)) }
    ensures room { IfOk result HaveRoom }
    ensures faultless { IfOk result (λ _.
        option_or (one_graph_fault G6 file.now) (script_fault script.now) ≡ None) }
    ensures stops { IfErr result (IsStopAt
        (option_or (one_graph_fault G6 file.now) (script_fault script.now))) }
{
    let count = scan(file, NAMES)?;
    if count != 1 {
        return Err(InputStop::BadInput(Fault::NotOneGraph(count)));
    }
    let script = md_script::read_script(alloc, script)?;
    let mut lines = Lines::new(file);
    if lines.next_bound() <= BROAD && script.bound() <= BROAD {
        let mut graph = GraphOf::new(alloc)?;
        let _ = lines.take_first(&mut graph);
        return Ok(SessionInputs::Broad(graph, script));
    }
    let mut graph = Graph::new(alloc)?;
    let _ = lines.take_first(&mut graph);
    Ok(SessionInputs::Large(graph, script))
}

// The graph of a DIMACS file, and the script.
fn inputs_of_edges(alloc: Global, file: &[u8], script: &[u8]) -> Result<SessionInputs, InputStop>
    ensures graph { IfOk result (λ inputs.
        SpellsGraphs Dimacs file.now (graph_of_inputs inputs ∷ [])) }
    ensures script { IfOk result (λ inputs. SpellsScript script.now (script_of_inputs inputs)) }
    ensures room { IfOk result HaveRoom }
    ensures faultless { IfOk result (λ _.
        option_or (one_graph_fault Dimacs file.now) (script_fault script.now) ≡ None) }
    ensures stops { IfErr result (IsStopAt
        (option_or (one_graph_fault Dimacs file.now) (script_fault script.now))) }
{
    let mut broad = GraphOf::new(alloc)?;
    if is_read(file, BROAD, NAMES, &mut broad)? {
        let script = md_script::read_script(alloc, script)?;
        if script.bound() <= BROAD {
            return Ok(SessionInputs::Broad(broad, script));
        }
        let mut large = Graph::new(alloc)?;
        md_dimacs::read(file, NAMES, &mut large)?;
        return Ok(SessionInputs::Large(large, script));
    }
    let mut large = Graph::new(alloc)?;
    md_dimacs::read(file, NAMES, &mut large)?;
    let script = md_script::read_script(alloc, script)?;
    Ok(SessionInputs::Large(large, script))
}
