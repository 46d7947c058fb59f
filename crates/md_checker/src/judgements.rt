//! Whether a line is one that may report a graph, or the first or last state of a session.
ghost use Rattle.std.specs.Prelude.{◌≡◌, ◌*◌, ◌↔◌, Ok, true, IfOk, IsTrue};
ghost use Rattle.md_graph.specs.PlainGraph.{adjacent};
ghost use Rattle.md_comparability.specs.Chains.{HasForcingChain, IsForcingChain, IsShortestChain};
ghost use Rattle.md_forcing.specs.declared.arc_set.Side.TheVariants.{NonEdges};
ghost use Rattle.md_forcing.specs.Sides.{adjacent_on};
ghost use Rattle.md_report.specs.Lines.{tree, barred, not_cograph};
ghost use Rattle.md_report.specs.Places.{Reports, ReportsState, ClosesItems};
ghost use Rattle.md_report.specs.Sessions.{HasTreeLine};
ghost use Rattle.md_report.specs.Orientations.{IsOrientationLine, IsShortestLine};
ghost use Rattle.md_report.specs.Models.{IsModelLine};
ghost use Rattle.md_report.specs.Cographs.{IsP4Bar, HasP4Line, IsOpeningLine};
ghost use Rattle.md_report.specs.Classes.{HasBarLine, IsClassOpening};
ghost use Rattle.md_report.specs.ItemLines.{IsBarred};
ghost use Rattle.md_checker.specs.ReportLines.{plain_report_line};

use crate::certificates::{is_forcing_chain, is_least_edge_orientation, realise};
use crate::fixed_lines::is_end;
use crate::report_line::ReportLine;
use crate::state_text::is_tree_of_state;
use crate::text_fit::fits;
use md_bar::{Bar, BarKind, Class, is_bar};
use md_comparability::{ClassOrChosen, orient_classes};
use md_forcing::{Chain, Side};
use md_graph::{Graph, GraphOf, Memory};
use md_levels::is_shortest;
use md_modules::{P4, is_p4};
use md_report::{GraphMode, Line, SessionMode};
use std::alloc::Global;

// Whether the line reports the graph.
pub(crate) fn reports<const W: usize>(
    alloc: Global,
    mode: GraphMode,
    graph: &GraphOf<W>,
    line: &ReportLine<'_>,
) -> Result<bool, Memory>
    ensures { IfOk result (λ fit. IsTrue fit
        ↔ Reports mode graph.now (plain_report_line line.now)) }
{
    match mode {
        GraphMode::Tree => is_tree_line(alloc, graph, line),
        GraphMode::Compare => is_orientation_line(alloc, graph, line),
        GraphMode::Shortest => is_shortest_line(alloc, graph, line),
        GraphMode::Permute => is_model_line(alloc, graph, line),
    }
}

// Whether the line is that of the tree of the graph.
fn is_tree_line<const W: usize>(
    alloc: Global,
    graph: &GraphOf<W>,
    line: &ReportLine<'_>,
) -> Result<bool, Memory>
    ensures { IfOk result (λ fit. IsTrue fit
        ↔ HasTreeLine tree graph.now (plain_report_line line.now)) }
{
    match line {
        ReportLine::Plain(Line::Tree(tree)) => fits(alloc, graph, tree),
        _ => Ok(false),
    }
}

// Whether the line tells of the least-edge orientation of the graph, or of a forcing chain.
fn is_orientation_line<const W: usize>(
    alloc: Global,
    graph: &GraphOf<W>,
    line: &ReportLine<'_>,
) -> Result<bool, Memory>
    ensures { IfOk result (λ fit. IsTrue fit
        ↔ IsOrientationLine (adjacent graph.now) (plain_report_line line.now)) }
{
    let ReportLine::Plain(plain) = line else {
        return Ok(false);
    };
    match plain {
        Line::Oriented(arcs) => is_least_edge_orientation(alloc, graph, arcs),
        Line::Forced(chain) => is_forcing_chain(alloc, graph, Side::Edges, chain),
        _ => Ok(false),
    }
}

// Whether the line tells of the least-edge orientation of the graph, or of a shortest forcing
// chain.
fn is_shortest_line<const W: usize>(
    alloc: Global,
    graph: &GraphOf<W>,
    line: &ReportLine<'_>,
) -> Result<bool, Memory>
    ensures { IfOk result (λ fit. IsTrue fit
        ↔ IsShortestLine (adjacent graph.now) (plain_report_line line.now)) }
{
    let ReportLine::Plain(plain) = line else {
        return Ok(false);
    };
    match plain {
        Line::Oriented(arcs) => is_least_edge_orientation(alloc, graph, arcs),
        Line::Forced(chain) => is_shortest_chain(alloc, graph, chain),
        _ => Ok(false),
    }
}

// Whether the chain is a forcing chain of the graph, and none has fewer arcs.
fn is_shortest_chain<const W: usize>(
    alloc: Global,
    graph: &GraphOf<W>,
    chain: &Chain,
) -> Result<bool, Memory>
    ensures { IfOk result (λ fit. IsTrue fit ↔ IsShortestChain (adjacent graph.now) chain.now) }
{
    if !is_forcing_chain(alloc, graph, Side::Edges, chain)? {
        return Ok(false);
    }
    is_shortest(alloc, graph, chain)
}

// Whether the line tells of two orders that realise the graph, or of a forcing chain of it or of
// its complement.
fn is_model_line<const W: usize>(
    alloc: Global,
    graph: &GraphOf<W>,
    line: &ReportLine<'_>,
) -> Result<bool, Memory>
    ensures { IfOk result (λ fit. IsTrue fit
        ↔ IsModelLine graph.now (plain_report_line line.now)) }
{
    let ReportLine::Plain(plain) = line else {
        return Ok(false);
    };
    match plain {
        Line::Orders(first, second) => realise(alloc, graph, first, second),
        Line::ForcedIn(chain) => is_forcing_chain(alloc, graph, Side::Edges, chain),
        Line::ForcedInComplement(chain) => is_forced_in_complement(alloc, graph, chain),
        _ => Ok(false),
    }
}

// Whether the graph has no forcing chain, and the chain is one of its complement.
fn is_forced_in_complement<const W: usize>(
    alloc: Global,
    graph: &GraphOf<W>,
    chain: &Chain,
) -> Result<bool, Memory>
    ensures { IfOk result (λ fit. IsTrue fit ↔ ((¬ HasForcingChain (adjacent graph.now))
        × IsForcingChain (adjacent_on NonEdges graph.now) chain.now)) }
{
    if has_forcing_chain(alloc, graph)? {
        return Ok(false);
    }
    is_forcing_chain(alloc, graph, Side::NonEdges, chain)
}

// Whether the graph has a forcing chain.
fn has_forcing_chain<const W: usize>(alloc: Global, graph: &GraphOf<W>) -> Result<bool, Memory>
    ensures { IfOk result (λ has. IsTrue has ↔ HasForcingChain (adjacent graph.now)) }
{
    let _vertices = graph.vertices();
    match orient_classes(alloc, graph, Side::Edges)? {
        ClassOrChosen::Whole(_) => Ok(false),
        ClassOrChosen::Stopped(_) => Ok(true),
    }
}

// Whether the line reports the first state of a session.
pub(crate) fn reports_state<const W: usize>(
    alloc: Global,
    mode: SessionMode,
    graph: &GraphOf<W>,
    line: &ReportLine<'_>,
) -> Result<bool, Memory>
    ensures { IfOk result (λ fit. IsTrue fit
        ↔ ReportsState mode graph.now (plain_report_line line.now)) }
{
    match mode {
        SessionMode::Edit => is_tree_line(alloc, graph, line),
        SessionMode::Cograph => is_opening_line(alloc, graph, line),
        SessionMode::Quiet => Ok(is_path_line(graph, line)),
        SessionMode::Of(class) => is_class_opening(alloc, class, graph, line),
    }
}

// Whether the line tells of an induced P4 of the graph.
fn is_path_line<const W: usize>(graph: &GraphOf<W>, line: &ReportLine<'_>) -> bool
    ensures { IsTrue result ↔ HasP4Line not_cograph graph.now (plain_report_line line.now) }
{
    match line.first_bar() {
        Some(bar) => is_path(graph, &bar),
        None => false,
    }
}

// Whether the bar bars the graph from being a state of a session of the mode.
pub(crate) fn bars_state<const W: usize>(mode: SessionMode, graph: &GraphOf<W>, bar: &Bar) -> bool
    ensures { IsTrue result ↔ IsBarred mode graph.now bar.now }
{
    match mode {
        SessionMode::Edit => false,
        SessionMode::Cograph => is_path(graph, bar),
        SessionMode::Quiet => is_path(graph, bar),
        SessionMode::Of(class) => is_bar(graph, class, bar),
    }
}

// Whether the bar is an induced P4 of the graph.
fn is_path<const W: usize>(graph: &GraphOf<W>, bar: &Bar) -> bool
    ensures { IsTrue result ↔ IsP4Bar graph.now bar.now }
{
    let Bar { kind, a, b, c, d } = *bar;
    kind == BarKind::P4 && is_p4(graph, &P4 { a, b, c, d })
}

// Whether the line is the one behind all answers, where the graph is the last one.
pub(crate) fn closes_items<const W: usize>(
    alloc: Global,
    mode: SessionMode,
    graph: &GraphOf<W>,
    line: &ReportLine<'_>,
) -> Result<bool, Memory>
    ensures { IfOk result (λ fit. IsTrue fit
        ↔ ClosesItems mode graph.now (plain_report_line line.now)) }
{
    match mode {
        SessionMode::Edit => Ok(is_end(line)),
        SessionMode::Cograph => Ok(is_end(line)),
        SessionMode::Of(_) => Ok(is_end(line)),
        SessionMode::Quiet => is_tree_line(alloc, graph, line),
    }
}

// Whether the line tells of an induced P4 of the graph, or of its tree where it is a cograph.
fn is_opening_line<const W: usize>(
    alloc: Global,
    graph: &GraphOf<W>,
    line: &ReportLine<'_>,
) -> Result<bool, Memory>
    ensures { IfOk result (λ fit. IsTrue fit
        ↔ IsOpeningLine graph.now (plain_report_line line.now)) }
{
    match line {
        ReportLine::Plain(Line::Tree(tree)) => {
            is_tree_of_state(alloc, SessionMode::Cograph, graph, tree)
        }
        _ => Ok(is_path_line(graph, line)),
    }
}

// Whether the line tells of a bar of the class in the graph, or of its tree where it is of the
// class.
fn is_class_opening<const W: usize>(
    alloc: Global,
    class: Class,
    graph: &GraphOf<W>,
    line: &ReportLine<'_>,
) -> Result<bool, Memory>
    ensures { IfOk result (λ fit. IsTrue fit
        ↔ IsClassOpening class graph.now (plain_report_line line.now)) }
{
    match line {
        ReportLine::Plain(Line::Tree(tree)) => {
            is_tree_of_state(alloc, SessionMode::Of(class), graph, tree)
        }
        _ => Ok(is_bar_line(class, graph, line)),
    }
}

// Whether the line tells of a bar of the class in the graph.
fn is_bar_line<const W: usize>(class: Class, graph: &GraphOf<W>, line: &ReportLine<'_>) -> bool
    ensures { IsTrue result ↔ HasBarLine class barred graph.now (plain_report_line line.now) }
{
    match line.first_bar() {
        Some(bar) => is_bar(graph, class, &bar),
        None => false,
    }
}

// Whether an answer is that something is so.
pub(crate) fn is_true(answer: &Result<bool, Memory>) -> bool
    ensures { IsTrue result ↔ (answer.now ≡ Ok true) }
{
    match answer {
        Ok(yes) => *yes,
        Err(_) => false,
    }
}
