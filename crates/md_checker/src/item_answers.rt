//! Whether a line answers an item of a script. The session's state is kept as the graph and what
//! leads back to the earlier ones; nothing is copied.
ghost use Rattle.std.specs.Prelude.{◌≡◌, ◌*◌, ◌+◌, ◌≤◌, ◌↔◌, List, [], ◌∷◌, length, codes, None, Some, Ok, true, if◌then◌else◌, slice_get, IfOk, IsErr, IsTrue};
ghost use Rattle.std.specs.List.{All};
ghost use Rattle.md_graph.specs.PlainGraph.{PlainGraph};
ghost use Rattle.md_bar_tree.specs.declared.Bar.{Bar};
ghost use Rattle.md_script.specs.declared.edit.Edit as script;
ghost use Rattle.md_script.specs.declared.item.Item.{Item};
ghost use Rattle.md_script.specs.declared.item.Item.TheVariants.{One, Undo, Group};
ghost use Rattle.md_script.specs.Edit.{HasNamesBelow, reason_of, after};
ghost use Rattle.md_script.specs.Items.{HasItemNamesBelow};
ghost use Rattle.md_script.specs.Pasts.{Led, MayBack, AnyGraph, taken_back};
ghost use Rattle.md_script.specs.Histories.{HistoryFits};
ghost use Rattle.md_report.specs.Lines.{applied, applied_quiet, refused, refused_bar, group_refused, group_refused_bar, nothing_to_undo};
ghost use Rattle.md_report.specs.Sessions.{HasTreeLine};
ghost use Rattle.md_report.specs.ItemLines.{IsAllowed, IsBarred, IsDoneLine};
ghost use Rattle.md_checker.specs.Judged.{IsJudged, IsTried};
ghost use Rattle.md_checker.specs.ReportLines.{plain_report_line};

use crate::class_test::makes_bar;
use crate::judgements::{bars_state, is_true};
use crate::report_line::ReportLine;
use crate::state_text::is_tree_of_state;
use crate::text_fit::fits;
use md_bar::Bar;
use md_graph::{GraphOf, Memory};
use md_report::{Line, SessionMode, made_p4};
use md_script::{
    Edit, EditReason, Edits, HistoryOf, Item, apply, back_through, inverse, reason, take_back,
    take_item_back,
};
use std::alloc::Global;

// What came of the edits of a group that were applied one after the other.
#[derive(Clone, Copy)]
pub(crate) enum Tried {
    // All were applied.
    All,
    // A reason speaks against the edit behind so many.
    Refused(u64, EditReason),
    // The graph after the edit behind so many may be no state of the session.
    Barred(u64),
}

// Whether the line answers the item: graph and history are then those behind it; else, and for want
// of memory, they stay. Conditions: the names in the item are below `64 * W`, the history fits, and
// the graph may be a state of a session of the mode.
pub(crate) fn answers_item<const W: usize>(
    alloc: Global,
    mode: SessionMode,
    graph: &mut GraphOf<W>,
    history: &mut HistoryOf<W>,
    item: &Item,
    line: &ReportLine<'_>,
) -> Result<bool, Memory>
    requires names { HasItemNamesBelow (64 * W) item.now }
    requires fits { HistoryFits (64 * W) (IsAllowed mode) graph.old history.old.items }
    requires allowed { IsAllowed mode graph.old }
    ensures judged { IfOk result (λ taken. IsJudged taken (64 * W) mode graph.old
        history.old.items item.now (plain_report_line line.now) graph.new history.new.items) }
    ensures stays { IsErr result → graph.new ≡ graph.old }
    ensures kept { IsErr result → history.new.items ≡ history.old.items }
{
    match item {
        Item::One(edit) => answers_edit(alloc, mode, graph, history, edit, line),
        Item::Group(edits) => answers_group(alloc, mode, graph, history, edits, line),
        Item::Undo => answers_undo(alloc, mode, graph, history, line),
    }
}

// The same of an edit alone.
fn answers_edit<const W: usize>(
    alloc: Global,
    mode: SessionMode,
    graph: &mut GraphOf<W>,
    history: &mut HistoryOf<W>,
    edit: &Edit,
    line: &ReportLine<'_>,
) -> Result<bool, Memory>
    requires names { HasNamesBelow (64 * W) edit.now }
    requires fits { HistoryFits (64 * W) (IsAllowed mode) graph.old history.old.items }
    requires allowed { IsAllowed mode graph.old }
    ensures judged { IfOk result (λ taken. IsJudged taken (64 * W) mode graph.old
        history.old.items (One edit.now) (plain_report_line line.now) graph.new history.new.items) }
    ensures stays { IsErr result → graph.new ≡ graph.old }
    ensures kept { IsErr result → history.new.items ≡ history.old.items }
{
    if let Some(reason) = reason(graph, edit) {
        return Ok(is_refusal(line, reason));
    }
    match line.refused_bar() {
        Some(bar) => Ok(bars_edit(mode, graph, edit, &bar)),
        None => tells_applied(alloc, mode, graph, history, edit, line),
    }
}

// The same of an edit against which no reason speaks, and a line that refuses it with no bar.
fn tells_applied<const W: usize>(
    alloc: Global,
    mode: SessionMode,
    graph: &mut GraphOf<W>,
    history: &mut HistoryOf<W>,
    edit: &Edit,
    line: &ReportLine<'_>,
) -> Result<bool, Memory>
    requires other { (bar : Bar) → plain_report_line line.now ≡ refused_bar bar → ⊥ }
    requires applies { reason_of graph.old edit.now ≡ None }
    requires names { HasNamesBelow (64 * W) edit.now }
    requires fits { HistoryFits (64 * W) (IsAllowed mode) graph.old history.old.items }
    requires allowed { IsAllowed mode graph.old }
    ensures judged { IfOk result (λ taken. IsJudged taken (64 * W) mode graph.old
        history.old.items (One edit.now) (plain_report_line line.now) graph.new history.new.items) }
    ensures stays { IsErr result → graph.new ≡ graph.old }
    ensures kept { IsErr result → history.new.items ≡ history.old.items }
{
    history.reserve(alloc, 2)?;
    let past = inverse(graph, edit);
    apply(graph, edit);
    let fit = is_led_line(alloc, mode, graph, edit, line);
    if is_true(&fit) {
        history.open_item();
        history.push(past);
        return fit;
    }
    take_back(graph, &past);
    fit
}

// Whether the graph, to which the edit led, may be a state of a session of the mode, and the line
// tells that it is. Condition: the graph before was such a state.
fn is_led_line<const W: usize>(
    alloc: Global,
    mode: SessionMode,
    graph: &GraphOf<W>,
    edit: &Edit,
    line: &ReportLine<'_>,
) -> Result<bool, Memory>
    requires led { (g : PlainGraph) × Led (64 * W) g edit.now graph.now × IsAllowed mode g }
    ensures { IfOk result (λ fit. IsTrue fit ↔ (IsAllowed mode graph.now
        × IsDoneLine mode graph.now (plain_report_line line.now))) }
{
    match mode {
        SessionMode::Edit => is_applied_state(alloc, mode, graph, line),
        SessionMode::Cograph => is_applied_state(alloc, mode, graph, line),
        SessionMode::Quiet => Ok(is_applied_quiet(line) && !is_barred(mode, graph, edit)),
        SessionMode::Of(_) => is_applied_state(alloc, mode, graph, line),
    }
}

// Whether the line tells that an item was applied, which left the graph.
fn is_done_line<const W: usize>(
    alloc: Global,
    mode: SessionMode,
    graph: &GraphOf<W>,
    line: &ReportLine<'_>,
) -> Result<bool, Memory>
    ensures { IfOk result (λ fit. IsTrue fit
        ↔ IsDoneLine mode graph.now (plain_report_line line.now)) }
{
    match mode {
        SessionMode::Edit => is_applied_tree(alloc, graph, line),
        SessionMode::Cograph => is_applied_tree(alloc, graph, line),
        SessionMode::Quiet => Ok(is_applied_quiet(line)),
        SessionMode::Of(_) => is_applied_tree(alloc, graph, line),
    }
}

// Whether the line tells that an item was applied, with the tree of the graph.
fn is_applied_tree<const W: usize>(
    alloc: Global,
    graph: &GraphOf<W>,
    line: &ReportLine<'_>,
) -> Result<bool, Memory>
    ensures { IfOk result (λ fit. IsTrue fit
        ↔ HasTreeLine applied graph.now (plain_report_line line.now)) }
{
    match line {
        ReportLine::Plain(Line::Applied(tree)) => fits(alloc, graph, tree),
        _ => Ok(false),
    }
}

// The same, and the graph may be a state of a session of the mode.
fn is_applied_state<const W: usize>(
    alloc: Global,
    mode: SessionMode,
    graph: &GraphOf<W>,
    line: &ReportLine<'_>,
) -> Result<bool, Memory>
    ensures { IfOk result (λ fit. IsTrue fit ↔ (IsAllowed mode graph.now
        × HasTreeLine applied graph.now (plain_report_line line.now))) }
{
    match line {
        ReportLine::Plain(Line::Applied(tree)) => is_tree_of_state(alloc, mode, graph, tree),
        _ => Ok(false),
    }
}

// Whether the line tells that an item was applied, without a tree.
fn is_applied_quiet(line: &ReportLine<'_>) -> bool
    ensures { IsTrue result ↔ plain_report_line line.now ≡ applied_quiet }
{
    match line {
        ReportLine::Plain(Line::AppliedQuiet) => true,
        _ => false,
    }
}

// Whether the graph, to which the edit led, may be no state of a session of the mode. Condition:
// the graph before was one.
fn is_barred<const W: usize>(mode: SessionMode, graph: &GraphOf<W>, edit: &Edit) -> bool
    requires { (g : PlainGraph) × Led (64 * W) g edit.now graph.now × IsAllowed mode g }
    ensures barred { IsTrue result → IsAllowed mode graph.now → ⊥ }
    ensures allowed { ¬ IsTrue result → IsAllowed mode graph.now }
{
    match mode {
        SessionMode::Edit => false,
        SessionMode::Cograph => made_p4(graph, edit).is_some(),
        SessionMode::Quiet => made_p4(graph, edit).is_some(),
        SessionMode::Of(class) => makes_bar(graph, class, edit),
    }
}

// Whether the line refuses an edit for the reason.
fn is_refusal(line: &ReportLine<'_>, reason: EditReason) -> bool
    ensures { IsTrue result ↔ (plain_report_line line.now ≡ refused reason) }
{
    match line {
        ReportLine::Plain(Line::Refused(named)) => *named == reason,
        _ => false,
    }
}

// Whether the bar bars the graph after the edit from being a state of a session of the mode. The
// graph stays. Condition: there is no reason against the edit.
fn bars_edit<const W: usize>(
    mode: SessionMode,
    graph: &mut GraphOf<W>,
    edit: &Edit,
    bar: &Bar,
) -> bool
    requires applies { reason_of graph.old edit.now ≡ None }
    requires names { HasNamesBelow (64 * W) edit.now }
    ensures is { IsTrue result ↔ IsBarred mode (after graph.old edit.now) bar.now }
    ensures stays { graph.new ≡ graph.old }
{
    let past = inverse(graph, edit);
    apply(graph, edit);
    let is = bars_state(mode, graph, bar);
    take_back(graph, &past);
    is
}

// The same as `answers_item`, of a group.
fn answers_group<const W: usize>(
    alloc: Global,
    mode: SessionMode,
    graph: &mut GraphOf<W>,
    history: &mut HistoryOf<W>,
    edits: &Edits,
    line: &ReportLine<'_>,
) -> Result<bool, Memory>
    requires names { All (HasNamesBelow (64 * W)) edits.now }
    requires fits { HistoryFits (64 * W) (IsAllowed mode) graph.old history.old.items }
    requires allowed { IsAllowed mode graph.old }
    ensures judged { IfOk result (λ taken. IsJudged taken (64 * W) mode graph.old
        history.old.items (Group edits.now) (plain_report_line line.now) graph.new
        history.new.items) }
    ensures stays { IsErr result → graph.new ≡ graph.old }
    ensures kept { IsErr result → history.new.items ≡ history.old.items }
{
    let _vertices = graph.vertices();
    history.reserve(alloc, edits.len() + 1)?;
    history.open_item();
    match try_edits(mode, graph, history, edits) {
        Tried::All => {
            let fit = is_done_line(alloc, mode, graph, line);
            if is_true(&fit) {
                return fit;
            }
            take_item_back(graph, history);
            fit
        }
        Tried::Refused(i, reason) => {
            take_item_back(graph, history);
            Ok(is_group_refusal(line, i + 1, reason))
        }
        Tried::Barred(i) => {
            let fit = is_group_barred(mode, graph, edits.get(i), line, i + 1);
            take_item_back(graph, history);
            Ok(fit)
        }
    }
}

// Applies the edits of a group one after the other, up to the first that is refused; what takes the
// others back is pushed to the history. Conditions: the last item of the history has no edits,
// there is room for the edits, their names are below `64 * W`, and the graph may be a state of a
// session of the mode.
pub(crate) fn try_edits<const W: usize>(
    mode: SessionMode,
    graph: &mut GraphOf<W>,
    history: &mut HistoryOf<W>,
    edits: &Edits,
) -> Tried
    requires names { All (HasNamesBelow (64 * W)) edits.now }
    requires item { (others : List (List script.Edit)) × (history.old.items ≡ [] ∷ others) }
    requires room { length edits.now ≤ history.old.spare }
    requires allowed { IsAllowed mode graph.old }
    ensures tried { (others : List (List script.Edit)) → history.old.items ≡ [] ∷ others →
        IsTried result mode graph.old edits.now graph.new history.new.items others }
{
    for i in 0..edits.len() {
        let edit = edits.get(i);
        if let Some(found) = reason(graph, edit) {
            return Tried::Refused(i, found);
        }
        let past = inverse(graph, edit);
        apply(graph, edit);
        if is_barred(mode, graph, edit) {
            take_back(graph, &past);
            return Tried::Barred(i);
        }
        history.push(past);
    }
    Tried::All
}

// Whether the line refuses the edit of a group with this number, for the reason.
fn is_group_refusal(line: &ReportLine<'_>, number: u64, reason: EditReason) -> bool
    ensures { IsTrue result ↔ (plain_report_line line.now ≡ group_refused number reason) }
{
    match line {
        ReportLine::Plain(Line::GroupRefused(told, named)) => {
            *told == number && *named == reason
        }
        _ => false,
    }
}

// Whether the line refuses the edit of a group with this number with a bar by which the graph after
// it is no state of a session of the mode. The graph stays. Condition: there is no reason against
// the edit.
fn is_group_barred<const W: usize>(
    mode: SessionMode,
    graph: &mut GraphOf<W>,
    edit: &Edit,
    line: &ReportLine<'_>,
    number: u64,
) -> bool
    requires applies { reason_of graph.old edit.now ≡ None }
    requires names { HasNamesBelow (64 * W) edit.now }
    ensures is { IsTrue result ↔ ((bar : Bar) × IsBarred mode (after graph.old edit.now) bar
        × (plain_report_line line.now ≡ group_refused_bar number bar)) }
    ensures stays { graph.new ≡ graph.old }
{
    match line.group_refused_bar() {
        Some((told, bar)) => told == number && bars_edit(mode, graph, edit, &bar),
        None => false,
    }
}

// The same as `answers_item`, of an undo.
fn answers_undo<const W: usize>(
    alloc: Global,
    mode: SessionMode,
    graph: &mut GraphOf<W>,
    history: &mut HistoryOf<W>,
    line: &ReportLine<'_>,
) -> Result<bool, Memory>
    requires fits { HistoryFits (64 * W) (IsAllowed mode) graph.old history.old.items }
    requires allowed { IsAllowed mode graph.old }
    ensures judged { IfOk result (λ taken. IsJudged taken (64 * W) mode graph.old
        history.old.items Undo (plain_report_line line.now) graph.new history.new.items) }
    ensures stays { IsErr result → graph.new ≡ graph.old }
    ensures kept { IsErr result → history.new.items ≡ history.old.items }
{
    if history.items() == 0 {
        return Ok(is_nothing_to_undo(line));
    }
    let mut redo = go_back(alloc, graph, history)?;
    let fit = is_done_line(alloc, mode, graph, line);
    take_item_back(graph, &mut redo);
    if is_true(&fit) {
        take_item_back(graph, history);
        return fit;
    }
    fit
}

// Takes the last item back; what comes has one item, which gives the graph again once it is taken
// back. The history stays; for want of memory so does the graph. Conditions: an item stands, and
// its edits can be taken back, the last one first.
pub(crate) fn go_back<const W: usize>(
    alloc: Global,
    graph: &mut GraphOf<W>,
    history: &HistoryOf<W>,
) -> Result<HistoryOf<W>, Memory>
    requires { (last : List script.Edit) × (others : List (List script.Edit))
        × (history.now.items ≡ last ∷ others) × MayBack (64 * W) AnyGraph graph.old last }
    ensures back { IfOk result (λ redo. (last : List script.Edit)
        (others : List (List script.Edit)) → history.now.items ≡ last ∷ others →
        graph.new ≡ taken_back graph.old last) }
    ensures again { IfOk result (λ redo. (edits : List script.Edit) × (redo.items ≡ edits ∷ []) ×
        MayBack (64 * W) AnyGraph graph.new edits × (taken_back graph.new edits ≡ graph.old)) }
    ensures stays { IsErr result → graph.new ≡ graph.old }
{
    let mut redo = HistoryOf::new(alloc)?;
    redo.reserve(alloc, 1)?;
    redo.open_item();
    redo.reserve(alloc, history.last_len())?;
    back_through(graph, history, &mut redo);
    Ok(redo)
}

// Whether the line tells that there is no item to undo.
fn is_nothing_to_undo(line: &ReportLine<'_>) -> bool
    ensures { IsTrue result ↔ plain_report_line line.now ≡ nothing_to_undo }
{
    match line {
        ReportLine::Plain(Line::NothingToUndo) => true,
        _ => false,
    }
}
