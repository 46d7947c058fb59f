//! Applying the edits of an item one after the other, and taking them back.
ghost use Rattle.std.specs.Prelude.{◌≡◌, ℕ, ◌+◌, ◌*◌, ◌≤◌, List, [], ◌∷◌, length, slice_get, Some, IfSome, IfNone};
ghost use Rattle.std.specs.List.{All};
ghost use Rattle.md_script.specs.declared.edit.Edit.{Edit};
ghost use Rattle.md_script.specs.Edit.{HasNamesBelow, reason_of};
ghost use Rattle.md_script.specs.Pasts.{taken_back, MayBack, AnyGraph, HasApplied};

use crate::{EditReason, Edits, HistoryOf, again, apply, inverse, reason, take_back};
use md_graph::GraphOf;

/// Applies the edits of a group one after the other, up to the first with a reason against it: of
/// that its number, counted from 1, and the reason. What takes the others back is pushed to the
/// history. It takes no memory. Conditions: the last item of the history has no edits, there is
/// room for the edits, and their names are below `64 * W`.
pub fn apply_all<const W: usize>(
    graph: &mut GraphOf<W>,
    edits: &Edits,
    history: &mut HistoryOf<W>,
) -> Option<(u64, EditReason)>
    requires names { All (HasNamesBelow (64 * W)) edits.now }
    requires item { (others : List (List Edit)) × (history.old.items ≡ [] ∷ others) }
    requires room { length edits.now ≤ history.old.spare }
    ensures applied { IfNone result ((others : List (List Edit)) →
        history.old.items ≡ [] ∷ others → (back : List Edit) ×
        HasApplied AnyGraph graph.old edits.now graph.new back (length edits.now) ×
        (history.new.items ≡ back ∷ others)) }
    ensures refused { IfSome result (λ told. (others : List (List Edit)) →
        history.old.items ≡ [] ∷ others → (n : ℕ) × (edit : Edit) × (back : List Edit) ×
        (told.0 ≡ n + 1) × (slice_get edits.now n ≡ Some edit) ×
        (reason_of graph.new edit ≡ Some told.1) ×
        HasApplied AnyGraph graph.old edits.now graph.new back n ×
        (history.new.items ≡ back ∷ others)) }
{
    for i in 0..edits.len() {
        let edit = edits.get(i);
        if let Some(found) = reason(graph, edit) {
            return Some((i + 1, found));
        }
        history.push(inverse(graph, edit));
        apply(graph, edit);
    }
    None
}

/// Takes the last item of a history back, and off it. It takes no memory. Condition: an item
/// stands, and its edits can be taken back, the last one first.
pub fn take_item_back<const W: usize>(graph: &mut GraphOf<W>, history: &mut HistoryOf<W>)
    requires { (last : List Edit) × (others : List (List Edit)) ×
        (history.old.items ≡ last ∷ others) × MayBack (64 * W) AnyGraph graph.old last }
    ensures graph { (last : List Edit) (others : List (List Edit)) →
        history.old.items ≡ last ∷ others → graph.new ≡ taken_back graph.old last }
    ensures items { (last : List Edit) (others : List (List Edit)) →
        history.old.items ≡ last ∷ others → history.new.items ≡ others }
    ensures spare { history.old.spare ≤ history.new.spare }
{
    while let Some(past) = history.pop() {
        take_back(graph, &past);
    }
    history.drop_item();
}

/// Takes the last item of a history back, which stays; `redo` then has one item, which gives the
/// graph again once it is taken back. It takes no memory. Conditions: an item stands, its edits can
/// be taken back, the last one first, `redo` has one item, without edits, and there is room in it
/// for as many.
pub fn back_through<const W: usize>(
    graph: &mut GraphOf<W>,
    history: &HistoryOf<W>,
    redo: &mut HistoryOf<W>,
)
    requires item { (last : List Edit) × (others : List (List Edit)) ×
        (history.now.items ≡ last ∷ others) × MayBack (64 * W) AnyGraph graph.old last
        × (length last ≤ redo.old.spare) }
    requires redo { redo.old.items ≡ [] ∷ [] }
    ensures graph { (last : List Edit) (others : List (List Edit)) →
        history.now.items ≡ last ∷ others → graph.new ≡ taken_back graph.old last }
    ensures again { (edits : List Edit) × (redo.new.items ≡ edits ∷ []) ×
        MayBack (64 * W) AnyGraph graph.new edits × (taken_back graph.new edits ≡ graph.old) }
{
    let mut left = history.last_len();
    while left > 0 {
        left -= 1;
        let past = history.last_edit(left);
        redo.push(again(graph, &past));
        take_back(graph, &past);
    }
}
