//! The least numbers above names.
ghost use Rattle.std.specs.Prelude.{◌≡◌, ◌<◌, ◌≤◌, ℕ};
ghost use Rattle.std.specs.List.{All};
ghost use Rattle.md_graph.specs.declared.TheConstants.{NAMES};
ghost use Rattle.md_script.specs.Edit.{HasNames, HasNamesBelow};
ghost use Rattle.md_script.specs.Items.{HasItemNamesBelow, IsScriptItem};

use crate::{Edit, Item};

// The least number above every name in the items. Condition: their names are names.
pub(crate) fn items_bound(items: &[Item]) -> u32
    requires { All (IsScriptItem NAMES) items.now }
    ensures below { All (HasItemNamesBelow result) items.now }
    ensures least { (limit : ℕ) → All (HasItemNamesBelow limit) items.now → result ≤ limit }
{
    let mut bound = 0;
    for item in items {
        bound = item_bound(item).max(bound);
    }
    bound
}

// The least number above every name in the item. Condition: its names are names.
fn item_bound(item: &Item) -> u32
    requires { IsScriptItem NAMES item.now }
    ensures below { HasItemNamesBelow result item.now }
    ensures least { (limit : ℕ) → HasItemNamesBelow limit item.now → result ≤ limit }
{
    match item {
        Item::One(edit) => edit_bound(edit),
        Item::Undo => 0,
        Item::Group(edits) => edits.bound(),
    }
}

// The least number above every name in the edits. Condition: their names are names.
pub(crate) fn edits_bound(edits: &[Edit]) -> u32
    requires { All HasNames edits.now }
    ensures below { All (HasNamesBelow result) edits.now }
    ensures least { (limit : ℕ) → All (HasNamesBelow limit) edits.now → result ≤ limit }
{
    let mut bound = 0;
    for edit in edits {
        bound = edit_bound(edit).max(bound);
    }
    bound
}

// The least number above every name in the edit. Condition: its names are names.
fn edit_bound(edit: &Edit) -> u32
    requires { HasNames edit.now }
    ensures below { HasNamesBelow result edit.now }
    ensures least { (limit : ℕ) → HasNamesBelow limit edit.now → result ≤ limit }
{
    match edit {
        Edit::AddEdge { u, v } => (*u).max(*v) + 1,
        Edit::DelEdge { u, v } => (*u).max(*v) + 1,
        Edit::AddVertex { x, neighbours } => neighbours.bound().max(*x + 1),
        Edit::DelVertex { x } => *x + 1,
    }
}
