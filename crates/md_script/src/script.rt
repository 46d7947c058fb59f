//! Scripts.
ghost use Rattle.std.specs.Prelude.{◌≡◌, ◌<◌, ◌≤◌, ℕ, length, slice_get, Some};
ghost use Rattle.std.specs.List.{All, count_by, sum_by};
ghost use Rattle.md_graph.specs.declared.TheConstants.{NAMES};
ghost use Rattle.md_script.specs.Items.{HasItemNamesBelow, IsScriptItem, is_undo, item_size};

use crate::bounds::items_bound;
use crate::{EDITS, Item};
use std::marker::Model;

/// A list of items, whose names are below `NAMES`.
#[derive(Debug, Drop)]
pub struct Script {
    items: Vec<Item>,
}

impl Model for Script {
    ghost use Rattle.std.specs.Prelude.{ℕ, List, ◌≤◌};
    ghost use Rattle.md_script.specs.declared.item.Item.{Item};

    ghost Value = { List Item };

    ghost use Rattle.std.specs.List.{All, sum_by};
    ghost use Rattle.md_graph.specs.declared.TheConstants.{NAMES};
    ghost use Rattle.md_script.specs.Items.{IsScriptItem, item_size};
    ghost use Rattle.md_script.specs.declared.TheConstants.{EDITS};

    ghost view = { λ s. s.items.items };

    ghost invariant = { λ s. All (IsScriptItem NAMES) s.items.items
        × (sum_by item_size s.items.items ≤ EDITS) };
}

impl Script {
    // The script of these items. Condition: their names are names, and they aren't too many.
    pub(crate) fn from_list(items: Vec<Item>) -> Script
        requires items { All (IsScriptItem NAMES) items.items }
        requires few { sum_by item_size items.items ≤ EDITS }
        ensures { result ≡ items.items }
    {
        Script { items }
    }

    /// The number of items.
    pub fn len(&self) -> u64
        ensures count { result ≡ length self.now }
        ensures few { length self.now ≤ EDITS }
    {
        self.items.len() as u64
    }

    /// The least number above every name in the items: 0 where they have none.
    pub fn bound(&self) -> u32
        ensures below { All (HasItemNamesBelow result) self.now }
        ensures least { (limit : ℕ) → All (HasItemNamesBelow limit) self.now → result ≤ limit }
    {
        items_bound(&self.items)
    }

    /// How many of the items are undos.
    pub fn undos(&self) -> u64
        ensures { result ≡ count_by is_undo self.now }
    {
        undos_in(&self.items)
    }

    /// The item at a place, counted from 0. Condition: there are more.
    pub fn get(&self, i: u64) -> &Item
        requires { i < length self.now }
        ensures item { slice_get self.now i ≡ Some result.now }
        ensures whole { IsScriptItem NAMES result.now }
    {
        &self.items[i as usize]
    }
}

// How many of the items are undos.
fn undos_in(items: &[Item]) -> u64
    ensures { result ≡ count_by is_undo items.now }
{
    let mut count = 0;
    for item in items {
        if let Item::Undo = item {
            count += 1;
        }
    }
    count
}
