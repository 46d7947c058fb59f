//! Items of scripts.
ghost use Rattle.std.specs.Prelude.{◌≡◌, ◌<◌, ◌≤◌, ℕ, length, vec_len, slice_get, Some};
ghost use Rattle.std.specs.List.{All};
ghost use Rattle.md_script.specs.Edit.{HasNames, HasNamesBelow};
ghost use Rattle.md_script.specs.Items.{room_for};

use crate::bounds::edits_bound;
use crate::{EDITS, Edit};
use std::marker::Model;

/// What a line of a script asks for, or the lines of a group.
#[derive(Debug, Drop)]
pub enum Item {
    /// This edit.
    One(Edit),
    /// That the last item that was applied is taken back.
    Undo,
    /// All of these edits, one after the other, or none of them.
    Group(Edits),
}

impl Item {
    /// For how many edits and items a history needs room before the item.
    pub fn room(&self) -> u64
        ensures room { result ≡ room_for self.now }
    {
        match self {
            Item::One(_) => 2,
            Item::Undo => 0,
            Item::Group(edits) => edits.len() + 1,
        }
    }
}

/// The edits of a group, whose names are below `NAMES`.
#[derive(Debug, Drop)]
pub struct Edits {
    list: Vec<Edit>,
}

impl Model for Edits {
    ghost use Rattle.std.specs.Prelude.{ℕ, List, ◌≤◌, length};
    ghost use Rattle.md_script.specs.declared.edit.Edit.{Edit};

    ghost Value = { List Edit };

    ghost use Rattle.std.specs.List.{All};
    ghost use Rattle.md_script.specs.Edit.{HasNames};
    ghost use Rattle.md_script.specs.declared.TheConstants.{EDITS};

    ghost view = { λ e. e.list.items };

    ghost invariant = { λ e. (All HasNames e.list.items) × (length e.list.items ≤ EDITS) };
}

impl Edits {
    // The edits of a group. Condition: their names are names, and they aren't too many.
    pub(crate) fn from_list(list: Vec<Edit>) -> Edits
        requires names { All HasNames list.items }
        requires few { vec_len list ≤ EDITS }
        ensures { result ≡ list.items }
    {
        Edits { list }
    }

    // The least number above every name in the edits: 0 where they have none.
    pub(crate) fn bound(&self) -> u32
        ensures below { All (HasNamesBelow result) self.now }
        ensures least { (limit : ℕ) → All (HasNamesBelow limit) self.now → result ≤ limit }
    {
        edits_bound(&self.list)
    }

    /// The number of edits.
    pub fn len(&self) -> u64
        ensures count { result ≡ length self.now }
        ensures few { length self.now ≤ EDITS }
    {
        self.list.len() as u64
    }

    /// The edit at a place, counted from 0. Condition: there are more.
    pub fn get(&self, i: u64) -> &Edit
        requires { i < length self.now }
        ensures edit { slice_get self.now i ≡ Some result.now }
        ensures names { HasNames result.now }
    {
        &self.list[i as usize]
    }
}
