//! Drafts of scripts.
ghost use Rattle.std.specs.Prelude.{◌≡◌, [], None, OnOk};
ghost use Rattle.md_script.specs.declared.token.Token.TheVariants as tokens;
ghost use Rattle.md_script.specs.Edit.{HasNames};
ghost use Rattle.md_script.specs.Drafts.{HasTokenNames, MayStand, draft_seen, with_edit, with_token, with_group_closed};

use crate::token::Token;
use crate::{Edit, Edits, Item, Script};
use md_graph::Memory;
use std::alloc::Global;
use std::marker::Model;

// What the lines read so far spell: items, and behind them the edits of a group that isn't closed.
#[derive(Drop)]
pub(crate) struct Draft {
    items: Vec<Item>,
    // The edits of the group.
    group: Option<Vec<Edit>>,
    // How many of the lines count.
    counted: u64,
}

impl Model for Draft {
    ghost use Rattle.std.specs.Prelude.{List, Option};
    ghost use Rattle.md_script.specs.declared.edit.Edit.{Edit};
    ghost use Rattle.md_script.specs.declared.item.Item.{Item};

    ghost Value = { List Item × Option (List Edit) };

    ghost use Rattle.std.specs.Prelude.{◌≡◌, option_map};
    ghost use Rattle.md_script.specs.Drafts.{IsDraft, draft_seen};

    ghost view = { λ d. (d.items.items, option_map (λ v. v.items) d.group) };

    ghost invariant = { λ d. IsDraft (d.items.items, option_map (λ v. v.items) d.group)
        × (d.counted ≡ (draft_seen (d.items.items, option_map (λ v. v.items) d.group)).counted) };
}

impl Draft {
    // No line is read.
    pub(crate) fn new(alloc: Global) -> Draft
        ensures { result ≡ ([], None) }
    {
        Draft {
            items: Vec::new(alloc),
            group: None,
            counted: 0,
        }
    }

    // How many of the lines count.
    pub(crate) fn count(&self) -> u64
        ensures { result ≡ (draft_seen self.now).counted }
    {
        self.counted
    }

    // Whether a group is open.
    pub(crate) fn is_open(&self) -> bool
        ensures { result ≡ (draft_seen self.now).inside }
    {
        self.group.is_some()
    }

    // Puts a token behind the others. Conditions: its names are names, and it may stand there.
    // Errors: want of memory.
    pub(crate) fn put(&mut self, alloc: Global, token: Token) -> Result<(), Memory>
        requires names { HasTokenNames token }
        requires stands { MayStand (draft_seen self.old) token }
        ensures { OnOk result (self.new ≡ with_token self.old token) }
    {
        match token {
            Token::Edit(edit) => self.put_edit(edit),
            Token::Undo => self.put_undo(),
            Token::Begin => {
                self.open_group(alloc);
                Ok(())
            }
            Token::Commit => self.close_group(),
        }
    }

    // Puts an edit behind the others. Conditions: its names are names, and it may stand there.
    fn put_edit(&mut self, edit: Edit) -> Result<(), Memory>
        requires names { HasNames edit }
        requires stands { MayStand (draft_seen self.old) (tokens.Edit edit) }
        ensures { OnOk result (self.new ≡ with_edit self.old edit) }
    {
        match &mut self.group {
            Some(edits) => edits.push(edit)?,
            None => self.items.push(Item::One(edit))?,
        }
        self.counted += 1;
        Ok(())
    }

    // Puts an undo behind the others. Condition: it may stand there.
    fn put_undo(&mut self) -> Result<(), Memory>
        requires { MayStand (draft_seen self.old) tokens.Undo }
        ensures { OnOk result (self.new ≡ with_token self.old tokens.Undo) }
    {
        self.items.push(Item::Undo)?;
        self.counted += 1;
        Ok(())
    }

    // Begins a group. Condition: it may stand there.
    fn open_group(&mut self, alloc: Global)
        requires { MayStand (draft_seen self.old) tokens.Begin }
        ensures { self.new ≡ with_token self.old tokens.Begin }
    {
        self.group = Some(Vec::new(alloc));
        self.counted += 1;
    }

    // Ends the group. Condition: one is open.
    fn close_group(&mut self) -> Result<(), Memory>
        requires { MayStand (draft_seen self.old) tokens.Commit }
        ensures { OnOk result (self.new ≡ with_group_closed self.old) }
    {
        self.items.reserve(1)?;
        if let Some(edits) = self.group.take() {
            let group = Item::Group(Edits::from_list(edits));
            self.items.push_reserved(group);
        }
        Ok(())
    }

    // The script, where no group is open.
    pub(crate) fn into_script(self) -> Script
        requires { self.1 ≡ None }
        ensures { result ≡ self.0 }
    {
        Script::from_list(self.items)
    }
}
