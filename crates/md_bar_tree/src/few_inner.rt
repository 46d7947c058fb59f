//! Whether a tree has few inner children, told from its outline.
ghost use Rattle.std.specs.Prelude.{◌≡◌, ◌↔◌, ◌<◌, List, ◌∷◌, length, vec_capacity, Option, IsTrue, IfOk, OnOk};
ghost use Rattle.md_tree.specs.declared.Kind.{Kind};
ghost use Rattle.md_tree.specs.Trees.{PlainTree, PlainTrees, one_more};
ghost use Rattle.md_outline.specs.declared.outline.OutlinePart.{OutlinePart};
ghost use Rattle.md_outline.specs.Outlines.{outline_option};
ghost use Rattle.md_bar_tree.specs.Inner.{IsInnerTree, HasOneInner, IsNarrow, HasFewInnerIn};
ghost use Rattle.md_bar_tree.specs.InnerRows.{MayBe, MayBeIn, with_row, AreComing, HasGoneOn};

use crate::Class;
use md_graph::Memory;
use md_outline::OutlinePart;
use md_tree::Kind;
use std::alloc::Global;

// Of the children of a node that are still to come this many may be inner, no leaves.
#[derive(Clone, Copy, Drop)]
enum InnerRoom {
    Any,
    One,
    NoMore,
}

// Children of a node that are still to come: how many there are behind the next one, and how many
// of them may be inner.
#[derive(Clone, Copy, Drop)]
struct Row {
    room: InnerRoom,
    behind: u32,
}

/// Whether each series node of the tree with this outline, and for threshold graphs each parallel
/// node, has at most one child that is no leaf; or there is no tree. No call nests as deep as the
/// tree. Errors: want of memory.
pub fn has_few_inner(
    alloc: Global,
    parts: &[OutlinePart<Kind>],
    class: Class,
) -> Result<bool, Memory>
    ensures exactly { IfOk result (λ few. (o : Option PlainTree) → parts.now ≡ outline_option o
        → IsTrue few ↔ HasFewInnerIn class o) }
{
    // A stack of the rows of children that are still to come.
    let mut rows = Vec::new(alloc);
    push_row(&mut rows, InnerRoom::Any, 1)?;
    for part in parts {
        if !take_part(&mut rows, *part, class)? {
            return Ok(false);
        }
    }
    Ok(true)
}

// Takes the next part of an outline as the next child of the last row, and whether that has room
// for it. The children of the part are the last row then.
fn take_part(rows: &mut Vec<Row>, part: OutlinePart<Kind>, class: Class) -> Result<bool, Memory>
    ensures { IfOk result (λ may. (t : PlainTree) (others : List (OutlinePart Kind))
        → AreComing class t (part ∷ others) rows.old.items
        → HasGoneOn may class t others rows.new.items) }
{
    let Some(row) = rows.pop() else {
        return Ok(true);
    };
    match part {
        OutlinePart::Name(_) => put_back(rows, row.room, row.behind),
        OutlinePart::Node(kind, count) => {
            let Some(room) = room_behind(row.room) else {
                return Ok(false);
            };
            put_back(rows, room, row.behind);
            push_row(rows, room_of(class, kind), count)?;
        }
    }
    Ok(true)
}

// Puts what is left of a row back in its place, if any of its children are left.
fn put_back(rows: &mut Vec<Row>, room: InnerRoom, left: u32)
    requires { length rows.old.items < vec_capacity rows.old }
    ensures { rows.new.items ≡ with_row rows.old.items room left }
{
    if left == 0 {
        return;
    }
    rows.push_reserved(Row {
        room,
        behind: left - 1,
    });
}

// Puts a row of so many children behind the others, if there are any.
fn push_row(rows: &mut Vec<Row>, room: InnerRoom, left: u32) -> Result<(), Memory>
    ensures { OnOk result (rows.new.items ≡ with_row rows.old.items room left) }
{
    if left == 0 {
        return Ok(());
    }
    rows.push(Row {
        room,
        behind: left - 1,
    })?;
    Ok(())
}

// How many children may be inner behind an inner one; none where that has no room.
fn room_behind(room: InnerRoom) -> Option<InnerRoom>
    ensures { (t : PlainTree) (ts : PlainTrees) → IsInnerTree t
        → MayBe room (one_more t ts) ↔ MayBeIn result ts }
{
    match room {
        InnerRoom::Any => Some(InnerRoom::Any),
        InnerRoom::One => Some(InnerRoom::NoMore),
        InnerRoom::NoMore => None,
    }
}

// How many children of a node may be inner.
fn room_of(class: Class, kind: Kind) -> InnerRoom
    ensures { (cs : PlainTrees) → MayBe result cs ↔ (IsNarrow class kind → HasOneInner cs) }
{
    match kind {
        Kind::Series => InnerRoom::One,
        Kind::Prime => InnerRoom::Any,
        Kind::Parallel => match class {
            Class::Threshold => InnerRoom::One,
            Class::Trivial => InnerRoom::Any,
        },
    }
}
