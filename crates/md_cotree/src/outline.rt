//! The outline of the tree of a cotree, made on a stack of entries without a tree.
ghost use Rattle.std.specs.Prelude.{◌≡◌, ◌<◌, ◌≤◌, ◌^◌, ℕ, List, ◌++◌, length, IfOk};
ghost use Rattle.md_graph.specs.PlainGraph.{PlainGraph, adjacent};
ghost use Rattle.md_lists.specs.Links.{IsLive, AreLinks};
ghost use Rattle.md_outline.specs.Outlines.{outline_option};
ghost use Rattle.md_tree.specs.StrongTrees.{IsTree};
ghost use Rattle.md_tree.specs.Trees.{PlainTree};
ghost use Rattle.md_cotree.specs.Cotrees.{IsSoundCotree, Denotes};
ghost use Rattle.md_cotree.specs.Entries.{below_part, FitsIn, table_trees, entry_least, AreEntryTrees, IsNodeEntryPut, IsEntryPut, stack_outline, IsOutlineAt};
ghost use Rattle.md_cotree.specs.Orders.{part_at, HasTree, AreFalling, HasBelow};

use crate::Cotree;
use crate::ordering::places;
use md_graph::{Memory, Steps};
use md_lists::{Lists, PlaceKind};
use md_outline::OutlinePart;
use md_tree::Kind;
use std::alloc::Global;
use std::marker::Brand;
use std::sync::ledger::{Blank, Ledger};

// The part of a tree with its least name. The entries of a node's children lie in a table, in
// descending order of their least names, and `first` is the place of the first of these.
#[derive(Clone, Copy)]
struct Entry {
    least: u32,
    part: OutlinePart<Kind>,
    first: u32,
}

impl Cotree {
    ghost use Rattle.std.specs.Prelude.{Option};

    /// The outline of the tree of strong modules of the graph that the cotree denotes, without
    /// parts exactly where that has no vertices: each node before those below it, and children in
    /// ascending order of their least names. No tree is built, and no call nests as deep as the
    /// tree. Condition: the cotree is sound. Errors: want of memory.
    pub fn outline(&self, alloc: Global) -> Result<Vec<OutlinePart<Kind>>, Memory>
        requires sound { IsSoundCotree self.now }
        ensures outline { IfOk result (λ parts. (g : PlainGraph) → Denotes self.now g →
            (t : Option PlainTree) × IsTree (adjacent g) g.vertices t
            × (parts.items ≡ outline_option t)) }
    {
        let _spare = self.lists.spare();
        match self.root {
            Some(root) => outline_at::<Brand>(alloc, &self.lists, root, Blank::new(1)),
            None => Ok(Vec::new(alloc)),
        }
    }
}

// The outline of the tree that stands at a place, with its children in order.
fn outline_at<L: Ledger>(
    alloc: Global,
    lists: &Lists,
    root: u32,
    blank: Blank,
) -> Result<Vec<OutlinePart<Kind>>, Memory>
    requires name { blank.name ≡ L.name }
    requires parts { blank.parts ≡ L.parts }
    requires some { 0 < blank.parts }
    requires links { AreLinks lists.now }
    requires stands { HasTree lists.now root }
    ensures { IfOk result (λ parts. IsOutlineAt lists.now root parts.items) }
{
    let mut steps = Steps::<L>::new(blank);
    let mut places = places(alloc, lists, root, &mut steps)?;
    let mut table = Vec::with_capacity(alloc, places.len())?;
    let mut stack = Vec::new(alloc);
    while let Some(place) = places.pop() {
        put_entry(lists, place, &mut stack, &mut table, &mut steps)?;
    }
    outline_of_stack(alloc, stack, &table)
}

// The entry of a place comes on top of the stack, in place of those of its children, which come
// into the table.
fn put_entry<L: Ledger>(
    lists: &Lists,
    place: u32,
    stack: &mut Vec<Entry>,
    table: &mut Vec<Entry>,
    steps: &mut Steps<L>,
) -> Result<(), Memory>
    requires live { IsLive lists.now place }
    requires below { HasBelow (part_at lists.now place) stack.old.items }
    requires room { length table.old.items < 2 ^ 32 }
    ensures { IfOk result (λ _. IsEntryPut (part_at lists.now place)
        stack.old.items table.old.items stack.new.items table.new.items) }
{
    match lists.kind(place, steps) {
        PlaceKind::Leaf(name) => {
            stack.push(Entry {
                least: name,
                part: OutlinePart::Name(name),
                first: 0,
            })?;
            Ok(())
        }
        PlaceKind::Parallel => put_node_entry(
            Kind::Parallel,
            lists.child_count(place, steps),
            stack,
            table,
        ),
        PlaceKind::Series => {
            put_node_entry(Kind::Series, lists.child_count(place, steps), stack, table)
        }
    }
}

// The entry of a node comes on top of the stack in place of the last entries there, which come into
// the table in order.
fn put_node_entry(
    kind: Kind,
    count: u32,
    stack: &mut Vec<Entry>,
    table: &mut Vec<Entry>,
) -> Result<(), Memory>
    requires some { 0 < count }
    requires count { count ≤ length stack.old.items }
    requires room { length table.old.items < 2 ^ 32 }
    ensures { IfOk result (λ _. IsNodeEntryPut kind count
        stack.old.items table.old.items stack.new.items table.new.items) }
{
    let below = stack.len() - count as usize;
    arrange_entries(stack, below);
    let least = stack[stack.len() - 1].least;
    let first = table.len() as u32;
    table.extend_from_slice(&stack[below..])?;
    stack.truncate(below);
    stack.push(Entry {
        least,
        part: OutlinePart::Node(kind, count),
        first,
    })?;
    Ok(())
}

// Puts the entries from `below` on in descending order of their least names, the least on top.
fn arrange_entries(stack: &mut Vec<Entry>, below: usize)
    requires { below ≤ length stack.old.items }
    ensures { AreFalling entry_least below stack.old.items stack.new.items }
{
    let (_, children) = stack.as_mut_slice().split_at_mut(below);
    children.sort_unstable_by_key(|child| child.least);
    children.reverse();
}

// The outlines of the trees on a stack, from the last to the first: a part each turn, and the first
// of its children next.
fn outline_of_stack(
    alloc: Global,
    stack: Vec<Entry>,
    table: &[Entry],
) -> Result<Vec<OutlinePart<Kind>>, Memory>
    requires { AreEntryTrees (table_trees table.now) table.now stack.items }
    ensures { IfOk result (λ parts.
        parts.items ≡ stack_outline (table_trees table.now) stack.items) }
{
    let mut waiting = stack;
    let mut parts = Vec::with_capacity(alloc, table.len() + 1)?;
    while let Some(next) = waiting.pop() {
        parts.push(next.part)?;
        push_entries_below(next, table, &mut waiting)?;
    }
    Ok(parts)
}

// Appends the entries of the children of an entry.
fn push_entries_below(entry: Entry, table: &[Entry], waiting: &mut Vec<Entry>) -> Result<(), Memory>
    requires { FitsIn (length table.now) entry }
    ensures { IfOk result (λ _. waiting.new.items
        ≡ waiting.old.items ++ below_part entry.part entry.first table.now) }
{
    match entry.part {
        OutlinePart::Name(_) => Ok(()),
        OutlinePart::Node(_, count) => {
            let first = entry.first as usize;
            waiting.extend_from_slice(&table[first..first + count as usize])?;
            Ok(())
        }
    }
}
