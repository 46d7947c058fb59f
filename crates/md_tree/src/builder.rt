//! Builds the tree whose text is read, and gives up where the text is no well-formed tree's. Two
//! other machines go over the same texts: `grammar` says where a text leaves their grammar, and
//! md_checker's `text_fit` compares a text with a graph; neither builds anything.
ghost use Rattle.std.specs.Prelude.{◌≡◌, ◌≢◌, ◌<◌, ◌≤◌, ◌↔◌, ◌⊎◌, ◌+◌, ◌*◌, ℕ, List, true, false, [], ◌∷◌, ◌++◌, length, take, drop, vec_len, vec_capacity, map, IfOk, OnOk, MatchOption, IsTrue, Some};
ghost use Rattle.md_graph.specs.declared.TheConstants.{WORDS};
ghost use Rattle.md_tree.specs.declared.TreeOf.{TreeOf};
ghost use Rattle.md_tree.specs.Plain.{plain};
ghost use Rattle.md_tree.specs.Trees.{node, row};
ghost use Rattle.md_tree.specs.Spellings.{spelling};
ghost use Rattle.md_tree.specs.TreeTexts.{tree_text_by};
ghost use Rattle.md_tree.specs.WellFormed.{IsWellFormedBelow, IsOfKind};
ghost use Rattle.md_text.specs.Fronts.{LacksFirst, IsNumberSplit};
ghost use Rattle.md_tree.specs.Held.{HasBuilt, HasBuiltInside, HasReadTree, EndsNode, IsBuildStep, AreUseless, Ascends, AscendsIf, IsMinimum, MayHave, HasOthersIf, trees_held};

use crate::grammar::split_letter;
use crate::growing::append;
use crate::pair_reader::read_end;
use crate::{ChildrenOf, Lettered, Paired, PairsOf, TreeOf};
use md_graph::{Memory, Set};
use md_text::{skip_byte, small_number};
use std::alloc::Global;
use std::mem;

/// A node of which a part is read: its kind, and how many trees stand before its first child.
#[derive(Clone, Copy)]
pub struct Opened<K> {
    pub kind: K,
    pub first: u32,
}

// The trees that are read, with their least names, the nodes that are open, and all names.
#[derive(Drop)]
struct Held<K: Drop, P: Drop, const W: usize> {
    trees: Vec<TreeOf<K, P>>,
    least: Vec<u32>,
    opens: Vec<Opened<K>>,
    seen: Set<W>,
}

// What a step comes to: what is left, where a tree is due; or the end of the text; or that the text
// is no well-formed tree's.
#[derive(Clone, Copy)]
enum Step<'a> {
    Onward(&'a [u8]),
    Useless,
    End,
}

// The tree with this text that is well-formed below `64 * W`; none if there is no such tree. No
// call nests as deep as the tree. Condition: `W` is at most `WORDS`. Errors: out of memory.
pub(crate) fn tree_of_text<K: Lettered, P: Paired, const W: usize>(
    alloc: Global,
    bytes: &[u8],
) -> Result<Option<TreeOf<K, P>>, Memory>
    requires { W ≤ WORDS }
    ensures { IfOk result (λ o.
        MatchOption o (AreUseless (spelling K.rules P.rules) (64 * W) bytes.now)
        (λ t. IsWellFormedBelow (spelling K.rules P.rules) (64 * W) (Some (plain t))
        × (bytes.now ≡ tree_text_by (spelling K.rules P.rules) (plain t)))) }
{
    let room = (bytes.len() / 4).min(64 * W);
    let mut held = Held {
        trees: Vec::with_capacity(alloc, room)?,
        least: Vec::with_capacity(alloc, room)?,
        opens: Vec::with_capacity(alloc, room)?,
        seen: Set::<W>::none(),
    };
    let mut rest = bytes;
    loop {
        match take_step(alloc, rest, &mut held)? {
            Step::Onward(tail) => rest = tail,
            Step::Useless => return Ok(None),
            Step::End => return Ok(held.trees.pop()),
        }
    }
}

// Where a tree is due: a name, and the ends of nodes behind it; or the beginning of a node.
#[inline(always)]
fn take_step<'a, K: Lettered, P: Paired, const W: usize>(
    alloc: Global,
    text: &'a [u8],
    held: &mut Held<K, P, W>,
) -> Result<Step<'a>, Memory>
    requires { (bytes : List ℕ)
        × HasBuilt (spelling K.rules P.rules) bytes text.now false held.old }
    ensures { IfOk result (λ step. (bytes : List ℕ)
        → HasBuilt (spelling K.rules P.rules) bytes text.now false held.old
        → IsBuildStep (spelling K.rules P.rules) bytes text.now step held.new) }
{
    held.seen.within_limit();
    if let Some((name, tail)) = small_number(text) {
        return step_name(alloc, text, name, tail, held);
    }
    match split_letter(text) {
        Some((kind, behind)) => begin_node(text, kind, behind, held),
        None => Ok(Step::Useless),
    }
}

// A name, and the ends of nodes behind it.
#[inline(always)]
fn step_name<'a, K: Lettered, P: Paired, const W: usize>(
    alloc: Global,
    text: &'a [u8],
    name: u32,
    tail: &'a [u8],
    held: &mut Held<K, P, W>,
) -> Result<Step<'a>, Memory>
    requires built { (bytes : List ℕ)
        × HasBuilt (spelling K.rules P.rules) bytes text.now false held.old }
    requires name { IsNumberSplit text.now name tail.now }
    ensures { IfOk result (λ step. (bytes : List ℕ)
        → HasBuilt (spelling K.rules P.rules) bytes text.now false held.old
        → IsBuildStep (spelling K.rules P.rules) bytes text.now step held.new) }
{
    match take_name(text, name, tail, held)? {
        Some(behind) => end_nodes(alloc, behind, held),
        None => Ok(Step::Useless),
    }
}

// Past a name, if it is below the limit and new.
#[inline(always)]
fn take_name<'a, K: Lettered, P: Paired, const W: usize>(
    text: &'a [u8],
    name: u32,
    tail: &'a [u8],
    held: &mut Held<K, P, W>,
) -> Result<Option<&'a [u8]>, Memory>
    requires { IsNumberSplit text.now name tail.now }
    ensures { IfOk result (λ o. (bytes : List ℕ)
        → HasBuilt (spelling K.rules P.rules) bytes text.now false held.old
        → MatchOption o (AreUseless (spelling K.rules P.rules) (64 * W) bytes)
        (λ behind. HasReadTree (spelling K.rules P.rules) bytes text.now behind.now held.new)) }
{
    held.seen.within_limit();
    if name as usize >= 64 * W {
        return Ok(None);
    }
    if held.seen.has(name) {
        return Ok(None);
    }
    held.seen.insert(name);
    append(&mut held.least, name)?;
    append(&mut held.trees, TreeOf::Leaf(name))?;
    Ok(Some(tail))
}

// The letter of a node is read. In the text of a well-formed tree fewer nodes are open than there
// are names.
#[inline(always)]
fn begin_node<'a, K: Lettered, P: Paired, const W: usize>(
    text: &'a [u8],
    kind: K,
    behind: &'a [u8],
    held: &mut Held<K, P, W>,
) -> Result<Step<'a>, Memory>
    requires built { (bytes : List ℕ)
        × HasBuilt (spelling K.rules P.rules) bytes text.now false held.old }
    requires letter { text.now ≡ K.rules.letter kind ∷ behind.now }
    ensures { IfOk result (λ step. (bytes : List ℕ)
        → HasBuilt (spelling K.rules P.rules) bytes text.now false held.old
        → IsBuildStep (spelling K.rules P.rules) bytes text.now step held.new) }
{
    held.seen.within_limit();
    if held.opens.len() >= 64 * W {
        return Ok(Step::Useless);
    }
    match skip_byte(behind, b'(') {
        Ok(tail) => {
            let first = held.trees.len() as u32;
            append(&mut held.opens, Opened { kind, first })?;
            Ok(Step::Onward(tail))
        }
        Err(_) => Ok(Step::Useless),
    }
}

// Behind a tree: the ends of nodes, as long as they follow; then a comma or the end of the text.
#[inline(always)]
fn end_nodes<'a, K: Lettered, P: Paired, const W: usize>(
    alloc: Global,
    text: &'a [u8],
    held: &mut Held<K, P, W>,
) -> Result<Step<'a>, Memory>
    requires { (bytes : List ℕ)
        × HasBuilt (spelling K.rules P.rules) bytes text.now true held.old }
    ensures { IfOk result (λ step. (bytes : List ℕ)
        → HasBuilt (spelling K.rules P.rules) bytes text.now true held.old
        → IsBuildStep (spelling K.rules P.rules) bytes text.now step held.new) }
{
    let mut rest = text;
    loop {
        let Some((first, behind)) = rest.split_first() else {
            return Ok(step_at_end(rest, held));
        };
        if *first == b',' {
            return Ok(step_comma(rest, behind, held));
        }
        let Some(inner) = held.opens.pop() else {
            return Ok(Step::Useless);
        };
        let Some(tail) = end_node(alloc, rest, inner, held)? else {
            return Ok(Step::Useless);
        };
        rest = tail;
    }
}

// A comma, behind which a tree is due.
#[inline(always)]
fn step_comma<'a, K: Lettered, P: Paired, const W: usize>(
    text: &'a [u8],
    tail: &'a [u8],
    held: &Held<K, P, W>,
) -> Step<'a>
    requires { text.now ≡ 44 ∷ tail.now }
    ensures { (bytes : List ℕ)
        → HasBuilt (spelling K.rules P.rules) bytes text.now true held.now
        → IsBuildStep (spelling K.rules P.rules) bytes text.now result held.now }
{
    if held.opens.is_empty() {
        return Step::Useless;
    }
    Step::Onward(tail)
}

// The end of the text, where no node may be open.
#[inline(always)]
fn step_at_end<'a, K: Lettered, P: Paired, const W: usize>(
    text: &'a [u8],
    held: &Held<K, P, W>,
) -> Step<'a>
    requires { text.now ≡ [] }
    ensures { (bytes : List ℕ)
        → HasBuilt (spelling K.rules P.rules) bytes text.now true held.now
        → IsBuildStep (spelling K.rules P.rules) bytes text.now result held.now }
{
    if held.opens.is_empty() {
        return Step::End;
    }
    Step::Useless
}

// The end of a node: its children have to be such as its kind asks, and in order.
#[inline(always)]
fn end_node<'a, K: Lettered, P: Paired, const W: usize>(
    alloc: Global,
    text: &'a [u8],
    inner: Opened<K>,
    held: &mut Held<K, P, W>,
) -> Result<Option<&'a [u8]>, Memory>
    requires inside { (bytes : List ℕ)
        × HasBuiltInside (spelling K.rules P.rules) bytes text.now inner held.old }
    requires no_comma { LacksFirst 44 text.now }
    ensures { IfOk result (λ o.
        EndsNode (spelling K.rules P.rules) text.now inner held.old o held.new) }
{
    held.seen.within_limit();
    let first = inner.first as usize;
    if !may_have(inner.kind, &held.trees[first..], &held.least[first..]) {
        return Ok(None);
    }
    let outermost = held.opens.is_empty();
    let list = take_from(alloc, first, outermost, &mut held.trees)?;
    let Some((pairs, tail)) = read_end(alloc, text, inner.kind.lists(), list.len())? else {
        return Ok(None);
    };
    close(inner, list, pairs, held)?;
    Ok(Some(tail))
}

// A node of the trees that are taken off takes their place.
#[inline(always)]
fn close<K: Lettered, P: Paired, const W: usize>(
    inner: Opened<K>,
    list: Vec<TreeOf<K, P>>,
    pairs: Vec<P>,
    held: &mut Held<K, P, W>,
) -> Result<(), Memory>
    requires first { inner.first ≤ vec_len held.old.trees }
    requires some { inner.first < length held.old.least.items }
    requires ascends { AscendsIf (K.rules.sorts inner.kind)
        (drop inner.first held.old.least.items) }
    ensures trees { IfOk result (λ _. (all : List (TreeOf K P))
        → held.old.trees.items ≡ take inner.first all → list.items ≡ drop inner.first all
        → trees_held held.new ≡ take inner.first (map plain all)
        ++ node inner.kind (row (drop inner.first (map plain all))) pairs.items ∷ []) }
    ensures least { IfOk result (λ _. (m : ℕ)
        × IsMinimum (drop inner.first held.old.least.items) m
        × (held.new.least.items ≡ take inner.first held.old.least.items ++ m ∷ [])) }
    ensures opens { held.new.opens.items ≡ held.old.opens.items }
    ensures seen { held.new.seen ≡ held.old.seen }
{
    let node = TreeOf::Node(inner.kind, ChildrenOf { list }, PairsOf { list: pairs });
    append(&mut held.trees, node)?;
    let first = inner.first as usize;
    let least = minimum(&held.least[first..], inner.kind.sorts());
    held.least[first] = least;
    held.least.truncate(first + 1);
    Ok(())
}

// The least of some numbers, which is the first where they ascend.
#[inline(always)]
fn minimum(numbers: &[u32], ascending: bool) -> u32
    requires some { 0 < length numbers.now }
    requires ascends { AscendsIf ascending numbers.now }
    ensures { IsMinimum numbers.now result }
{
    if ascending {
        return numbers[0];
    }
    least_of(numbers)
}

// The same of numbers in any order.
fn least_of(numbers: &[u32]) -> u32
    requires { 0 < length numbers.now }
    ensures { IsMinimum numbers.now result }
{
    let mut least = numbers[0];
    for number in numbers {
        least = lesser(*number, least);
    }
    least
}

fn lesser(first: u32, second: u32) -> u32
    ensures one { (result ≡ first) ⊎ (result ≡ second) }
    ensures first { result ≤ first }
    ensures second { result ≤ second }
{
    if first < second {
        return first;
    }
    second
}

// Takes off the trees from a place on. All trees are handed over where they lie if no others come.
fn take_from<K: Drop, P: Drop>(
    alloc: Global,
    first: usize,
    outermost: bool,
    trees: &mut Vec<TreeOf<K, P>>,
) -> Result<Vec<TreeOf<K, P>>, Memory>
    requires { first ≤ vec_len trees.old }
    ensures items { IfOk result (λ _. trees.new.items ≡ take first trees.old.items) }
    ensures tail { IfOk result (λ list. list.items ≡ drop first trees.old.items) }
{
    if outermost && first == 0 {
        return Ok(mem::replace(trees, Vec::new(alloc)));
    }
    let list = trees.split_off(first)?;
    Ok(list)
}

// Whether a node of the kind may have the children, whose least names are told.
fn may_have<K: Lettered, P: Drop>(kind: K, children: &[TreeOf<K, P>], least: &[u32]) -> bool
    requires { length least.now ≡ length children.now }
    ensures { IsTrue result ↔ (MayHave K.rules kind (row (map plain children.now))
        × AscendsIf (K.rules.sorts kind) least.now) }
{
    if children.len() < kind.least_count() {
        return false;
    }
    let sorts = kind.sorts();
    if kind.lists() {
        return !sorts || ascends(least);
    }
    are_others(kind, sorts, children, least)
}

// Whether no child is a node of the kind, and the least names ascend if they have to.
fn are_others<K: Lettered, P: Drop>(
    kind: K,
    sorts: bool,
    children: &[TreeOf<K, P>],
    least: &[u32],
) -> bool
    requires some { 1 ≤ length children.now }
    requires same { length least.now ≡ length children.now }
    ensures { IsTrue result ↔ (HasOthersIf false kind (row (map plain children.now))
        × AscendsIf sorts least.now) }
{
    if is_of_kind(&children[0], kind) {
        return false;
    }
    for i in 1..children.len() {
        if is_of_kind(&children[i], kind) || sorts && least[i - 1] >= least[i] {
            return false;
        }
    }
    true
}

#[tactic(auto, using(crate::proofs::Plain::plain_is_leaf, crate::proofs::Plain::plain_is_node))]
fn is_of_kind<K: Lettered, P: Drop>(tree: &TreeOf<K, P>, kind: K) -> bool
    ensures { IsTrue result ↔ IsOfKind (plain tree.now) kind }
{
    match tree {
        TreeOf::Leaf(_) => false,
        TreeOf::Node(own, _, _) => own.is(kind),
    }
}

/// Whether each number is below the next one.
pub fn ascends(numbers: &[u32]) -> bool
    ensures exactly { IsTrue result ↔ Ascends numbers.now }
{
    for i in 1..numbers.len() {
        if numbers[i - 1] >= numbers[i] {
            return false;
        }
    }
    true
}
