//! Whether a text is that of the tree of a graph, of whatever kind. No tree is built. Two other
//! machines go over the same texts: md_tree's `builder` makes the tree, and its `grammar` says
//! where a text leaves their grammar.
ghost use Rattle.std.specs.Prelude.{◌≡◌, ◌<◌, ◌≤◌, ◌⊎◌, ◌+◌, ◌*◌, ◌∷◌, ◌++◌, ◌↔◌, ◌≢◌, [], ℕ, List, true, false, length, take, vec_len, Contains, Some, IfOk, IfSome, IfNone, IsTrue, MatchOption};
ghost use Rattle.std.specs.FinSet.{insert};
ghost use Rattle.md_graph.specs.declared.TheConstants.{NAMES, WORDS};
ghost use Rattle.md_graph.specs.Sets.{NameSet};
ghost use Rattle.md_text.specs.Fronts.{IsNumberSplit, LacksFirst};
ghost use Rattle.md_tree.specs.Held.{AscendsIf, IsMinimum, MayListIf};
ghost use Rattle.md_tree.specs.Trees.{PlainTreeOf};
ghost use Rattle.md_tree.specs.TreeTexts.{pairs_text_by};
ghost use Rattle.md_checker.specs.TextFits.{opened_at, MayHaveKinds, AreLive, HasOthers, AreNoTreesText, IsRead, IsReadInside, IsReadOn};
ghost use Rattle.md_checker.specs.TextViews.{StandForChildren, IsFitView, IsTextOfTree, listed_pairs};

use crate::head_pairs::{past_bracket, past_pairs};
use crate::node_fit::is_fit_node;
use crate::text_graph::TextGraph;
use md_graph::{Memory, NAMES, Set};
use md_outline::PairSpace;
use md_text::{skip_byte, small_number};
use md_tree::{Lettered, Opened, Paired, ascends, split_letter};
use std::alloc::Global;

// What is kept of a text that is read: of each finished tree its least name and the kind of its
// root, if that is a node; the nodes that are open; all names; and, so that the names outside a
// node are few, the vertices that are not read yet and the least names of the finished trees.
#[derive(Drop)]
struct Walk<K: Drop, const W: usize> {
    least: Vec<u32>,
    roots: Vec<Option<K>>,
    opens: Vec<Opened<K>>,
    seen: Set<W>,
    live: Set<W>,
    space: PairSpace,
}

/// Whether bytes are the text of the tree of strong modules of a graph, and its nodes are such as
/// are asked for. One pass over the text, no tree is built: of the pairs of a prime node those that
/// the rows of the graph demand are compared with the text. Condition: `W` is at most `WORDS`.
/// Errors: want of memory.
pub fn is_text_by_rows<K: Lettered, P: Paired, G: TextGraph<K, P, W>, const W: usize>(
    alloc: Global,
    graph: &G,
    text: &[u8],
) -> Result<bool, Memory>
    requires limit { W ≤ WORDS }
    ensures text { IfOk result (λ fit. IsTrue fit ↔ ((t : PlainTreeOf K P)
        × IsTextOfTree K.rules P.rules (G.view graph.now) text.now t)) }
{
    let vertices = graph.vertices();
    let size = vertices.count() as usize;
    let least = Vec::with_capacity(alloc, size)?;
    let roots = Vec::with_capacity(alloc, size)?;
    let mut walk = Walk {
        least,
        roots,
        opens: Vec::new(alloc),
        seen: Set::none(),
        live: vertices.copy(),
        space: PairSpace::new(alloc),
    };
    let mut rest = text;
    let mut behind = false;
    while !behind || !rest.is_empty() {
        let Some((tail, next)) = take_step::<K, P, G, W>(alloc, graph, rest, behind, &mut walk)?
        else {
            return Ok(false);
        };
        rest = tail;
        behind = next;
    }
    Ok(is_whole::<K, P, G, W>(graph, &walk))
}

// Whether no node is open, and all names are the vertices of the graph.
fn is_whole<K: Lettered, P: Paired, G: TextGraph<K, P, W>, const W: usize>(
    graph: &G,
    walk: &Walk<K, W>,
) -> bool
    ensures { IsTrue result
        ↔ ((walk.now.opens.items ≡ []) × (walk.now.seen ≡ (G.view graph.now).vertices)) }
{
    if !walk.opens.is_empty() {
        return false;
    }
    walk.seen.within_limit();
    walk.seen.is_same(graph.vertices())
}

// What is left behind one token, and whether it stands behind a tree.
fn take_step<'a, K: Lettered, P: Paired, G: TextGraph<K, P, W>, const W: usize>(
    alloc: Global,
    graph: &G,
    text: &'a [u8],
    behind: bool,
    walk: &mut Walk<K, W>,
) -> Result<Option<(&'a [u8], bool)>, Memory>
    requires read { (bytes : List ℕ)
        × IsRead K.rules P.rules (G.view graph.now) bytes text.now behind walk.old }
    requires some { IsTrue behind → 0 < length text.now }
    ensures { IfOk result (λ o. (bytes : List ℕ)
        → IsRead K.rules P.rules (G.view graph.now) bytes text.now behind walk.old
        → MatchOption o (AreNoTreesText K.rules P.rules (G.view graph.now) bytes)
        (λ p. IsReadOn K.rules P.rules (G.view graph.now) bytes text.now p.0.now p.1 walk.new)) }
{
    let _vertices = graph.vertices();
    if behind {
        return step_behind::<K, P, G, W>(alloc, graph, text, walk);
    }
    if let Some((name, tail)) = small_number(text) {
        return take_name::<K, P, G, W>(graph, name, tail, walk);
    }
    let Some((kind, tail)) = split_letter(text) else {
        return Ok(None);
    };
    match begin_node(text, kind, tail, walk.least.len(), &mut walk.opens)? {
        Some(inside) => Ok(Some((inside, false))),
        None => Ok(None),
    }
}

// A name: it has to be a vertex and new.
fn take_name<'a, K: Lettered, P: Paired, G: TextGraph<K, P, W>, const W: usize>(
    graph: &G,
    name: u32,
    tail: &'a [u8],
    walk: &mut Walk<K, W>,
) -> Result<Option<(&'a [u8], bool)>, Memory>
    ensures { IfOk result (λ o. (bytes text : List ℕ) → IsNumberSplit text name tail.now
        → IsRead K.rules P.rules (G.view graph.now) bytes text false walk.old
        → MatchOption o (AreNoTreesText K.rules P.rules (G.view graph.now) bytes)
        (λ p. IsReadOn K.rules P.rules (G.view graph.now) bytes text p.0.now p.1 walk.new)) }
{
    walk.seen.within_limit();
    let vertices = graph.vertices();
    if !vertices.has(name) {
        return Ok(None);
    }
    if walk.seen.has(name) {
        return Ok(None);
    }
    walk.seen.insert(name);
    walk.least.push(name)?;
    walk.roots.push(None)?;
    Ok(Some((tail, true)))
}

// Behind the letter of a node, before whose children `first` trees are finished. None if as many
// nodes are open as there are names, or no bracket stands there.
fn begin_node<'a, K: Lettered>(
    text: &'a [u8],
    kind: K,
    tail: &'a [u8],
    first: usize,
    opens: &mut Vec<Opened<K>>,
) -> Result<Option<&'a [u8]>, Memory>
    requires letter { text.now ≡ K.rules.letter kind ∷ tail.now }
    requires few { first ≤ NAMES }
    ensures { IfOk result (λ o. MatchOption o
        ((NAMES ≤ length opens.old.items) ⊎ LacksFirst 40 tail.now)
        (λ inside. (text.now ≡ K.rules.letter kind ∷ 40 ∷ inside.now)
        × (opens.new.items ≡ opens.old.items ++ opened_at kind first ∷ []))) }
{
    if opens.len() >= NAMES as usize {
        return Ok(None);
    }
    match skip_byte(tail, b'(') {
        Ok(inside) => {
            let first = first as u32;
            opens.push(Opened { kind, first })?;
            Ok(Some(inside))
        }
        Err(_) => Ok(None),
    }
}

// Behind a tree in an open node: a comma, or the end of the node.
fn step_behind<'a, K: Lettered, P: Paired, G: TextGraph<K, P, W>, const W: usize>(
    alloc: Global,
    graph: &G,
    text: &'a [u8],
    walk: &mut Walk<K, W>,
) -> Result<Option<(&'a [u8], bool)>, Memory>
    requires read { (bytes : List ℕ)
        × IsRead K.rules P.rules (G.view graph.now) bytes text.now true walk.old }
    requires some { 0 < length text.now }
    ensures { IfOk result (λ o. (bytes : List ℕ)
        → IsRead K.rules P.rules (G.view graph.now) bytes text.now true walk.old
        → MatchOption o (AreNoTreesText K.rules P.rules (G.view graph.now) bytes)
        (λ p. IsReadOn K.rules P.rules (G.view graph.now) bytes text.now p.0.now p.1 walk.new)) }
{
    let _vertices = graph.vertices();
    if let Ok(tail) = skip_byte(text, b',') {
        if walk.opens.is_empty() {
            return Ok(None);
        }
        return Ok(Some((tail, false)));
    }
    let Some(inner) = walk.opens.pop() else {
        return Ok(None);
    };
    match end_node::<K, P, G, W>(alloc, graph, text, inner, walk)? {
        Some(tail) => Ok(Some((tail, true))),
        None => Ok(None),
    }
}

// The end of a node, where its children are such as its kind asks, and in order, and it fits.
fn end_node<'a, K: Lettered, P: Paired, G: TextGraph<K, P, W>, const W: usize>(
    alloc: Global,
    graph: &G,
    text: &'a [u8],
    inner: Opened<K>,
    walk: &mut Walk<K, W>,
) -> Result<Option<&'a [u8]>, Memory>
    requires read { (bytes : List ℕ)
        × IsReadInside K.rules P.rules (G.view graph.now) bytes text.now inner walk.old }
    requires no_comma { LacksFirst 44 text.now }
    ensures { IfOk result (λ o. (bytes : List ℕ)
        → IsReadInside K.rules P.rules (G.view graph.now) bytes text.now inner walk.old
        → MatchOption o (AreNoTreesText K.rules P.rules (G.view graph.now) bytes)
        (λ tail.
        IsReadOn K.rules P.rules (G.view graph.now) bytes text.now tail.now true walk.new)) }
{
    walk.seen.within_limit();
    let _vertices = graph.vertices();
    let first = inner.first as usize;
    let roots = &walk.roots[first..];
    if !may_have(inner.kind, roots) {
        return Ok(None);
    }
    if !graph.admits(inner.kind, roots) {
        return Ok(None);
    }
    let heads = &walk.least[first..];
    if !may_stand(inner.kind, heads) {
        return Ok(None);
    }
    let least = least_name(inner.kind, heads);
    let (live, space) = (&mut walk.live, &mut walk.space);
    let Some(tail) = past_end::<K, P, G, W>(alloc, graph, text, inner.kind, heads, live, space)?
    else {
        return Ok(None);
    };
    close(inner, least, walk)?;
    Ok(Some(tail))
}

// A node takes the place of its children.
fn close<K: Lettered, const W: usize>(
    inner: Opened<K>,
    least: u32,
    walk: &mut Walk<K, W>,
) -> Result<(), Memory>
    requires name { least < 64 * W }
    requires first { inner.first ≤ vec_len walk.old.least }
    ensures least { IfOk result (λ _. walk.new.least.items
        ≡ take inner.first walk.old.least.items ++ least ∷ []) }
    ensures roots { IfOk result (λ _. walk.new.roots.items
        ≡ take inner.first walk.old.roots.items ++ Some inner.kind ∷ []) }
    ensures opens { walk.new.opens.items ≡ walk.old.opens.items }
    ensures seen { walk.new.seen ≡ walk.old.seen }
    ensures live { walk.new.live ≡ insert walk.old.live least }
{
    let first = inner.first as usize;
    walk.live.insert(least);
    walk.least.truncate(first);
    walk.least.push(least)?;
    walk.roots.truncate(first);
    walk.roots.push(Some(inner.kind))?;
    Ok(())
}

// What stands behind the pairs and the bracket of a node, if it fits, where the least names of its
// children are told; these leave `live`.
fn past_end<'a, K: Lettered, P: Paired, G: TextGraph<K, P, W>, const W: usize>(
    alloc: Global,
    graph: &G,
    text: &'a [u8],
    kind: K,
    heads: &[u32],
    live: &mut Set<W>,
    space: &mut PairSpace,
) -> Result<Option<&'a [u8]>, Memory>
    requires heads { StandForChildren (G.view graph.now).vertices (K.rules.sorts kind) heads.now }
    requires few { length heads.now ≤ NAMES }
    requires live { AreLive heads.now live.old }
    ensures past { IfOk result (λ o. IfSome o (λ tail. (ps : List P)
        × MayListIf P.rules (K.rules.lists kind) (length heads.now) ps
        × HasOthers live.old heads.now live.new
        × IsFitView (G.view graph.now) live.new kind ps heads.now
        × (text.now ≡ pairs_text_by P.rules 59 ps ++ 41 ∷ tail.now))) }
    ensures none { IfOk result (λ o. IfNone o ((ps : List P) (tail : List ℕ) (others : NameSet)
        → MayListIf P.rules (K.rules.lists kind) (length heads.now) ps
        → HasOthers live.old heads.now others
        → IsFitView (G.view graph.now) others kind ps heads.now
        → text.now ≢ pairs_text_by P.rules 59 ps ++ 41 ∷ tail)) }
{
    live.within_limit();
    let _vertices = graph.vertices();
    let Some(tail) = past_listed::<K, P, G, W>(graph, text, kind, heads, space)? else {
        return Ok(None);
    };
    if !is_fit_node::<K, P, G, W>(alloc, graph, kind, heads, live)? {
        return Ok(None);
    }
    Ok(Some(tail))
}

// What stands behind the pairs that a node of the kind lists, and behind its bracket.
fn past_listed<'a, K: Lettered, P: Paired, G: TextGraph<K, P, W>, const W: usize>(
    graph: &G,
    text: &'a [u8],
    kind: K,
    heads: &[u32],
    space: &mut PairSpace,
) -> Result<Option<&'a [u8]>, Memory>
    requires limit { W ≤ WORDS }
    requires heads { StandForChildren (G.view graph.now).vertices (K.rules.sorts kind) heads.now }
    requires few { length heads.now ≤ NAMES }
    ensures may { IfOk result (λ o. IfSome o (λ tail.
        MayListIf P.rules (K.rules.lists kind) (length heads.now)
        (listed_pairs K.rules P.rules (G.view graph.now) kind heads.now))) }
    ensures text { IfOk result (λ o. IfSome o (λ tail. text.now ≡ pairs_text_by P.rules 59
        (listed_pairs K.rules P.rules (G.view graph.now) kind heads.now) ++ 41 ∷ tail.now)) }
    ensures none { IfOk result (λ o. IfNone o ((tail : List ℕ)
        → MayListIf P.rules (K.rules.lists kind) (length heads.now)
        (listed_pairs K.rules P.rules (G.view graph.now) kind heads.now)
        → text.now ≢ pairs_text_by P.rules 59
        (listed_pairs K.rules P.rules (G.view graph.now) kind heads.now) ++ 41 ∷ tail)) }
{
    let _vertices = graph.vertices();
    if !kind.lists() {
        return Ok(past_bracket(text));
    }
    past_pairs::<K, P, G, W>(graph, heads, text, space)
}

// Whether a node of the kind may have children whose roots are of these kinds.
fn may_have<K: Lettered>(kind: K, children: &[Option<K>]) -> bool
    ensures { IsTrue result ↔ MayHaveKinds K.rules kind children.now }
{
    if children.len() < kind.least_count() {
        return false;
    }
    kind.lists() || lacks_kind(kind, children)
}

// Whether none of the children is a node of the kind.
fn lacks_kind<K: Lettered>(kind: K, children: &[Option<K>]) -> bool
    ensures { IsTrue result ↔ (Contains children.now (Some kind) → ⊥) }
{
    for child in children {
        if is_of_kind(child, kind) {
            return false;
        }
    }
    true
}

fn is_of_kind<K: Lettered>(root: &Option<K>, kind: K) -> bool
    ensures { IsTrue result ↔ (root.now ≡ Some kind) }
{
    match root {
        Some(own) => own.is(kind),
        None => false,
    }
}

// Whether children with these least names may stand so in a node of the kind.
fn may_stand<K: Lettered>(kind: K, least: &[u32]) -> bool
    ensures { IsTrue result ↔ AscendsIf (K.rules.sorts kind) least.now }
{
    !kind.sorts() || ascends(least)
}

// The least name of a node, which is that of its first child where the children ascend.
fn least_name<K: Lettered>(kind: K, least: &[u32]) -> u32
    requires some { 0 < length least.now }
    requires ascends { AscendsIf (K.rules.sorts kind) least.now }
    ensures { IsMinimum least.now result }
{
    if kind.sorts() {
        return least[0];
    }
    least_of(least)
}

// The least of some numbers.
fn least_of(numbers: &[u32]) -> u32
    requires { 0 < length numbers.now }
    ensures { IsMinimum numbers.now result }
{
    let mut least = numbers[0];
    for number in numbers {
        least = lesser(*number, least);
    }
    least
}

fn lesser(first: u32, second: u32) -> u32
    ensures one { (result ≡ first) ⊎ (result ≡ second) }
    ensures first { result ≤ first }
    ensures second { result ≤ second }
{
    if first < second {
        return first;
    }
    second
}
