//! Lists of arcs, and the list by which an arc reaches its reverse.
ghost use Rattle.std.specs.Prelude.{◌≡◌, ℕ, ◌<◌, Bool, length, slice_get, Some, IfOk, IfSome, IfNone};
ghost use Rattle.std.specs.Map.{keys_of};
ghost use Rattle.md_graph.specs.PlainGraph.{adjacent};
ghost use Rattle.md_forcing.specs.declared.arc.Arc.{Arc};
ghost use Rattle.md_forcing.specs.Lists.{Holds};
ghost use Rattle.md_forcing.specs.Forcing.{reverse, IsShortestToReverse};
ghost use Rattle.md_forcing.specs.Classes.{IsClass, TurnsAt};

use crate::{Arc, Class, ForcingTree};
use md_graph::{GraphOf, Memory};
use std::alloc::Global;
use std::marker::Model;

/// A list of arcs.
#[derive(Drop)]
pub struct Arcs {
    list: Vec<Arc>,
}

impl Model for Arcs {
    ghost use Rattle.std.specs.Prelude.{List};
    ghost use Rattle.md_forcing.specs.declared.arc.Arc.{Arc};

    ghost Value = { List Arc };

    ghost view = { λ a. a.list.items };
}

impl Arcs {
    /// These arcs.
    pub fn from_list(list: Vec<Arc>) -> Arcs
        ensures { result ≡ list.items }
    {
        Arcs { list }
    }

    /// The arcs, in their order.
    pub fn as_slice(&self) -> &[Arc]
        ensures { result.now ≡ self.now }
    {
        self.list.as_slice()
    }

    /// The number of arcs.
    pub fn len(&self) -> u64
        ensures { result ≡ length self.now }
    {
        self.list.len() as u64
    }

    /// The arc at a place, counted from 0. Condition: there are more.
    pub fn get(&self, i: u64) -> Arc
        requires { i < length self.now }
        ensures { slice_get self.now i ≡ Some result }
    {
        self.list[i as usize]
    }
}

/// A list of arcs in which neighbours are to force each other directly.
#[derive(Drop)]
pub struct Chain {
    list: Vec<Arc>,
}

impl Model for Chain {
    ghost use Rattle.std.specs.Prelude.{List};
    ghost use Rattle.md_forcing.specs.declared.arc.Arc.{Arc};

    ghost Value = { List Arc };

    ghost view = { λ c. c.list.items };
}

impl Chain {
    /// These arcs.
    pub fn from_list(list: Vec<Arc>) -> Chain
        ensures { result ≡ list.items }
    {
        Chain { list }
    }

    /// The arcs, in their order.
    pub fn as_slice(&self) -> &[Arc]
        ensures { result.now ≡ self.now }
    {
        self.list.as_slice()
    }

    /// The number of arcs.
    pub fn len(&self) -> u64
        ensures { result ≡ length self.now }
    {
        self.list.len() as u64
    }

    /// The arc at a place, counted from 0. Condition: there are more.
    pub fn get(&self, i: u64) -> Arc
        requires { i < length self.now }
        ensures { slice_get self.now i ≡ Some result }
    {
        self.list[i as usize]
    }
}

/// A shortest list from the first arc of a class to its reverse in which neighbours force each
/// other directly, so without repeats; `None` exactly where the class doesn't hold the reverse.
/// Condition: it is the class of an arc of the graph. Errors: want of memory.
pub fn chain_to_reverse<const W: usize>(
    alloc: Global,
    graph: &GraphOf<W>,
    class: &Class,
) -> Result<Option<Chain>, Memory>
    requires { (first : Arc) × IsClass (adjacent graph.now) first class.now }
    ensures found { IfOk result (λ answer. IfSome answer (λ chain. (first : Arc)
        → IsClass (adjacent graph.now) first class.now
        → IsShortestToReverse (adjacent graph.now) first chain)) }
    ensures none { IfOk result (λ answer. IfNone answer ((first : Arc)
        → IsClass (adjacent graph.now) first class.now
        → Holds (keys_of class.now) (reverse first) → ⊥)) }
{
    let (first, _) = class.entry(0);
    let Some(last) = class.place_of(reverse_of(first)) else {
        return Ok(None);
    };
    let trail = ForcingTree::of_class(alloc, class)?;
    let chain = follow(alloc, &trail, last)?;
    Ok(Some(chain))
}

/// The same of a trail, of any graph, so of the complement of one.
pub fn chain_of(alloc: Global, trail: &ForcingTree) -> Result<Option<Chain>, Memory>
    requires { (e : ℕ → ℕ → Bool) × (first : Arc) × IsClass e first trail.now }
    ensures found { IfOk result (λ answer. IfSome answer (λ chain. (e : ℕ → ℕ → Bool) (first : Arc)
        → IsClass e first trail.now → IsShortestToReverse e first chain)) }
    ensures none { IfOk result (λ answer. IfNone answer ((e : ℕ → ℕ → Bool) (first : Arc)
        → IsClass e first trail.now → Holds (keys_of trail.now) (reverse first) → ⊥)) }
{
    let (first, _) = trail.entry(0);
    let Some(last) = trail.place_of(reverse_of(first)) else {
        return Ok(None);
    };
    let chain = follow(alloc, trail, last)?;
    Ok(Some(chain))
}

// The same edge in the other direction.
fn reverse_of(by: Arc) -> Arc
    ensures { result ≡ reverse by }
{
    Arc {
        tail: by.head,
        head: by.tail,
    }
}

// A shortest list from the first arc of a trail to the one at a place, which is its reverse.
fn follow(alloc: Global, trail: &ForcingTree, last: usize) -> Result<Chain, Memory>
    requires class { (e : ℕ → ℕ → Bool) × (first : Arc) × IsClass e first trail.now }
    requires turns { TurnsAt trail.now last }
    ensures { IfOk result (λ chain. (e : ℕ → ℕ → Bool) (first : Arc)
        → IsClass e first trail.now → IsShortestToReverse e first chain) }
{
    let (first, _) = trail.entry(0);
    let mut list = Vec::new(alloc);
    let mut at = last;
    while at > 0 {
        let (by, place) = trail.entry(at);
        list.push(by)?;
        at = place as usize;
    }
    list.push(first)?;
    list.reverse();
    Ok(Chain { list })
}
