//! Trails: the arcs that an arc reaches, in the order in which an exploration finds them.
ghost use Rattle.std.specs.Prelude.{◌≡◌, ◌++◌, ◌∷◌, [], ℕ, ◌<◌, length, slice_get, Some, IfOk, OnOk, IfSome, IfNone};
ghost use Rattle.std.specs.Map.{keys_of};
ghost use Rattle.md_forcing.specs.Lists.{Holds};

use crate::{Arc, Class};
use md_graph::Memory;
use std::alloc::Global;
use std::marker::Model;

/// The arcs that an exploration finds, each with the place of an arc before it that forces it
/// directly; the first has its own place. One trail serves many explorations, one after the other.
#[derive(Drop)]
pub struct ForcingTree {
    entries: Vec<(Arc, u32)>,
}

impl Model for ForcingTree {
    ghost use Rattle.std.specs.Prelude.{ℕ, List};
    ghost use Rattle.md_forcing.specs.declared.arc.Arc.{Arc};

    ghost Value = { List (Arc × ℕ) };

    ghost view = { λ t. t.entries.items };
}

impl ForcingTree {
    /// No arc.
    pub fn new(alloc: Global) -> ForcingTree
        ensures { result ≡ [] }
    {
        ForcingTree {
            entries: Vec::new(alloc),
        }
    }

    // The arcs of a class, with their places.
    pub(crate) fn of_class(alloc: Global, class: &Class) -> Result<ForcingTree, Memory>
        ensures { IfOk result (λ trail. trail ≡ class.now) }
    {
        let mut trail = ForcingTree::new(alloc);
        for i in 0..class.len() {
            let (by, place) = class.entry(i as usize);
            trail.push(by, place)?;
        }
        Ok(trail)
    }

    // Lets all arcs go, and keeps the memory.
    pub(crate) fn clear(&mut self)
        ensures { self.new ≡ [] }
    {
        self.entries.clear();
    }

    // Takes in an arc with a place.
    pub(crate) fn push(&mut self, by: Arc, place: u32) -> Result<(), Memory>
        ensures { OnOk result (self.new ≡ self.old ++ (by, place) ∷ []) }
    {
        self.entries.push((by, place))?;
        Ok(())
    }

    /// The number of arcs.
    pub fn len(&self) -> u64
        ensures { result ≡ length self.now }
    {
        self.entries.len() as u64
    }

    /// The arc at a place, and the place of the arc that forced it. Condition: there are more.
    pub fn entry(&self, i: usize) -> (Arc, u32)
        requires { i < length self.now }
        ensures { slice_get self.now i ≡ Some result }
    {
        self.entries[i]
    }

    /// The place of an arc; `None` exactly where it isn't there.
    pub fn place_of(&self, by: Arc) -> Option<usize>
        ensures found { IfSome result (λ i. (p : ℕ) × (slice_get self.now i ≡ Some (by, p))) }
        ensures none { IfNone result (Holds (keys_of self.now) by → ⊥) }
    {
        for i in 0..self.len() {
            let (other, _) = self.entry(i as usize);
            if other == by {
                return Some(i as usize);
            }
        }
        None
    }
}
