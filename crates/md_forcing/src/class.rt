//! Classes: the arcs that an arc reaches.
ghost use Rattle.std.specs.Prelude.{◌≡◌, ◌++◌, ◌∷◌, [], ℕ, ◌<◌, length, slice_get, Some, IfOk, OnOk, IfSome, IfNone};
ghost use Rattle.std.specs.Map.{keys_of};
ghost use Rattle.md_forcing.specs.Lists.{Holds, NoRepeats};

use crate::{Arc, ForcingTree};
use indexmap::IndexMap;
use md_graph::Memory;
use std::alloc::Global;
use std::marker::Model;

/// The arcs that an arc reaches, each with the place of an arc before it that forces it directly;
/// the first has its own place.
#[derive(Drop)]
pub struct Class {
    places: IndexMap<Arc, u32>,
}

impl Model for Class {
    ghost use Rattle.std.specs.Prelude.{ℕ, List};
    ghost use Rattle.md_forcing.specs.declared.arc.Arc.{Arc};

    ghost Value = { List (Arc × ℕ) };

    ghost view = { λ c. c.places.entries };
}

impl Class {
    // No arc.
    fn new(alloc: Global) -> Class
        ensures { result ≡ [] }
    {
        Class {
            places: IndexMap::new(alloc),
        }
    }

    /// The arcs that a trail lists, with their places. Condition: each is listed once. Errors: want
    /// of memory.
    pub fn from_trail(alloc: Global, trail: &ForcingTree) -> Result<Class, Memory>
        requires { NoRepeats (keys_of trail.now) }
        ensures { IfOk result (λ class. class ≡ trail.now) }
    {
        let mut class = Class::new(alloc);
        for i in 0..trail.len() {
            let (by, place) = trail.entry(i as usize);
            class.push(by, place)?;
        }
        Ok(class)
    }

    // Takes in an arc with a place. Condition: it isn't there.
    fn push(&mut self, by: Arc, place: u32) -> Result<(), Memory>
        requires { Holds (keys_of self.old) by → ⊥ }
        ensures { OnOk result (self.new ≡ self.old ++ (by, place) ∷ []) }
    {
        self.places.insert(by, place)?;
        Ok(())
    }

    /// The number of arcs.
    pub fn len(&self) -> u64
        ensures { result ≡ length self.now }
    {
        self.places.len() as u64
    }

    /// The arc at a place, counted from 0. Condition: there are more.
    pub fn get(&self, i: u64) -> Arc
        requires { i < length self.now }
        ensures { (p : ℕ) × (slice_get self.now i ≡ Some (result, p)) }
    {
        let (by, _) = self.entry(i as usize);
        by
    }

    // The arc at a place, and the place of the arc that forced it. Condition: there are more.
    pub(crate) fn entry(&self, i: usize) -> (Arc, u32)
        requires { i < length self.now }
        ensures { slice_get self.now i ≡ Some result }
    {
        match self.places.get_index(i) {
            Some((by, place)) => (*by, *place),
            None => unreachable!(),
        }
    }

    // The place of an arc; `None` exactly where it isn't there.
    pub(crate) fn place_of(&self, by: Arc) -> Option<usize>
        ensures found { IfSome result (λ i. (p : ℕ) × (slice_get self.now i ≡ Some (by, p))) }
        ensures none { IfNone result (Holds (keys_of self.now) by → ⊥) }
    {
        self.places.get_index_of(&by)
    }
}
