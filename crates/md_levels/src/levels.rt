//! Levels of a forcing class.
ghost use Rattle.std.specs.Prelude.{◌≡◌, ℕ, ◌<◌, length, IfOk, IfSome, IfNone};
ghost use Rattle.md_graph.specs.PlainGraph.{adjacent};
ghost use Rattle.md_forcing.specs.Forcing.{IsArc};
ghost use Rattle.md_forcing.specs.Classes.{IsAtDistance};
ghost use Rattle.md_levels.specs.Levels.{AreLevels, InLevel};
ghost use Rattle.md_levels.specs.Depths.{IsSomeClass};

use md_forcing::{Arc, ForcingTree, trail_of};
use md_graph::{GraphOf, Memory};
use std::alloc::Global;
use std::marker::Model;

/// The arcs that an arc reaches, by how many direct forcings lead to them at least: a list of
/// nonempty lists. The first has the arc alone; each next has the arcs in no earlier list that an
/// arc of the list before forces directly.
#[derive(Drop)]
pub struct Levels {
    trail: ForcingTree,
}

impl Model for Levels {
    ghost use Rattle.std.specs.Prelude.{List};
    ghost use Rattle.md_forcing.specs.declared.arc.Arc.{Arc};
    ghost use Rattle.md_levels.specs.Depths.{levels_of, IsSomeClass};

    ghost Value = { List (List Arc) };

    ghost view = { λ l. levels_of l.trail };

    ghost invariant = { λ l. IsSomeClass l.trail };
}

/// The levels of the class of `first`. Condition: it is an arc of the graph. Errors: want of
/// memory.
pub fn levels_from<const W: usize>(
    alloc: Global,
    graph: &GraphOf<W>,
    first: Arc,
) -> Result<Levels, Memory>
    requires arc { IsArc (adjacent graph.now) first }
    ensures levels { IfOk result (AreLevels (adjacent graph.now) first) }
{
    let trail = trail_of(alloc, graph, first)?;
    Ok(Levels { trail })
}

impl Levels {
    /// The number of the level that has an arc, counted from 0; `None` exactly where none has it.
    pub fn level_of(&self, by: Arc) -> Option<u64>
        ensures found { IfSome result (λ k. InLevel self.now k by) }
        ensures none { IfNone result ((k : ℕ) → InLevel self.now k by → ⊥) }
    {
        let trail = &self.trail;
        match trail.place_of(by) {
            Some(place) => Some(depth_of(trail, place)),
            None => None,
        }
    }
}

// How many steps lead from the arc at a place back to the first. Condition: the trail is a class,
// and has the place.
fn depth_of(trail: &ForcingTree, place: usize) -> u64
    requires class { IsSomeClass trail.now }
    requires within { place < length trail.now }
    ensures { IsAtDistance trail.now result place }
{
    let mut at = place;
    let mut depth = 0;
    while at > 0 {
        let (_, before) = trail.entry(at);
        at = before as usize;
        depth += 1;
    }
    depth
}
