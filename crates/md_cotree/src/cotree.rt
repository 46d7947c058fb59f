//! Cotrees over linked lists.
ghost use Rattle.std.specs.Prelude.{◌≡◌, ℕ, ◌<◌, Option, Some, None, IfOk, slice_index_or, ◌==◌, if◌then◌else◌};
ghost use Rattle.md_graph.specs.PlainGraph.{empty_graph};
ghost use Rattle.md_cotree.specs.Cotrees.{AreEntries};

use md_graph::{Memory, NAMES};
use md_lists::{Lists, PLACES};
use std::alloc::Global;

/// A tree without prime nodes over places: its linked lists, a place or none for each name up to
/// the greatest that came, the place of its root or none, and the number of its leaves.
#[derive(Drop)]
pub struct Cotree {
    pub lists: Lists,
    pub places: Vec<Option<u32>>,
    pub root: Option<u32>,
    pub leaves: u32,
}

impl Cotree {
    ghost use Rattle.md_graph.specs.PlainGraph.{PlainGraph, adjacent};
    ghost use Rattle.md_tree.specs.StrongTrees.{IsTree};
    ghost use Rattle.md_tree.specs.Trees.{PlainTree, nodes_in};
    ghost use Rattle.md_cotree.specs.PlaceTrees.{PlaceTree, node_counts};
    ghost use Rattle.md_cotree.specs.Cotrees.{root_row, IsKeptAs, IsSoundCotree, Denotes};

    /// No vertex. Errors: want of memory.
    pub fn new(alloc: Global) -> Result<Cotree, Memory>
        ensures { IfOk result (λ cotree. Denotes cotree empty_graph) }
    {
        Ok(Cotree {
            lists: Lists::new(alloc)?,
            places: Vec::with_capacity(alloc, NAMES as usize)?,
            root: None,
            leaves: 0,
        })
    }

    /// The number of nodes of the tree, leaves among them: as many as the tree of strong modules of
    /// its graph has. Condition: the cotree is sound.
    pub fn node_count(&self) -> u64
        requires { IsSoundCotree self.now }
        ensures places { (o : Option PlaceTree) → IsKeptAs self.now o →
            result ≡ node_counts (root_row o) }
        ensures tree { (g : PlainGraph) (t : Option PlainTree) → Denotes self.now g →
            IsTree (adjacent g) g.vertices t → result ≡ nodes_in t }
    {
        u64::from(PLACES - self.lists.spare())
    }
}

/// A place is kept for a name, in the room that is there for all names.
pub fn keep_place(places: &mut Vec<Option<u32>>, name: u32, place: u32)
    requires entries { AreEntries places.old }
    requires name { name < NAMES }
    ensures kept { (v : ℕ) → slice_index_or places.new.items v None
        ≡ (if v == name then Some place else slice_index_or places.old.items v None) }
    ensures entries { AreEntries places.new }
{
    for _ in places.len()..name as usize + 1 {
        places.push_reserved(None);
    }
    places[name as usize] = Some(place);
}
