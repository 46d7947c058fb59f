//! What a comparison with the text of a tree asks of a graph, of whatever kind.
ghost use Rattle.std.specs.Prelude.{◌≡◌, ◌≤◌, ◌*◌, ◌↔◌, ℕ, List, [], map, true, false, IfOk, IsTrue};
ghost use Rattle.md_graph.specs.declared.TheConstants.{NAMES, WORDS};
ghost use Rattle.md_graph.specs.NameSet.{AllBelow};
ghost use Rattle.md_graph.specs.Sets.{Has, Within};
ghost use Rattle.md_modules.specs.Modules.{HasTrivialModulesAlone};
ghost use Rattle.md_tree.specs.Trees.{PlainTreeOf, row};
ghost use Rattle.md_checker.specs.TextViews.{View, IsView, root_kind};

use md_graph::{Memory, Set};
use md_tree::{Lettered, Paired};
use std::alloc::Global;

/// A graph with rows of `W` words, whose tree has nodes of kind `K` that list pairs `P`.
pub trait TextGraph<K: Lettered, P: Paired, const W: usize> {
    // The graph as a comparison sees it.
    ghost view: { Self → View K P };

    /// The vertices.
    fn vertices(&self) -> &Set<W>
        ensures set { result.now ≡ (view self.now).vertices }
        ensures view { IsView K.rules P.rules (view self.now) }
        ensures below { AllBelow (view self.now).vertices (64 * W) }
        ensures limit { W ≤ WORDS };

    /// A row and a number: a prime node lists the pair of `v` and each name of the row that isn't
    /// below the number, where both names stand for children. Condition: `v` is a vertex.
    fn ahead(&self, v: u32) -> (&Set<W>, u32)
        requires vertex { Has (view self.now).vertices v }
        ensures row { (y : ℕ) → ((view self.now).lists v y ≡ true)
            ↔ (Has result.0.now y × (result.1 ≤ y)) }
        ensures few { result.1 ≤ NAMES };

    /// Whether a node of the kind is one that is asked for, where its children have roots of these
    /// kinds; a leaf has none.
    fn admits(&self, kind: K, roots: &[Option<K>]) -> bool
        ensures admitted { (ts : List (PlainTreeOf K P)) → roots.now ≡ map root_kind ts
            → (IsTrue result ↔ (view self.now).Admits kind (row ts)) };

    /// Whether two vertices have the same colours with each name of a set.
    fn agree_on(&self, v: u32, w: u32, names: &Set<W>) -> bool
        requires first { Has (view self.now).vertices v }
        requires second { Has (view self.now).vertices w }
        ensures agree { IsTrue result ↔ ((y : ℕ) → Has names.now y
            → (view self.now).colours v y ≡ (view self.now).colours w y) };

    /// Whether two vertices have the colour that a node of the kind puts between any two of its
    /// children; no, if it lists pairs.
    fn are_joined(&self, kind: K, v: u32, w: u32) -> bool
        requires first { Has (view self.now).vertices v }
        requires second { Has (view self.now).vertices w }
        ensures joined { IsTrue result ↔ ((K.rules.lists kind ≡ false) × ((i j : ℕ)
            → (view self.now).colours v w ≡ (view self.now).puts kind [] i j)) };

    /// Whether each module of the graph on these vertices is one of them, or all. Errors: want of
    /// memory.
    fn has_trivial_modules_alone(&self, alloc: Global, names: &Set<W>) -> Result<bool, Memory>
        requires vertices { Within names.now (view self.now).vertices }
        ensures trivial { IfOk result (λ alone. IsTrue alone
            ↔ HasTrivialModulesAlone (view self.now).colours names.now) };
}
