//! Whether a tree is one of a cograph.
ghost use Rattle.std.specs.Prelude.{◌≡◌, ◌≢◌, ◌↔◌, true, false, IsTrue};
ghost use Rattle.md_tree.specs.declared.Kind.TheVariants.{Prime};
ghost use Rattle.md_tree.specs.Plain.{plain, plain_option, row_of_children};
ghost use Rattle.md_tree.specs.WellFormed.{HasNoPrimeNode, HaveNoPrimeNode};
ghost use Rattle.md_tree.specs.NoPrimes.{HasNoPrime};

use crate::{Children, Kind, Tree};

/// Whether no node of a tree is prime: the tree is a cotree then, and its graph a cograph.
#[cycle(look)]
#[tactic(auto, using(crate::proofs::Plain::plain_is_leaf, crate::proofs::Plain::plain_is_node))]
pub fn is_cotree(tree: &Tree) -> bool
    ensures exactly { IsTrue result ↔ HasNoPrimeNode (plain tree.now) }
{
    match tree {
        Tree::Leaf(_) => true,
        Tree::Node(kind, children, _) => !is_prime(*kind) && are_cotrees(children),
    }
}

/// Whether there is no tree, or no node of it is prime.
pub fn has_no_prime(tree: &Option<Tree>) -> bool
    ensures no_prime { IsTrue result ↔ HasNoPrime (plain_option tree.now) }
{
    match tree {
        Some(tree) => is_cotree(tree),
        None => true,
    }
}

#[cycle(look)]
fn are_cotrees(children: &Children) -> bool
    ensures { IsTrue result ↔ HaveNoPrimeNode (row_of_children children.now) }
{
    for child in &children.list {
        if !is_cotree(child) {
            return false;
        }
    }
    true
}

fn is_prime(kind: Kind) -> bool
    ensures yes { result ≡ true → kind ≡ Prime }
    ensures no { result ≡ false → kind ≢ Prime }
{
    match kind {
        Kind::Prime => true,
        Kind::Parallel | Kind::Series => false,
    }
}
