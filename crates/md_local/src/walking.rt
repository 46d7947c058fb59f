//! Walks over a tree from its root, from the first child to the last, which look at leaves where
//! they stand and go down to other children.
ghost use Rattle.std.specs.Prelude.{◌≡◌, map};
ghost use Rattle.md_tree.specs.Parts.{below_node};
ghost use Rattle.md_tree.specs.Plain.{plain};

use md_tree::Tree;

// A node that a walk is in: its children that are still to be looked at, and what came of those
// before them.
#[derive(Drop)]
pub(crate) struct Open<'a, B: Drop> {
    pub tree: &'a Tree,
    pub rest: &'a [Tree],
    pub below: B,
}

// The node where a walk goes on, or what came of the whole tree.
#[derive(Drop)]
pub(crate) enum Turn<'a, B: Drop, R: Drop> {
    Onward(Open<'a, B>),
    End(R),
}

// The children of a node, none of a leaf.
pub(crate) fn children_of(tree: &Tree) -> &[Tree]
    ensures { map plain result.now ≡ below_node (plain tree.now) }
{
    match tree {
        Tree::Leaf(_) => &[],
        Tree::Node(_, children, _) => &children.list,
    }
}
