//! What grows of the nodes of a tree when an edge comes or goes, from the leaves up.
ghost use Rattle.std.specs.Prelude.{◌≡◌, ◌<◌, ◌≤◌, ◌+◌, ◌*◌, ◌∷◌, [], ◌++◌, ◌&&◌, ◌||◌, not, false, cond, nat_eq, ℕ, Bool, map, IfOk, List};
ghost use Rattle.std.specs.FinSet.{contains, insert, len, intersection};
ghost use Rattle.md_graph.specs.NameSet.{AllBelow};
ghost use Rattle.md_graph.specs.PlainGraph.{PlainGraph, adjacent};
ghost use Rattle.md_graph.specs.Sets.{Has};
ghost use Rattle.md_tree.specs.Parts.{below_node};
ghost use Rattle.md_tree.specs.Plain.{plain};
ghost use Rattle.md_tree.specs.Trees.{PlainTree, leaf};
ghost use Rattle.md_local.specs.declared.growing.Growth.TheVariants.{Whole};
ghost use Rattle.md_local.specs.Growing.{own_steps, IsOld, IsGrownFrom, IsGrownBelow, is_hanging, one_alone, added_to, quotient_names};
ghost use Rattle.md_local.specs.Substitution.{IsOverQuotient};
ghost use Rattle.md_local.specs.Walks.{IsWay, HasPassed, HasMore, HasTurned, steps_ahead, still_ahead, turns_ahead, turns_still_ahead};

use crate::hanging::substitute;
use crate::merging::{first_leaf, join};
use crate::part::{copied_pairs, decompose_part};
use crate::walking::{Open, Turn, children_of};
use md_graph::{GraphOf, Memory, Set, Steps};
use md_tree::Tree;
use std::alloc::Global;
use std::sync::ledger::Ledger;

// What has grown of a node: a tree, or where the node holds one end of the edge and not the other
// the trees that hang off the path from the node to that end.
#[derive(Drop)]
pub(crate) enum Growth {
    Whole(Tree),
    Hanging(Vec<Tree>),
}

// What has grown of a node, and whether the node holds the ends of the edge.
#[derive(Drop)]
pub(crate) struct Grown {
    pub growth: Growth,
    pub left: bool,
    pub right: bool,
}

// All that has grown of trees in a row in one list, and whether some hold the left end of the edge,
// some hold the right end, and one holds both.
#[derive(Drop)]
pub(crate) struct Below {
    pub list: Vec<Tree>,
    pub left: bool,
    pub right: bool,
    pub both: bool,
}

// A node none of whose children was looked at.
pub(crate) fn open_node<'a>(alloc: Global, tree: &'a Tree) -> Result<Open<'a, Below>, Memory>
    ensures tree { IfOk result (λ node. plain node.tree.now ≡ plain tree.now) }
    ensures rest { IfOk result (λ node.
        map plain node.rest.now ≡ below_node (plain tree.now)) }
    ensures below { IfOk result (λ node. (g : PlainGraph) (u v : ℕ)
        → IsGrownBelow g u v [] node.below) }
{
    let rest = children_of(tree);
    let list = Vec::with_capacity(alloc, rest.len())?;
    let below = Below {
        list,
        left: false,
        right: false,
        both: false,
    };
    Ok(Open { tree, rest, below })
}

// One turn of the walk over the tree of the graph before: down to the next child that is no leaf,
// or back up with what has grown of the node. `path` are the nodes above.
pub(crate) fn take_turn<'a, L: Ledger, const W: usize>(
    alloc: Global,
    graph: &GraphOf<W>,
    current: Open<'a, Below>,
    path: &mut Vec<Open<'a, Below>>,
    u: u32,
    v: u32,
    work: &mut Steps<L>,
) -> Result<Turn<'a, Below, Grown>, Memory>
    requires left { Has graph.now.vertices u }
    requires way { (e : ℕ → ℕ → Bool) × (t : PlainTree) × IsOld graph.now u v e t
        × IsWay (IsGrownBelow graph.now u v) t path.old.items current }
    ensures turn { IfOk result (λ turn. (t : PlainTree)
        → IsWay (IsGrownBelow graph.now u v) t path.old.items current.entry
        → HasTurned (IsGrownBelow graph.now u v) (IsGrownFrom graph.now u v) t
        path.new.items turn) }
    ensures fewer { IfOk result (λ turn. turns_still_ahead path.new.items turn
        < turns_ahead path.old.items current.entry) }
    ensures rest { IfOk result (λ turn.
        work.new + still_ahead (own_steps u v) (own_steps u v) path.new.items turn
        ≤ work.old + steps_ahead (own_steps u v) (own_steps u v) path.old.items current.entry) }
    ensures work { work.new
        ≤ work.old + steps_ahead (own_steps u v) (own_steps u v) path.old.items current.entry }
{
    let node = pass_leaves(alloc, current, u, v)?;
    let Open { tree, rest, below } = node;
    if let Some((child, rest)) = rest.split_first() {
        path.push(Open { tree, rest, below })?;
        return Ok(Turn::Onward(open_node(alloc, child)?));
    }
    let grown = grow(alloc, graph, tree, u, v, below, work)?;
    match path.pop() {
        Some(above) => Ok(Turn::Onward(with_grown(above, grown)?)),
        None => Ok(Turn::End(grown)),
    }
}

// The node when the leaves that come next are looked at.
fn pass_leaves<'a>(
    alloc: Global,
    node: Open<'a, Below>,
    u: u32,
    v: u32,
) -> Result<Open<'a, Below>, Memory>
    ensures { IfOk result (λ passed. (g : PlainGraph)
        → HasPassed (IsGrownBelow g u v) node.entry passed) }
{
    let Open {
        tree,
        mut rest,
        mut below,
    } = node;
    while let Some((Tree::Leaf(name), others)) = rest.split_first() {
        add_leaf(alloc, &mut below, *name, u, v)?;
        rest = others;
    }
    Ok(Open { tree, rest, below })
}

// Adds what grows of a leaf.
fn add_leaf(alloc: Global, below: &mut Below, name: u32, u: u32, v: u32) -> Result<(), Memory>
    ensures { IfOk result (λ _. (g : PlainGraph) (ts : List PlainTree)
        → IsGrownBelow g u v ts below.old → IsGrownBelow g u v (ts ++ leaf name ∷ []) below.new) }
{
    if is_end(name, u, v) {
        return add_grown(below, leaf_grown(alloc, name, u, v));
    }
    below.list.push(Tree::Leaf(name))?;
    Ok(())
}

// Whether a name is one of the ends of the edge.
fn is_end(name: u32, u: u32, v: u32) -> bool
    ensures { result ≡ (nat_eq name u || nat_eq name v) }
{
    (name == u) | (name == v)
}

// Adds what has grown of one more tree.
fn add_grown(below: &mut Below, grown: Grown) -> Result<(), Memory>
    ensures { IfOk result (λ _. (g : PlainGraph) (u v : ℕ) (ts : List PlainTree) (t : PlainTree)
        → IsGrownBelow g u v ts below.old → IsGrownFrom g u v t grown
        → IsGrownBelow g u v (ts ++ t ∷ []) below.new) }
{
    let Grown {
        growth,
        left,
        right,
    } = grown;
    add(&mut below.list, growth)?;
    below.both = below.both | (left & right);
    below.left = below.left | left;
    below.right = below.right | right;
    Ok(())
}

// The node above, with what has grown of its child.
fn with_grown<'a>(above: Open<'a, Below>, grown: Grown) -> Result<Open<'a, Below>, Memory>
    ensures { IfOk result (λ node. (g : PlainGraph) (u v : ℕ) (t : PlainTree)
        → IsGrownFrom g u v t grown → HasMore (IsGrownBelow g u v) t above.entry node) }
{
    let Open {
        tree,
        rest,
        mut below,
    } = above;
    add_grown(&mut below, grown)?;
    Ok(Open { tree, rest, below })
}

// What grows of a node whose children have grown.
fn grow<L: Ledger, const W: usize>(
    alloc: Global,
    graph: &GraphOf<W>,
    node: &Tree,
    u: u32,
    v: u32,
    below: Below,
    work: &mut Steps<L>,
) -> Result<Grown, Memory>
    requires left { Has graph.now.vertices u }
    requires old { (e : ℕ → ℕ → Bool) × IsOld graph.now u v e (plain node.now) }
    requires below { IsGrownBelow graph.now u v (below_node (plain node.now)) below }
    ensures grown { IfOk result (λ grown. IsGrownFrom graph.now u v (plain node.now) grown) }
    ensures work { work.new ≤ work.old + own_steps u v (plain node.now) }
{
    match node {
        Tree::Leaf(name) => Ok(leaf_grown(alloc, *name, u, v)),
        Tree::Node(kind, _, edges) => {
            let apart = ends_apart(&below);
            let Below {
                list,
                left,
                right,
                both: _,
            } = below;
            if apart {
                let tree = fresh(alloc, graph, list, u, v, work)?;
                return Ok(Grown {
                    growth: Growth::Whole(tree),
                    left,
                    right,
                });
            }
            if is_one_alone(left, right) {
                return Ok(Grown {
                    growth: Growth::Hanging(list),
                    left,
                    right,
                });
            }
            let edges = copied_pairs(alloc, edges)?;
            let tree = join(alloc, *kind, edges, list)?;
            Ok(Grown {
                growth: Growth::Whole(tree),
                left,
                right,
            })
        }
    }
}

// What grows of a leaf.
fn leaf_grown(alloc: Global, name: u32, u: u32, v: u32) -> Grown
    ensures { (g : PlainGraph) → IsGrownFrom g u v (leaf name) result }
{
    let left = name == u;
    let right = name == v;
    if is_one_alone(left, right) {
        return Grown {
            growth: Growth::Hanging(Vec::new(alloc)),
            left,
            right,
        };
    }
    Grown {
        growth: Growth::Whole(Tree::Leaf(name)),
        left,
        right,
    }
}

// The tree that has grown of a node that holds both ends of the edge, or none.
pub(crate) fn whole_tree(grown: Grown) -> Tree
    requires { is_hanging grown.growth ≡ false }
    ensures { grown.growth ≡ Whole result }
{
    match grown.growth {
        Growth::Whole(tree) => tree,
        Growth::Hanging(_) => unreachable!(),
    }
}

// Whether one of both holds, and the other doesn't.
fn is_one_alone(left: bool, right: bool) -> bool
    ensures { result ≡ one_alone left right }
{
    if left { !right } else { right }
}

// Whether the trees hold both ends, and none holds both.
fn ends_apart(below: &Below) -> bool
    ensures { result ≡ ((below.now.left && below.now.right) && not below.now.both) }
{
    below.left & below.right & !below.both
}

// Appends a tree; trees that hang stay where they are, and those of the list come behind them: on a
// long path these are the fewer.
fn add(list: &mut Vec<Tree>, growth: Growth) -> Result<(), Memory>
    ensures { IfOk result (λ _. map plain list.new.items
        ≡ added_to (map plain list.old.items) growth) }
{
    match growth {
        Growth::Whole(tree) => {
            list.push(tree)?;
            Ok(())
        }
        Growth::Hanging(mut trees) => {
            trees.append(list)?;
            *list = trees;
            Ok(())
        }
    }
}

// The tree of the graph on the names of the trees and the two ends, where each of the trees is that
// of a module: only their heads and the ends are decomposed.
fn fresh<L: Ledger, const W: usize>(
    alloc: Global,
    graph: &GraphOf<W>,
    hanging: Vec<Tree>,
    u: u32,
    v: u32,
    work: &mut Steps<L>,
) -> Result<Tree, Memory>
    requires vertex { Has graph.now.vertices u }
    ensures tree { IfOk result (λ tree. IsOverQuotient (adjacent graph.now)
        (intersection graph.now.vertices (quotient_names (map plain hanging.items) u v))
        (map plain hanging.items) (plain tree)) }
    ensures work { work.new ≤ work.old + len (quotient_names (map plain hanging.items) u v) }
{
    let _vertices = graph.vertices();
    let names = vertices_of(graph, &hanging, u, v);
    match decompose_part(alloc, graph, &names, work)? {
        Some(quotient) => substitute(alloc, quotient, hanging),
        None => unreachable!(),
    }
}

// The heads of the trees and the two ends, as far as they are vertices.
fn vertices_of<const W: usize>(graph: &GraphOf<W>, hanging: &[Tree], u: u32, v: u32) -> Set<W>
    ensures { result ≡ intersection graph.now.vertices
        (quotient_names (map plain hanging.now) u v) }
{
    let vertices = graph.vertices();
    let mut names = Set::none();
    insert_vertex(vertices, u, &mut names);
    insert_vertex(vertices, v, &mut names);
    for tree in hanging {
        insert_vertex(vertices, first_leaf(tree), &mut names);
    }
    names
}

// Inserts a name, where it is one of the vertices.
fn insert_vertex<const W: usize>(vertices: &Set<W>, name: u32, names: &mut Set<W>)
    requires below { AllBelow vertices.now (64 * W) }
    ensures { names.new ≡ cond (contains vertices.now name) (insert names.old name) names.old }
{
    if vertices.has(name) {
        names.insert(name);
    }
}
