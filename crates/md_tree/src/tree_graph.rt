//! The graph that a tree denotes.
ghost use Rattle.std.specs.Prelude.{◌≡◌, ◌≢◌, ◌+◌, ◌<◌, ◌≤◌, ℕ, ◌||◌, Contains, length};
ghost use Rattle.std.specs.FinSet as set;
ghost use Rattle.md_graph.specs.Sets.{Has, Lacks, Within, Disjoint, only_name};
ghost use Rattle.md_graph.specs.NameSet.{AllBelow};
ghost use Rattle.md_graph.specs.PlainGraph.{adjacent, with_edge};
ghost use Rattle.md_tree.specs.Trees.{names, names_below, names_at, count, EachNodeBelow};
ghost use Rattle.md_tree.specs.Plain.{plain, plain_option, trees_of, row_of_children, row_from};
ghost use Rattle.md_tree.specs.WellFormed.{AreDisjoint, IsCanonicalNode, IsCanonicalTree, IsWellFormed};
ghost use Rattle.md_tree.specs.TreeGraph.{graph_of_tree};
ghost use Rattle.md_tree.specs.TreeEdges.{crosses, in_two, in_listed, edge_across, has_edge_in, has_edge_below};
ghost use Rattle.md_tree.specs.declared.Pair.{Pair};

use crate::{Children, Kind, QuotientEdges, Tree};
use md_graph::{Graph, NAMES};

/// Makes an empty graph the graph that a tree denotes: its vertices are the names of the tree, and
/// two of them are adjacent exactly where their least common node is series, or is prime and lists
/// the pair of the children that hold them.
/// Conditions: the tree is well-formed, and the graph has no vertices.
pub fn graph_of(tree: &Option<Tree>, graph: &mut Graph)
    requires well_formed { IsWellFormed (plain_option tree.now) }
    requires no_vertices { graph.old.vertices ≡ set.empty }
    ensures graph { graph.new ≡ graph_of_tree (plain_option tree.now) }
{
    let _vertices = graph.vertices();
    if let Some(tree) = tree {
        add_names(tree, graph);
        add_tree_edges(tree, graph);
    }
    let _vertices = graph.vertices();
}

#[cycle(vertices)]
fn add_names(tree: &Tree, graph: &mut Graph)
    requires names { AllBelow (names (plain tree.now)) NAMES }
    requires absent { Disjoint (names (plain tree.now)) graph.old.vertices }
    requires canonical { IsCanonicalTree (plain tree.now) }
    ensures vertices { graph.new.vertices ≡ set.union graph.old.vertices (names (plain tree.now)) }
    ensures edges { graph.new.edges ≡ graph.old.edges }
{
    match tree {
        Tree::Leaf(name) => graph.add_vertex(*name),
        Tree::Node(_, children, _) => add_names_below(children, graph),
    }
}

#[cycle(vertices)]
fn add_names_below(children: &Children, graph: &mut Graph)
    requires names { AllBelow (names_below (row_of_children children.now)) NAMES }
    requires absent { Disjoint (names_below (row_of_children children.now)) graph.old.vertices }
    requires apart { AreDisjoint (row_of_children children.now) }
    requires canonical { EachNodeBelow IsCanonicalNode (row_of_children children.now) }
    ensures vertices { graph.new.vertices
        ≡ set.union graph.old.vertices (names_below (row_of_children children.now)) }
    ensures edges { graph.new.edges ≡ graph.old.edges }
{
    for child in &children.list {
        add_names(child, graph);
    }
}

#[cycle(edges)]
fn add_tree_edges(tree: &Tree, graph: &mut Graph)
    requires inside { Within (names (plain tree.now)) graph.old.vertices }
    requires canonical { IsCanonicalTree (plain tree.now) }
    ensures vertices { graph.new.vertices ≡ graph.old.vertices }
    ensures edges { (x y : ℕ) → adjacent graph.new x y
        ≡ (adjacent graph.old x y || has_edge_in (plain tree.now) x y) }
{
    match tree {
        Tree::Leaf(_) => {}
        Tree::Node(kind, children, edges) => {
            add_edges_below(children, graph);
            add_edges_across(*kind, children, edges, graph);
        }
    }
}

#[cycle(edges)]
fn add_edges_below(children: &Children, graph: &mut Graph)
    requires inside { Within (names_below (row_of_children children.now)) graph.old.vertices }
    requires canonical { EachNodeBelow IsCanonicalNode (row_of_children children.now) }
    ensures vertices { graph.new.vertices ≡ graph.old.vertices }
    ensures edges { (x y : ℕ) → adjacent graph.new x y
        ≡ (adjacent graph.old x y || has_edge_below (row_of_children children.now) x y) }
{
    for child in &children.list {
        add_tree_edges(child, graph);
    }
}

// The edges between different children of a node.
fn add_edges_across(kind: Kind, children: &Children, edges: &QuotientEdges, graph: &mut Graph)
    requires inside { Within (names_below (row_of_children children.now)) graph.old.vertices }
    requires canonical { IsCanonicalNode kind (row_of_children children.now) edges.now.list.items }
    ensures vertices { graph.new.vertices ≡ graph.old.vertices }
    ensures edges { (x y : ℕ) → adjacent graph.new x y
        ≡ (adjacent graph.old x y
        || edge_across kind (row_of_children children.now) edges.now.list.items x y) }
{
    match kind {
        Kind::Parallel => {}
        Kind::Series => join_each_two(children, graph),
        Kind::Prime => join_listed(children, edges, graph),
    }
}

fn join_each_two(children: &Children, graph: &mut Graph)
    requires inside { Within (names_below (row_of_children children.now)) graph.old.vertices }
    requires apart { AreDisjoint (row_of_children children.now) }
    ensures vertices { graph.new.vertices ≡ graph.old.vertices }
    ensures edges { (x y : ℕ) → adjacent graph.new x y
        ≡ (adjacent graph.old x y || in_two (row_of_children children.now) x y) }
{
    for (i, child) in children.list.iter().enumerate() {
        join_later(child, children, i + 1, graph);
    }
}

// All edges between a tree and the children from a position on.
fn join_later(tree: &Tree, children: &Children, from: usize, graph: &mut Graph)
    requires inside { Within (names (plain tree.now)) graph.old.vertices }
    requires inside_later { Within (names_below (row_from children.now from)) graph.old.vertices }
    requires apart { Disjoint (names (plain tree.now)) (names_below (row_from children.now from)) }
    requires position { from ≤ length (trees_of children.now) }
    ensures vertices { graph.new.vertices ≡ graph.old.vertices }
    ensures edges { (x y : ℕ) → adjacent graph.new x y
        ≡ (adjacent graph.old x y
        || crosses (names (plain tree.now)) (names_below (row_from children.now from)) x y) }
{
    for later in &children.list[from..] {
        join_trees(tree, later, graph);
    }
}

fn join_listed(children: &Children, edges: &QuotientEdges, graph: &mut Graph)
    requires inside { Within (names_below (row_of_children children.now)) graph.old.vertices }
    requires apart { AreDisjoint (row_of_children children.now) }
    requires positions { (p : Pair) → Contains edges.now.list.items p
        → (p.low < p.high) × (p.high < count (row_of_children children.now)) }
    ensures vertices { graph.new.vertices ≡ graph.old.vertices }
    ensures edges { (x y : ℕ) → adjacent graph.new x y
        ≡ (adjacent graph.old x y
        || in_listed (row_of_children children.now) edges.now.list.items x y) }
{
    for pair in &edges.list {
        join_trees(
            &children.list[pair.low as usize],
            &children.list[pair.high as usize],
            graph,
        );
    }
}

// All edges between two trees.
#[cycle(trees)]
fn join_trees(left: &Tree, right: &Tree, graph: &mut Graph)
    requires inside_left { Within (names (plain left.now)) graph.old.vertices }
    requires inside_right { Within (names (plain right.now)) graph.old.vertices }
    requires apart { Disjoint (names (plain left.now)) (names (plain right.now)) }
    ensures vertices { graph.new.vertices ≡ graph.old.vertices }
    ensures edges { (x y : ℕ) → adjacent graph.new x y
        ≡ (adjacent graph.old x y
        || crosses (names (plain left.now)) (names (plain right.now)) x y) }
{
    match left {
        Tree::Leaf(name) => join_name(*name, right, graph),
        Tree::Node(_, children, _) => join_below(children, right, graph),
    }
}

#[cycle(trees)]
fn join_below(children: &Children, right: &Tree, graph: &mut Graph)
    requires inside_left { Within (names_below (row_of_children children.now)) graph.old.vertices }
    requires inside_right { Within (names (plain right.now)) graph.old.vertices }
    requires apart { Disjoint (names_below (row_of_children children.now))
        (names (plain right.now)) }
    ensures vertices { graph.new.vertices ≡ graph.old.vertices }
    ensures edges { (x y : ℕ) → adjacent graph.new x y
        ≡ (adjacent graph.old x y
        || crosses (names_below (row_of_children children.now)) (names (plain right.now)) x y) }
{
    for child in &children.list {
        join_trees(child, right, graph);
    }
}

// All edges between a name and a tree.
#[cycle(name)]
fn join_name(name: u32, tree: &Tree, graph: &mut Graph)
    requires vertex { Has graph.old.vertices name }
    requires inside { Within (names (plain tree.now)) graph.old.vertices }
    requires apart { Lacks (names (plain tree.now)) name }
    ensures vertices { graph.new.vertices ≡ graph.old.vertices }
    ensures edges { (x y : ℕ) → adjacent graph.new x y
        ≡ (adjacent graph.old x y || crosses (only_name name) (names (plain tree.now)) x y) }
{
    match tree {
        Tree::Leaf(other) => join_two(name, *other, graph),
        Tree::Node(_, children, _) => join_name_below(name, children, graph),
    }
}

#[cycle(name)]
fn join_name_below(name: u32, children: &Children, graph: &mut Graph)
    requires vertex { Has graph.old.vertices name }
    requires inside { Within (names_below (row_of_children children.now)) graph.old.vertices }
    requires apart { Lacks (names_below (row_of_children children.now)) name }
    ensures vertices { graph.new.vertices ≡ graph.old.vertices }
    ensures edges { (x y : ℕ) → adjacent graph.new x y
        ≡ (adjacent graph.old x y
        || crosses (only_name name) (names_below (row_of_children children.now)) x y) }
{
    for child in &children.list {
        join_name(name, child, graph);
    }
}

fn join_two(name: u32, other: u32, graph: &mut Graph)
    requires vertex { Has graph.old.vertices name }
    requires other_vertex { Has graph.old.vertices other }
    requires differ { name ≢ other }
    ensures { graph.new ≡ with_edge graph.old name other }
{
    if graph.has_edge(name, other) {
        return;
    }
    graph.add_edge(name, other);
}
