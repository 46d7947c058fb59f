//! The laws of forcing chains and orientations, each the contract of a function that does nothing.
//! They speak of any test of adjacency on finitely many names, so of a graph and of its complement.

ghost use Rattle.md_comparability.specs.Laws.{
  TriangleLemma,
  ClassesAreTransitive,
  LeastEdgeIsTransitive,
  ChainOrOrientation,
  ChainHasShortest,
  OneLeastEdgeOrientation,
  OrientationsGiveOrders,
  OrdersIfNoChain,
  SidesMeetPremises,
};

/// Let a, b, c be a triangle, and let b>c reach neither a>c nor b>a. Each arc u>v that b>c reaches
/// makes a triangle with a, where a>b reaches a>u and a>c reaches a>v.
pub fn triangle_lemma()
    ensures { TriangleLemma }
{}

/// A class that doesn't hold the reverse of its arc is transitive.
pub fn classes_are_transitive()
    ensures { ClassesAreTransitive }
{}

/// Where no arc reaches its reverse, the least-edge orientation is a transitive orientation.
pub fn least_edge_is_transitive()
    ensures { LeastEdgeIsTransitive }
{}

/// A graph has a forcing chain or a transitive orientation, and not both.
pub fn chain_or_orientation()
    ensures { ChainOrOrientation }
{}

/// A graph with a forcing chain has a shortest one.
pub fn chain_has_shortest()
    ensures { ChainHasShortest }
{}

/// There is one list of the arcs of the least-edge orientation in ascending order, and one alone.
pub fn one_least_edge_orientation()
    ensures { OneLeastEdgeOrientation }
{}

/// Transitive orientations of a graph and of its complement give two orders that realise the graph.
pub fn orientations_give_orders()
    ensures { OrientationsGiveOrders }
{}

/// Two orders realise a graph exactly where neither it nor its complement has a forcing chain.
pub fn orders_if_no_chain()
    ensures { OrdersIfNoChain }
{}

/// The adjacency of each graph and of its complement meets the premises of the laws.
pub fn sides_meet_premises()
    ensures { SidesMeetPremises }
{}
