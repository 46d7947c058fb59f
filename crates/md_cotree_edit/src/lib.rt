//! Edits of a cotree in place: edges and vertices of its graph are added and deleted.
#![tactic(auto)]

mod climbing;
mod deletion;
mod edges;
mod ends;
mod finding;
mod insertion;
mod lifting;
mod marking;
mod relinking;

pub use deletion::del_vertex;
pub use edges::{NotCograph, add_edge, del_edge};
pub use insertion::add_vertex;
