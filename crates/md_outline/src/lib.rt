//! The outline of a tree: its nodes in the order of its text, without the pairs that they list.
#![tactic(auto)]

mod head_pairs;
mod outline;
mod outline_parts;
mod pair_space;
mod writer;

pub use head_pairs::put_row;
pub use outline::OutlinePart;
pub use outline_parts::{has_no_prime_part, tree_outline};
pub use pair_space::{HeadPlaces, PairSpace};
pub use writer::{RowSpace, push_text_by_rows};
