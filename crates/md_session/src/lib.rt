//! Sessions: a graph that is kept under edits.
#![tactic(auto)]

mod cograph;
mod cograph_items;
mod general;
mod general_items;
mod local;
mod local_items;

pub use cograph::{Answer, CographSession, CographSessionOf, Opened, OpenedOf};
pub use cograph_items::ItemAnswer;
pub use general::{GeneralSession, GeneralSessionOf};
pub use local::{LocalSession, LocalSessionOf};
pub use local_items::LocalAnswer;
