//! Sessions on trivially perfect graphs and on threshold graphs: a graph that is kept in its class
//! under edits.
#![tactic(auto)]

mod answers;
mod items;
mod session;
mod undoing;

pub use answers::ClassAnswer;
pub use session::{ClassOpened, ClassOpenedOf, ClassSession, ClassSessionOf};
