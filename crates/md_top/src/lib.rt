//! The one call that does all that the program does.
#![tactic(auto)]

mod big;
mod check;
mod classes;
mod cographs;
mod convert;
mod directed;
mod err_line;
pub mod laws;
mod load;
mod put;
mod report;
mod request;
mod session;
mod short;
mod stop;
mod subject;
mod top;
mod undos;

pub use stop::Status;
pub use top::run;
