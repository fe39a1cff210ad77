//! The script language: what a line of a script says.
#![tactic(auto)]

mod branches;
mod form;
mod numbers;
pub mod step;
mod tables;
mod words;

pub use branches::Branches;
pub use form::read_line;
pub use step::{Line, LineRefused, Step};
