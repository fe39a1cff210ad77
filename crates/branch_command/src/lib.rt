//! The commands of the program, read from the words of a command line.
#![tactic(auto)]

mod bundles;
pub mod command;
mod flag;
pub mod laws;
mod limits;
pub mod look;
mod table;
mod terms;
mod work;

pub use command::{Command, CommandRefused, Named, Sending, read_command};
pub use flag::{Flagged, read_flag};
pub use look::{At, Look};
