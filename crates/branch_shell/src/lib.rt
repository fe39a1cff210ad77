//! The commands of the store, from the words of the command line to a status. `read_clients` says whether the words say
//! clients. `run_clients` runs these, and it alone is passed what starts threads and waits for them; `run_alone` runs all
//! other commands.
#![tactic(auto)]

pub mod alone;
mod answer;
mod choose;
mod compact;
mod current;
mod generate;
mod head;
mod init;
mod kinded;
mod lines;
mod look;
mod receive;
mod script;
pub mod status;
pub mod together;
mod unopened;
mod upgrade;

pub use alone::{read_clients, run_alone};
pub use status::Status;
pub use together::run_clients;
