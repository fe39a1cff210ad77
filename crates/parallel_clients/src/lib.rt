//! Clients that share a store: each does the steps of its own script, beside the others.
#![tactic(auto)]

mod client;
pub mod clients;
pub mod gate;
mod landing;
pub mod laws;
pub mod outcome;
mod run;
mod sessions;
mod steps;
mod tries;

pub use clients::run_clients;
pub use gate::{Gate, OpenGate};
pub use outcome::{ClientRefusal, Outcome};
