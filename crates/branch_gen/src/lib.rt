//! Generated work: scripts of drawn lines, and the drawn steps of clients that run side by side.
//!
//! Both are determined by a number: whoever knows it can make them again.
#![tactic(auto)]

pub mod clients;
mod draws;
mod pieces;
pub mod scripts;

pub use clients::client_steps;
pub use scripts::script_text;
