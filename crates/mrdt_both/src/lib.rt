//! The product of two types that merge: what is said of a side is what its type says over the operations on that
//! side.
#![tactic(auto)]

pub mod both;
pub mod laws;
mod part;

pub use both::{Both, Side};
