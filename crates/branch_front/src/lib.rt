//! One history for many threads. A word counts it, one writer adds to it, and each caller carries a pass:
//! how much of the history it has seen, and which entries are its own.
//!
//! The history itself lies elsewhere. Here it is a list that only proofs see, of entries of any type.
#![tactic(auto)]

mod front;
mod pass;
mod rule;
mod seat_view;
mod steps;
mod told;
mod writer;

pub use front::Front;
pub use pass::Pass;
pub use told::Told;
pub use writer::Writer;
