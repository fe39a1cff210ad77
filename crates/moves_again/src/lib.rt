//! Moves that are made again, one after the other, as a new store on an empty disk: each by the step of the machine that
//! makes it, until one is refused.
#![tactic(auto)]

mod again;
pub mod answers;

pub use again::make_again;
pub use answers::{MakeRefused, MoveRefused};
