//! Receiving a bundle: the commits that another store sent are taken one behind another, up to 64 together, and then a
//! branch is placed at the bundle's tip.
#![tactic(auto)]

pub mod answers;
mod left;
mod receiving;

pub use answers::{NotReceived, Placed};
pub use receiving::receive_bytes;
