//! Lists that grow, kept in chunks of 1,024 entries that longer and shorter lists share. An entry is found by its
//! number, or by a key that it may have.
#![tactic(auto)]

mod chunk;
pub mod chunks;

pub use chunk::Entry;
pub use chunks::Chunks;
