//! The upgrade of a store: the moves of a store of the first version's files are made again, of today's documents, on an
//! empty second disk.
#![tactic(auto)]

pub mod answers;
mod documents;

pub use answers::UpgradeRefused;
pub use documents::upgrade;
