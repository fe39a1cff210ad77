// Bundles and their items.
use mrdt_model::{Bytes, Listing};

/// The objects of a commit.
#[derive(Drop)]
pub struct Item {
    /// Its place in the bundle, from 1.
    pub number: u64,
    /// The bytes of the object of its value; none where the layout keeps no values.
    pub value: Bytes,
    /// The bytes of its own object.
    pub commit: Bytes,
}

/// A commit's address, and items: that commit, and the commits before it that the receiver may lack.
#[derive(Drop)]
pub struct Bundle {
    /// The address.
    pub tip: [u8; 32],
    /// The items, each behind those of its parents.
    pub items: Listing<Item>,
}
