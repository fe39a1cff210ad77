// A node of a sequence.
use mrdt_model::{Bytes, Shared, Time};

/// What an insert put, with its place in the tree of inserts.
#[derive(Drop)]
pub struct Node {
    /// The time of the insert.
    pub time: Time,
    /// The time of the node that it was put behind, or none where it was put at the start.
    pub parent: Option<Time>,
    /// Whether it was deleted. It then has no payload.
    pub hidden: bool,
    /// What was put.
    pub payload: Shared<Bytes>,
}
