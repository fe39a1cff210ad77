// The view that goes with a seat.
use std::collections::LinkedList;

/// What one seat at the word knows. It stands in proofs alone: no value of it is ever made.
pub(crate) struct SeatView<M> {
    /// It is the writer's.
    pub(crate) writes: bool,
    /// The entries that it has seen, from the first that came after the front was made.
    pub(crate) moves: LinkedList<M>,
    /// The lengths of the history at which its own entries landed.
    pub(crate) mine: LinkedList<u64>,
    /// Those at which the entries of the views landed that were joined to it.
    pub(crate) others: LinkedList<u64>,
    /// The disk's faults as last seen.
    pub(crate) faults: u64,
    /// Its share of the front's parts.
    pub(crate) parts: u64,
    /// The number of entries that landed by it and by the views that were joined to it.
    pub(crate) receipts: u64,
    /// The list of the view that was last joined to it, or its own where that one was longer.
    pub(crate) heard: LinkedList<M>,
    /// The faults of the view that was last joined to the writer's.
    pub(crate) heard_faults: u64,
}
