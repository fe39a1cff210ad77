// What a queue is asked and what it answers.
use live_set::Kept;
use mrdt_model::{Bytes, Listing};

/// An operation of a queue.
#[derive(Drop)]
pub enum QueueOp {
    /// Puts a payload behind all others.
    Enqueue(Bytes),
    /// Takes the first payload.
    Dequeue,
}

/// What an operation of a queue replies.
#[derive(Drop)]
pub enum QueueReply {
    /// The payload was put.
    Enqueued,
    /// There was no payload.
    Nothing,
    /// The payload that was the first, with the time of its enqueue.
    Took(Kept<Bytes>),
}

/// A query of a queue.
#[derive(Clone, Copy, Debug, PartialEq, Eq)]
pub enum QueueQuery {
    /// The first payload.
    Peek,
    /// The payloads, the first one first.
    Items,
    /// The number of the payloads.
    Length,
}

/// The answer to a query of a queue.
#[derive(Drop)]
pub enum QueueAnswer {
    /// The first payload with the time of its enqueue, if there is one.
    OnFirst(Option<Kept<Bytes>>),
    /// The payloads with the times of their enqueues.
    OnItems(Listing<Kept<Bytes>>),
    /// The number of the payloads.
    OnLength(u64),
}
