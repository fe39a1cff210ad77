// The plain forms: one case for each kind of value and operation, query, reply or answer of it.
use live_set::Kept;
use mrdt_model::{Bytes, Listing, Time};

/// The kinds of values. Every type with plain forms has values of each, but maybe none of sequences.
#[derive(Clone, Copy, Debug, PartialEq, Eq)]
pub enum Kind {
    /// Counters.
    Counter,
    /// Flags.
    Flag,
    /// Registers of the last write.
    Lww,
    /// Registers of several values.
    Multi,
    /// Sets.
    Set,
    /// Logs.
    Log,
    /// Queues.
    Queue,
    /// Sequences.
    Sequence,
}

/// An operation on the value of a kind at a key.
#[derive(Drop)]
pub enum PlainOp {
    /// Adds an amount to a counter.
    CounterAdd {
        key: Bytes,
        amount: i64,
    },
    /// Takes away all amounts of a counter that have been seen.
    CounterReset {
        key: Bytes,
    },
    /// Turns a flag on.
    FlagEnable {
        key: Bytes,
    },
    /// Turns a flag off where it has been seen on.
    FlagDisable {
        key: Bytes,
    },
    /// Sets a register of the last write.
    LwwSet {
        key: Bytes,
        payload: Bytes,
    },
    /// Sets a register of several values.
    MultiSet {
        key: Bytes,
        payload: Bytes,
    },
    /// Adds an element to a set.
    SetAdd {
        key: Bytes,
        element: Bytes,
    },
    /// Takes an element out of a set where it has been seen.
    SetRemove {
        key: Bytes,
        element: Bytes,
    },
    /// Takes all elements out of a set where they have been seen.
    SetClear {
        key: Bytes,
    },
    /// Appends a payload to a log.
    LogAppend {
        key: Bytes,
        payload: Bytes,
    },
    /// Puts a payload behind all others of a queue.
    QueueEnqueue {
        key: Bytes,
        payload: Bytes,
    },
    /// Takes the first payload of a queue.
    QueueDequeue {
        key: Bytes,
    },
    /// Puts a payload into a sequence, behind so many of its visible items.
    SequenceInsert {
        key: Bytes,
        place: u32,
        payload: Bytes,
    },
    /// Takes an item out of a sequence: the one behind so many of its visible items.
    SequenceDelete {
        key: Bytes,
        place: u32,
    },
}

/// A query of the value of a kind at a key, or one for all keys of a kind.
#[derive(Drop)]
pub enum PlainQuery {
    /// The sum of a counter.
    CounterValue { key: Bytes },
    /// Whether a flag is on.
    FlagIsOn { key: Bytes },
    /// The payload of a register of the last write.
    LwwGet { key: Bytes },
    /// The payloads of a register of several values.
    MultiValues { key: Bytes },
    /// Whether an element is in a set.
    SetContains { key: Bytes, element: Bytes },
    /// The elements of a set.
    SetMembers { key: Bytes },
    /// How many elements a set has.
    SetSize { key: Bytes },
    /// The payloads of a log with their times.
    LogRead { key: Bytes },
    /// The number of the payloads of a log.
    LogLength { key: Bytes },
    /// The first payload of a queue.
    QueuePeek { key: Bytes },
    /// The payloads of a queue.
    QueueItems { key: Bytes },
    /// The number of the payloads of a queue.
    QueueLength { key: Bytes },
    /// The payloads of a sequence with their times, in its order.
    SequenceRead { key: Bytes },
    /// The number of the visible items of a sequence.
    SequenceLength { key: Bytes },
    /// The keys of a kind that operations have touched.
    Keys(Kind),
}

/// The reply to an operation. All but those of queues and sequences reply only that they were done.
#[derive(Drop)]
pub enum PlainReply {
    /// A counter's operation was done.
    Counter,
    /// A flag's operation was done.
    Flag,
    /// The operation of a register of the last write was done.
    Lww,
    /// The operation of a register of several values was done.
    Multi,
    /// A set's operation was done.
    Set,
    /// A log's operation was done.
    Log,
    /// A payload was put into a queue.
    QueueEnqueued,
    /// What a queue's first payload was, with the time of its enqueue, if there was one.
    QueueTook(Option<Kept<Bytes>>),
    /// A sequence's operation was done, with the time of the item that it names: for an insert the item that the
    /// payload was put behind, or none where it was put at the start; for a delete the item that was taken out, or
    /// none where there was none.
    Sequence(Option<Time>),
}

/// The answer to the query of the same name.
#[derive(Drop)]
pub enum PlainAnswer {
    /// The sum of a counter.
    CounterValue(i128),
    /// Whether a flag is on.
    FlagIsOn(bool),
    /// The payload of a register of the last write, if one was set.
    LwwGet(Option<Bytes>),
    /// The payloads of a register of several values, the one that was set first standing first.
    MultiValues(Listing<Bytes>),
    /// Whether an element is in a set.
    SetContains(bool),
    /// The elements of a set, in byte order.
    SetMembers(Listing<Bytes>),
    /// How many elements a set has.
    SetSize(u64),
    /// The payloads of a log with their times, the newest time first.
    LogRead(Listing<Kept<Bytes>>),
    /// The number of the payloads of a log.
    LogLength(u64),
    /// The first payload of a queue with the time of its enqueue, if there is one.
    QueuePeek(Option<Kept<Bytes>>),
    /// The payloads of a queue with the times of their enqueues, the first one first.
    QueueItems(Listing<Kept<Bytes>>),
    /// The number of the payloads of a queue.
    QueueLength(u64),
    /// The payloads of a sequence with the times of their inserts, in its order.
    SequenceRead(Listing<Kept<Bytes>>),
    /// The number of the payloads of a sequence.
    SequenceLength(u64),
    /// The keys of a kind that operations have touched, in byte order.
    Keys(Kind, Listing<Bytes>),
}
