// The document.
use mrdt_both::Both;
use mrdt_counter::Counter;
use mrdt_flag::Flag;
use mrdt_log::Log;
use mrdt_map::Map;
use mrdt_model::Mrdt;
use mrdt_queue::Queue;
use mrdt_register::{Lww, Multi};
use mrdt_set::Set;

/// A map for each kind of value: counters, flags, registers of the last write, registers of several values, sets,
/// logs and queues.
pub type Product = Both<
    Map<Counter>,
    Both<Map<Flag>, Both<Map<Lww>, Both<Map<Multi>, Both<Map<Set>, Both<Map<Log>, Map<Queue>>>>>>,
>;

/// An operation of a document.
pub type DocOp = <Product as Mrdt>::Op;

/// A query of a document.
pub type DocQuery = <Product as Mrdt>::Query;

/// The reply to an operation of a document.
pub type DocReply = <Product as Mrdt>::Reply;

/// The answer to a query of a document.
pub type DocAnswer = <Product as Mrdt>::Answer;
