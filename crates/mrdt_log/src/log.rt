// The log, its operations and its laws.
ghost use Rattle.std.specs.Prelude.{◌≡◌, length, reverse, IfOk};
ghost use Rattle.mrdt_log.specs.Log.{payload_of, IsAppend};

use live_set::texts::push_texts;
use live_set::{Kept, Live, shared_text, unit_reply, whole_text};
use mrdt_model::{Bytes, Listing, Memory, Mrdt, Shared, Time, Unread};
use std::alloc::Global;
use std::marker::Model;

/// Payloads with the times of their appends. Contracts see them by rising time.
#[derive(Drop)]
pub struct Log {
    alloc: Global,
    entries: Live<Shared<Bytes>>,
}

impl Model for Log {
    ghost use Rattle.std.specs.Prelude.{List, ℕ};
    ghost use Rattle.live_set.specs.declared.kept.Kept.{Kept};

    ghost Value = { List (Kept (List ℕ)) };

    ghost view = { λ l. l.entries };
}

/// An operation of a log.
#[derive(Drop)]
pub enum LogOp {
    /// Appends a payload.
    Append(Bytes),
}

/// A query of a log.
#[derive(Clone, Copy, Debug, PartialEq, Eq)]
pub enum LogQuery {
    /// The payloads with their times, the newest time first.
    Read,
    /// The number of the payloads.
    Length,
}

/// The answer to a query of a log.
#[derive(Drop)]
pub enum LogAnswer {
    /// The payloads with their times.
    OnEntries(Listing<Kept<Bytes>>),
    /// The number of the payloads.
    OnLength(u64),
}

impl LogOp {
    /// What the operation appends.
    pub fn payload(&self) -> &Bytes
        ensures value { result.now ≡ payload_of self.now }
        ensures known { IsAppend self.now }
    {
        match self {
            LogOp::Append(payload) => {
                let _bytes = payload.as_slice();
                payload
            }
        }
    }
}

// Copies of the entries, the last one first.
fn newest_first(
    alloc: Global,
    entries: &Live<Shared<Bytes>>,
) -> Result<Listing<Kept<Bytes>>, Memory>
    ensures { IfOk result (λ list. list ≡ reverse entries.now) }
{
    let mut list = Vec::new(alloc);
    push_texts(entries, &mut list)?;
    list.reverse();
    Ok(Listing::from_vec(list))
}

impl Log {
    /// The number of the payloads.
    pub fn length(&self) -> u64
        ensures { result ≡ length self.now }
    {
        self.entries.len()
    }
}

impl Mrdt for Log {
    ghost use Rattle.mrdt_log.specs.Log.{log_meaning};
    ghost use Rattle.mrdt_log.specs.LogLaws.{log_laws};

    type Op = LogOp;

    type Query = LogQuery;

    type Answer = LogAnswer;

    type Reply = ();

    ghost meaning = { log_meaning };

    fn initial(alloc: Global) -> Log {
        Log {
            alloc,
            entries: Live::new(alloc),
        }
    }

    fn copy(&self) -> Result<Log, Memory> {
        Ok(Log {
            alloc: self.alloc,
            entries: self.entries.copy()?,
        })
    }

    fn same(&self, other: &Log) -> bool {
        self.entries.same(&other.entries)
    }

    fn apply(&self, op: &LogOp, time: Time) -> Result<(Log, ()), Memory> {
        let payload = shared_text(self.alloc, op.payload().as_slice())?;
        let log = Log {
            alloc: self.alloc,
            entries: self.entries.with(time, payload)?,
        };
        Ok((log, ()))
    }

    fn merge(base: &Log, left: &Log, right: &Log) -> Result<Log, Memory> {
        Ok(Log {
            alloc: left.alloc,
            entries: Live::merge(&base.entries, &left.entries, &right.entries)?,
        })
    }

    fn answer(&self, query: &LogQuery) -> Result<LogAnswer, Memory> {
        match query {
            LogQuery::Read => Ok(LogAnswer::OnEntries(newest_first(self.alloc, &self.entries)?)),
            LogQuery::Length => Ok(LogAnswer::OnLength(self.length())),
        }
    }

    fn put(&self, out: &mut Vec<u8>) -> Result<(), Memory> {
        self.entries.put(out)
    }

    fn spelled_length(&self) -> u64 {
        self.entries.spelled_length()
    }

    fn get(alloc: Global, bytes: &[u8]) -> Result<Log, Unread> {
        Ok(Log {
            alloc,
            entries: Live::get(alloc, bytes)?,
        })
    }

    fn put_op(op: &LogOp, out: &mut Vec<u8>) -> Result<(), Memory> {
        Ok(out.extend_from_slice(op.payload().as_slice())?)
    }

    fn get_op(alloc: Global, bytes: &[u8]) -> Result<LogOp, Unread> {
        Ok(LogOp::Append(whole_text(alloc, bytes)?))
    }

    fn put_reply(reply: &(), out: &mut Vec<u8>) -> Result<(), Memory> {
        unit_reply::put(reply, out)
    }

    fn get_reply(_alloc: Global, bytes: &[u8]) -> Result<(), Unread> {
        unit_reply::get(bytes)
    }

    ghost laws = { log_laws };
}
