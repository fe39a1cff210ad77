// The queue and its laws.
ghost use Rattle.std.specs.Prelude.{◌≡◌, ◌++◌, ◌∷◌, [], length, IfOk};
ghost use Rattle.std.specs.Option.{option_copied};
ghost use Rattle.live_set.specs.Entries.{kept_times, AllBefore};
ghost use Rattle.mrdt_queue.specs.Queue.{IsReply, TakesFirst, first_of, reply_to};

use crate::op::{QueueAnswer, QueueOp, QueueQuery, QueueReply};
use crate::spelling::{get_op, get_reply, put_op, put_reply};
use live_set::texts::{own_copy, push_texts};
use live_set::{Kept, Live, shared_text};
use mrdt_model::{Bytes, Listing, Memory, Mrdt, Shared, Time, Unread};
use std::alloc::Global;
use std::marker::Model;

// A payload, which several queues may share, with the time of its enqueue.
type Entry = Kept<Shared<Bytes>>;

/// Payloads with the times of their enqueues. Contracts see them by rising time, which is the order in which
/// they are dequeued.
#[derive(Drop)]
pub struct Queue {
    alloc: Global,
    entries: Live<Shared<Bytes>>,
}

impl Model for Queue {
    ghost use Rattle.std.specs.Prelude.{List, ℕ};
    ghost use Rattle.live_set.specs.declared.kept.Kept.{Kept};

    ghost Value = { List (Kept (List ℕ)) };

    ghost view = { λ q. q.entries };
}

impl Queue {
    /// The number of the payloads.
    pub fn length(&self) -> u64
        ensures { result ≡ length self.now }
    {
        self.entries.len()
    }

    // Copies of the payloads, the first one first.
    fn content(&self) -> Result<Listing<Kept<Bytes>>, Memory>
        ensures { IfOk result (λ list. list ≡ self.now) }
    {
        let mut list = Vec::new(self.alloc);
        push_texts(&self.entries, &mut list)?;
        Ok(Listing::from_vec(list))
    }

    // A queue of the same payloads, which both share.
    fn shared(&self) -> Result<Queue, Memory>
        ensures { IfOk result (λ queue. queue ≡ self.now) }
    {
        Ok(Queue {
            alloc: self.alloc,
            entries: self.entries.copy()?,
        })
    }

    // The first payload.
    #[tactic(auto, using(crate::proofs::Firsts::first_of_get))]
    fn first(&self) -> Option<&Entry>
        ensures { option_copied result ≡ first_of self.now }
    {
        self.entries.first()
    }

    // The queue with a payload behind all others, where its time is after theirs. Else nothing changes.
    fn enqueued(&self, time: Time, payload: &Bytes) -> Result<Queue, Memory>
        ensures after { IfOk result (λ queue. AllBefore (kept_times self.now) time
            → queue ≡ self.now ++ record { time = time; payload = payload.now } ∷ []) }
        ensures early { IfOk result (λ queue. ¬ AllBefore (kept_times self.now) time
            → queue ≡ self.now) }
    {
        let mut entries = self.entries.copy()?;
        if entries.ends_before(time) {
            entries.add(time, shared_text(self.alloc, payload.as_slice())?)?;
        }
        Ok(Queue {
            alloc: self.alloc,
            entries,
        })
    }

    // The queue without its first payload, and that one.
    #[tactic(auto, using(crate::proofs::Firsts::takes_first, crate::proofs::Firsts::takes_none, crate::proofs::Firsts::has_first))]
    fn dequeued(&self) -> Result<(Queue, Option<Entry>), Memory>
        ensures { IfOk result (λ made. TakesFirst self.now made.1 made.0) }
    {
        match self.entries.first() {
            Some(kept) => {
                let first = kept.copy()?;
                let queue = Queue {
                    alloc: self.alloc,
                    entries: self.entries.without_first()?,
                };
                Ok((queue, Some(first)))
            }
            None => Ok((self.shared()?, None)),
        }
    }
}

// What a dequeue replies that found this payload first.
fn reply_of_dequeue(first: Option<Entry>) -> Result<QueueReply, Memory>
    ensures value { IfOk result (λ reply. reply ≡ reply_to first) }
    ensures known { IfOk result IsReply }
{
    match first {
        Some(kept) => {
            let taken = own_copy(&kept)?;
            let _bytes = taken.payload.as_slice();
            Ok(QueueReply::Took(taken))
        }
        None => Ok(QueueReply::Nothing),
    }
}

impl Mrdt for Queue {
    ghost use Rattle.mrdt_queue.specs.Queue.{queue_meaning};
    ghost use Rattle.mrdt_queue.specs.QueueLaws.{queue_laws};

    type Op = QueueOp;

    type Query = QueueQuery;

    type Answer = QueueAnswer;

    type Reply = QueueReply;

    ghost meaning = { queue_meaning };

    fn initial(alloc: Global) -> Queue {
        Queue {
            alloc,
            entries: Live::new(alloc),
        }
    }

    fn copy(&self) -> Result<Queue, Memory> {
        self.shared()
    }

    fn same(&self, other: &Queue) -> bool {
        self.entries.same(&other.entries)
    }

    fn apply(&self, op: &QueueOp, time: Time) -> Result<(Queue, QueueReply), Memory> {
        match op {
            QueueOp::Enqueue(payload) => {
                let _bytes = payload.as_slice();
                Ok((self.enqueued(time, payload)?, QueueReply::Enqueued))
            }
            QueueOp::Dequeue => {
                let (queue, first) = self.dequeued()?;
                let reply = reply_of_dequeue(first)?;
                Ok((queue, reply))
            }
        }
    }

    fn merge(base: &Queue, left: &Queue, right: &Queue) -> Result<Queue, Memory> {
        Ok(Queue {
            alloc: left.alloc,
            entries: Live::merge(&base.entries, &left.entries, &right.entries)?,
        })
    }

    fn answer(&self, query: &QueueQuery) -> Result<QueueAnswer, Memory> {
        match query {
            QueueQuery::Peek => match self.first() {
                Some(kept) => Ok(QueueAnswer::OnFirst(Some(own_copy(kept)?))),
                None => Ok(QueueAnswer::OnFirst(None)),
            },
            QueueQuery::Items => Ok(QueueAnswer::OnItems(self.content()?)),
            QueueQuery::Length => Ok(QueueAnswer::OnLength(self.length())),
        }
    }

    fn put(&self, out: &mut Vec<u8>) -> Result<(), Memory> {
        self.entries.put(out)
    }

    fn spelled_length(&self) -> u64 {
        self.entries.spelled_length()
    }

    fn get(alloc: Global, bytes: &[u8]) -> Result<Queue, Unread> {
        Ok(Queue {
            alloc,
            entries: Live::get(alloc, bytes)?,
        })
    }

    fn put_op(op: &QueueOp, out: &mut Vec<u8>) -> Result<(), Memory> {
        put_op(op, out)
    }

    fn get_op(alloc: Global, bytes: &[u8]) -> Result<QueueOp, Unread> {
        get_op(alloc, bytes)
    }

    fn put_reply(reply: &QueueReply, out: &mut Vec<u8>) -> Result<(), Memory> {
        put_reply(reply, out)
    }

    fn get_reply(alloc: Global, bytes: &[u8]) -> Result<QueueReply, Unread> {
        get_reply(alloc, bytes)
    }

    ghost laws = { queue_laws };
}
