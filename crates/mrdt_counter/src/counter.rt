// The counter, its operations and its laws.
ghost use Rattle.std.specs.Prelude.{◌≡◌, ◌∷◌, [], IfOk};
ghost use Rattle.live_set.specs.Entries.{kept_times, IsRising, MergesEntries};
ghost use Rattle.mrdt_counter.specs.Counter.{sum_of};

use branch_wire::{Cursor, put_i64};
use live_set::{Live, unit_reply};
use mrdt_model::{Memory, Mrdt, Time, Unread};
use std::alloc::Global;
use std::marker::Model;

/// Amounts that operations add, of which a reset takes away those that it has seen. Contracts see the amounts that
/// no reset has seen with the times of their operations, by rising time.
#[derive(Drop)]
pub struct Counter {
    alloc: Global,
    adds: Live<i64>,
}

impl Model for Counter {
    ghost use Rattle.std.specs.Prelude.{List, ℤ};
    ghost use Rattle.live_set.specs.declared.kept.Kept.{Kept};

    ghost Value = { List (Kept ℤ) };

    ghost view = { λ c. c.adds };
}

/// An operation of a counter.
#[derive(Clone, Copy, Debug, PartialEq, Eq)]
pub enum CounterOp {
    /// Adds an amount, which may be negative.
    Add(i64),
    /// Takes away all amounts that it has seen.
    Reset,
}

/// A query of a counter or of a sum.
#[derive(Clone, Copy, Debug, PartialEq, Eq)]
pub enum CounterQuery {
    /// The sum of the amounts.
    Value,
}

impl Counter {
    /// The sum of the amounts that no reset has seen, with no wrapping. It takes no memory.
    pub fn value(&self) -> i128
        ensures { result ≡ sum_of self.now }
    {
        self.adds.amount()
    }

    // The counter with one amount more. It shares all entries that it had.
    fn with_add(&self, amount: i64, time: Time) -> Result<Counter, Memory>
        ensures merges { IfOk result (MergesEntries [] self.now (record {
          time = time;
          payload = amount;
        } ∷ [])) }
        ensures rising { IfOk result (λ counter. IsRising (kept_times counter)) }
    {
        Ok(Counter {
            alloc: self.alloc,
            adds: self.adds.with(time, amount)?,
        })
    }

    // The counter after a reset that has seen all. It takes no memory.
    fn reset(&self) -> Counter
        ensures { result ≡ [] }
    {
        Counter {
            alloc: self.alloc,
            adds: Live::new(self.alloc),
        }
    }
}

impl Mrdt for Counter {
    ghost use Rattle.mrdt_counter.specs.Counter.{counter_meaning};
    ghost use Rattle.mrdt_counter.specs.CounterLaws.{counter_laws};

    type Op = CounterOp;

    type Query = CounterQuery;

    type Answer = i128;

    type Reply = ();

    ghost meaning = { counter_meaning };

    fn initial(alloc: Global) -> Counter {
        Counter {
            alloc,
            adds: Live::new(alloc),
        }
    }

    fn copy(&self) -> Result<Counter, Memory> {
        Ok(Counter {
            alloc: self.alloc,
            adds: self.adds.copy()?,
        })
    }

    fn same(&self, other: &Counter) -> bool {
        self.adds.same(&other.adds)
    }

    fn apply(&self, op: &CounterOp, time: Time) -> Result<(Counter, ()), Memory> {
        match op {
            CounterOp::Add(amount) => Ok((self.with_add(*amount, time)?, ())),
            CounterOp::Reset => Ok((self.reset(), ())),
        }
    }

    fn merge(base: &Counter, left: &Counter, right: &Counter) -> Result<Counter, Memory> {
        Ok(Counter {
            alloc: left.alloc,
            adds: Live::merge(&base.adds, &left.adds, &right.adds)?,
        })
    }

    fn answer(&self, query: &CounterQuery) -> Result<i128, Memory> {
        match query {
            CounterQuery::Value => Ok(self.value()),
        }
    }

    fn put(&self, out: &mut Vec<u8>) -> Result<(), Memory> {
        self.adds.put(out)
    }

    fn spelled_length(&self) -> u64 {
        self.adds.spelled_length()
    }

    fn get(alloc: Global, bytes: &[u8]) -> Result<Counter, Unread> {
        Ok(Counter {
            alloc,
            adds: Live::get(alloc, bytes)?,
        })
    }

    fn put_op(op: &CounterOp, out: &mut Vec<u8>) -> Result<(), Memory> {
        match op {
            CounterOp::Add(amount) => put_i64(*amount, out),
            CounterOp::Reset => Ok(()),
        }
    }

    fn get_op(_alloc: Global, bytes: &[u8]) -> Result<CounterOp, Unread> {
        if bytes.is_empty() {
            return Ok(CounterOp::Reset);
        }
        let mut cursor = Cursor::new(bytes);
        let amount = cursor.take_i64()?;
        if cursor.is_at_end() {
            Ok(CounterOp::Add(amount))
        } else {
            Err(Unread::NotCanonical)
        }
    }

    fn put_reply(reply: &(), out: &mut Vec<u8>) -> Result<(), Memory> {
        unit_reply::put(reply, out)
    }

    fn get_reply(_alloc: Global, bytes: &[u8]) -> Result<(), Unread> {
        unit_reply::get(bytes)
    }

    ghost laws = { counter_laws };
}
