// The sum, its operations and its laws.
ghost use Rattle.std.specs.Prelude.{◌≡◌, ◌+ℤ◌, ◌-ℤ◌};
ghost use Rattle.std.specs.Int.{int_wrap, w128};
ghost use Rattle.mrdt_counter.specs.Sum.{amount as amount_of, IsAmount};

use crate::counter::CounterQuery;
use branch_wire::{Cursor, put_i64, put_i128};
use live_set::unit_reply;
use mrdt_model::{Memory, Mrdt, Time, Unread};
use std::alloc::Global;
use std::marker::Model;

/// A number that operations add to, which contracts see as that number. It wraps at 128 bits, which fewer
/// than 2^32 operations never reach.
#[derive(Drop)]
pub struct Sum {
    total: i128,
}

impl Model for Sum {
    ghost use Rattle.std.specs.Prelude.{ℤ};

    ghost Value = { ℤ };

    ghost view = { λ c. c.total };
}

/// An operation of a sum.
#[derive(Clone, Copy, Debug, PartialEq, Eq)]
pub enum SumOp {
    /// Adds an amount, which may be negative.
    Add(i64),
}

impl SumOp {
    /// What the operation adds.
    pub fn amount(&self) -> i64
        ensures value { result ≡ amount_of self.now }
        ensures known { IsAmount self.now }
    {
        match self {
            SumOp::Add(amount) => *amount,
        }
    }
}

impl Sum {
    /// The sum's number. It takes no memory.
    pub fn value(&self) -> i128
        ensures { result ≡ self.now }
    {
        self.total
    }

    /// The sum with an amount added. It takes no memory.
    pub fn added(&self, amount: i64) -> Sum
        ensures { result ≡ int_wrap w128 (self.now +ℤ amount) }
    {
        Sum {
            total: self.total.wrapping_add(i128::from(amount)),
        }
    }

    /// What both sides have added to the base, and the base. It takes no memory.
    pub fn merged(base: &Sum, left: &Sum, right: &Sum) -> Sum
        ensures { result ≡ int_wrap w128 ((left.now +ℤ right.now) -ℤ base.now) }
    {
        Sum {
            total: left
                .total
                .wrapping_add(right.total)
                .wrapping_sub(base.total),
        }
    }
}

impl Mrdt for Sum {
    ghost use Rattle.mrdt_counter.specs.Sum.{sum_meaning};
    ghost use Rattle.mrdt_counter.specs.SumLaws.{sum_laws};

    type Op = SumOp;

    type Query = CounterQuery;

    type Answer = i128;

    type Reply = ();

    ghost meaning = { sum_meaning };

    fn initial(_alloc: Global) -> Sum {
        Sum { total: 0 }
    }

    fn copy(&self) -> Result<Sum, Memory> {
        Ok(Sum { total: self.total })
    }

    fn same(&self, other: &Sum) -> bool {
        self.total == other.total
    }

    fn apply(&self, op: &SumOp, _time: Time) -> Result<(Sum, ()), Memory> {
        Ok((self.added(op.amount()), ()))
    }

    fn merge(base: &Sum, left: &Sum, right: &Sum) -> Result<Sum, Memory> {
        Ok(Sum::merged(base, left, right))
    }

    fn answer(&self, query: &CounterQuery) -> Result<i128, Memory> {
        match query {
            CounterQuery::Value => Ok(self.total),
        }
    }

    fn put(&self, out: &mut Vec<u8>) -> Result<(), Memory> {
        put_i128(self.total, out)
    }

    fn spelled_length(&self) -> u64 {
        16
    }

    fn get(_alloc: Global, bytes: &[u8]) -> Result<Sum, Unread> {
        let mut cursor = Cursor::new(bytes);
        let total = cursor.take_i128()?;
        if cursor.is_at_end() {
            Ok(Sum { total })
        } else {
            Err(Unread::NotCanonical)
        }
    }

    fn put_op(op: &SumOp, out: &mut Vec<u8>) -> Result<(), Memory> {
        put_i64(op.amount(), out)
    }

    fn get_op(_alloc: Global, bytes: &[u8]) -> Result<SumOp, Unread> {
        let mut cursor = Cursor::new(bytes);
        let amount = cursor.take_i64()?;
        if cursor.is_at_end() {
            Ok(SumOp::Add(amount))
        } else {
            Err(Unread::NotCanonical)
        }
    }

    fn put_reply(reply: &(), out: &mut Vec<u8>) -> Result<(), Memory> {
        unit_reply::put(reply, out)
    }

    fn get_reply(_alloc: Global, bytes: &[u8]) -> Result<(), Unread> {
        unit_reply::get(bytes)
    }

    ghost laws = { sum_laws };
}
