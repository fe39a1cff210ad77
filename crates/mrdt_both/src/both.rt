// The product, its operations and its laws.
use crate::part::{InParts, Part};
use branch_wire::{Cursor, put_bytes};
use mrdt_model::{Memory, Mrdt, Time, Unread};
use std::alloc::Global;
use std::marker::Model;

const FIRST: u8 = 1;

const SECOND: u8 = 2;

/// An operation, a query, an answer or a reply of one of two sides.
#[derive(Drop)]
pub enum Side<X, Y> {
    /// One of the first side.
    First(X),
    /// One of the second side.
    Second(Y),
}

/// A value of each of two types. Contracts see the pair. Copies and merges share the values that they do not change.
#[derive(Drop)]
pub struct Both<A, B> {
    alloc: Global,
    first: Part<A>,
    second: Part<B>,
}

impl<A, B> Model for Both<A, B> {
    ghost Value = { A × B };

    ghost view = { λ b. (b.first, b.second) };
}

impl<A: Mrdt, B: Mrdt> Mrdt for Both<A, B> {
    ghost use Rattle.mrdt_both.specs.Sides.{both_meaning};
    ghost use Rattle.mrdt_both.specs.SidesLaws.{both_laws};

    type Op = Side<A::Op, B::Op>;

    type Query = Side<A::Query, B::Query>;

    type Answer = Side<A::Answer, B::Answer>;

    type Reply = Side<A::Reply, B::Reply>;

    ghost meaning = { both_meaning A.meaning B.meaning };

    fn initial(alloc: Global) -> Both<A, B> {
        Both {
            alloc,
            first: Part::own(A::initial(alloc)),
            second: Part::own(B::initial(alloc)),
        }
    }

    fn copy(&self) -> Result<Both<A, B>, Memory> {
        Ok(Both {
            alloc: self.alloc,
            first: A::copied(self.alloc, &self.first)?,
            second: B::copied(self.alloc, &self.second)?,
        })
    }

    fn same(&self, other: &Both<A, B>) -> bool {
        if !self.first.get().same(other.first.get()) {
            return false;
        }
        self.second.get().same(other.second.get())
    }

    fn apply(
        &self,
        op: &Side<A::Op, B::Op>,
        time: Time,
    ) -> Result<(Both<A, B>, Side<A::Reply, B::Reply>), Memory> {
        let alloc = self.alloc;
        match op {
            Side::First(op) => {
                let (value, reply) = self.first.get().apply(op, time)?;
                let first = Part::held(alloc, value)?;
                let second = B::copied(alloc, &self.second)?;
                Ok((
                    Both {
                        alloc,
                        first,
                        second,
                    },
                    Side::First(reply),
                ))
            }
            Side::Second(op) => {
                let (value, reply) = self.second.get().apply(op, time)?;
                let second = Part::held(alloc, value)?;
                let first = A::copied(alloc, &self.first)?;
                Ok((
                    Both {
                        alloc,
                        first,
                        second,
                    },
                    Side::Second(reply),
                ))
            }
        }
    }

    fn merge(
        base: &Both<A, B>,
        left: &Both<A, B>,
        right: &Both<A, B>,
    ) -> Result<Both<A, B>, Memory> {
        let alloc = left.alloc;
        Ok(Both {
            alloc,
            first: A::merged(alloc, &base.first, &left.first, &right.first)?,
            second: B::merged(alloc, &base.second, &left.second, &right.second)?,
        })
    }

    fn answer(
        &self,
        query: &Side<A::Query, B::Query>,
    ) -> Result<Side<A::Answer, B::Answer>, Memory> {
        match query {
            Side::First(query) => Ok(Side::First(self.first.get().answer(query)?)),
            Side::Second(query) => Ok(Side::Second(self.second.get().answer(query)?)),
        }
    }

    fn put(&self, out: &mut Vec<u8>) -> Result<(), Memory> {
        let mut spelling = Vec::new(self.alloc);
        self.first.get().put(&mut spelling)?;
        put_bytes(spelling.as_slice(), out)?;
        self.second.get().put(out)
    }

    fn spelled_length(&self) -> u64 {
        let first = self.first.get().spelled_length();
        let second = self.second.get().spelled_length();
        first.saturating_add(second).saturating_add(8)
    }

    fn get(alloc: Global, bytes: &[u8]) -> Result<Both<A, B>, Unread> {
        let mut cursor = Cursor::new(bytes);
        let first = A::get(alloc, cursor.take_bytes()?)?;
        let second = B::get(alloc, cursor.take_rest())?;
        Ok(Both {
            alloc,
            first: Part::held(alloc, first)?,
            second: Part::held(alloc, second)?,
        })
    }

    fn put_op(op: &Side<A::Op, B::Op>, out: &mut Vec<u8>) -> Result<(), Memory> {
        match op {
            Side::First(op) => {
                out.push(FIRST)?;
                A::put_op(op, out)
            }
            Side::Second(op) => {
                out.push(SECOND)?;
                B::put_op(op, out)
            }
        }
    }

    fn get_op(alloc: Global, bytes: &[u8]) -> Result<Side<A::Op, B::Op>, Unread> {
        match bytes.split_first() {
            Some((&FIRST, rest)) => Ok(Side::First(A::get_op(alloc, rest)?)),
            Some((&SECOND, rest)) => Ok(Side::Second(B::get_op(alloc, rest)?)),
            _ => Err(Unread::NotCanonical),
        }
    }

    fn put_reply(reply: &Side<A::Reply, B::Reply>, out: &mut Vec<u8>) -> Result<(), Memory> {
        match reply {
            Side::First(reply) => {
                out.push(FIRST)?;
                A::put_reply(reply, out)
            }
            Side::Second(reply) => {
                out.push(SECOND)?;
                B::put_reply(reply, out)
            }
        }
    }

    fn get_reply(alloc: Global, bytes: &[u8]) -> Result<Side<A::Reply, B::Reply>, Unread> {
        match bytes.split_first() {
            Some((&FIRST, rest)) => Ok(Side::First(A::get_reply(alloc, rest)?)),
            Some((&SECOND, rest)) => Ok(Side::Second(B::get_reply(alloc, rest)?)),
            _ => Err(Unread::NotCanonical),
        }
    }

    ghost laws = { both_laws A.meaning B.meaning A.laws B.laws };
}
