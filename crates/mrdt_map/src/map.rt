// The map, its operations and its laws.
use crate::table::Table;
use crate::tables::{
    answer_on, applied, are_same, keys_in_order, merged, put_entries, table_length, take_entries,
};
use branch_wire::{Cursor, put_bytes};
use mrdt_model::{Bytes, Listing, Memory, Mrdt, Time, Unread};
use std::alloc::Global;
use std::marker::Model;

/// An operation on the value at a key.
#[derive(Drop)]
pub struct OnKey<O> {
    /// The key.
    pub key: Bytes,
    /// The operation on its value.
    pub operation: O,
}

/// A query of a map.
#[derive(Drop)]
pub enum MapQuery<Q> {
    /// A query of the value at a key. A key that no operation has touched answers as the initial value does.
    AtKey(Bytes, Q),
    /// The keys that operations have touched, in byte order.
    Keys,
}

/// The answer to a query of a map.
#[derive(Drop)]
pub enum MapAnswer<A> {
    /// What the value at the key answers.
    OnValue(A),
    /// The keys.
    OnKeys(Listing<Bytes>),
}

/// A value for each key that an operation has touched, also where that value is the initial one. Contracts see
/// the keys, in byte order, with their values. Copies and merges share the values that they do not change.
#[derive(Drop)]
pub struct Map<T: Mrdt> {
    alloc: Global,
    entries: Table<T>,
}

impl<T: Mrdt> Model for Map<T> {
    ghost use Rattle.std.specs.Prelude.{List, ℕ};

    ghost Value = { List (List ℕ × T) };

    ghost view = { λ m. m.entries };
}

impl<T: Mrdt> Mrdt for Map<T> {
    ghost use Rattle.mrdt_map.specs.Keyed.{map_meaning};
    ghost use Rattle.mrdt_map.specs.MapLaws.{map_laws};

    type Op = OnKey<T::Op>;

    type Query = MapQuery<T::Query>;

    type Answer = MapAnswer<T::Answer>;

    type Reply = T::Reply;

    ghost meaning = { map_meaning T.meaning };

    fn initial(alloc: Global) -> Map<T> {
        Map {
            alloc,
            entries: Table::new(alloc),
        }
    }

    fn copy(&self) -> Result<Map<T>, Memory> {
        Ok(Map {
            alloc: self.alloc,
            entries: self.entries.copy()?,
        })
    }

    fn same(&self, other: &Map<T>) -> bool {
        are_same(&self.entries, &other.entries)
    }

    fn apply(&self, op: &OnKey<T::Op>, time: Time) -> Result<(Map<T>, T::Reply), Memory> {
        let _bytes = op.key.as_slice();
        let alloc = self.alloc;
        let (entries, reply) = applied(alloc, &self.entries, &op.key, &op.operation, time)?;
        Ok((Map { alloc, entries }, reply))
    }

    fn merge(base: &Map<T>, left: &Map<T>, right: &Map<T>) -> Result<Map<T>, Memory> {
        if base.same(left) {
            return right.copy();
        }
        if base.same(right) {
            return left.copy();
        }
        Ok(Map {
            alloc: left.alloc,
            entries: merged(left.alloc, &base.entries, &left.entries, &right.entries)?,
        })
    }

    fn answer(&self, query: &MapQuery<T::Query>) -> Result<MapAnswer<T::Answer>, Memory> {
        match query {
            MapQuery::AtKey(key, query) => {
                Ok(MapAnswer::OnValue(answer_on(self.alloc, &self.entries, key, query)?))
            }
            MapQuery::Keys => Ok(MapAnswer::OnKeys(keys_in_order(self.alloc, &self.entries)?)),
        }
    }

    fn put(&self, out: &mut Vec<u8>) -> Result<(), Memory> {
        put_entries(self.alloc, &self.entries, out)
    }

    fn spelled_length(&self) -> u64 {
        table_length(&self.entries)
    }

    fn get(alloc: Global, bytes: &[u8]) -> Result<Map<T>, Unread> {
        let mut cursor = Cursor::new(bytes);
        let count = cursor.take_u64()?;
        let entries = take_entries(alloc, &mut cursor, count)?;
        if cursor.is_at_end() {
            Ok(Map { alloc, entries })
        } else {
            Err(Unread::NotCanonical)
        }
    }

    fn put_op(op: &OnKey<T::Op>, out: &mut Vec<u8>) -> Result<(), Memory> {
        put_bytes(op.key.as_slice(), out)?;
        T::put_op(&op.operation, out)
    }

    fn get_op(alloc: Global, bytes: &[u8]) -> Result<OnKey<T::Op>, Unread> {
        let mut cursor = Cursor::new(bytes);
        let key = Bytes::from_slice(alloc, cursor.take_bytes()?)?;
        let _bytes = key.as_slice();
        let operation = T::get_op(alloc, cursor.take_rest())?;
        Ok(OnKey { key, operation })
    }

    fn put_reply(reply: &T::Reply, out: &mut Vec<u8>) -> Result<(), Memory> {
        T::put_reply(reply, out)
    }

    fn get_reply(alloc: Global, bytes: &[u8]) -> Result<T::Reply, Unread> {
        T::get_reply(alloc, bytes)
    }

    ghost laws = { map_laws T.meaning T.laws };
}
