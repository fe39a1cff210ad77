// A key with its value, as it stands in a table.
ghost use Rattle.std.specs.Prelude.{◌≡◌};
ghost use Rattle.mrdt_map.specs.Slots.{entry_size};

use crate::inner::Inner;
use keyed_slots::Keyed;
use mrdt_model::{Bytes, Memory, Shared};
use shared_list::Entry;
use std::marker::Model;

// How many bytes a key and its value's spelling have, each behind its length, or 2^64 - 1 where they have more.
fn entry_length<T: Inner>(key: &Shared<Bytes>, value: &Shared<T>) -> u64
    ensures { result ≡ entry_size T.meaning.state_spelling (key.now, value.now) }
{
    let own = value.get();
    let name = key.get();
    own.size()
        .saturating_add(name.as_slice().len() as u64)
        .saturating_add(16)
}

// A key with its value. Contracts see both.
#[derive(Drop)]
pub(crate) struct Slot<T: Inner> {
    key: Shared<Bytes>,
    value: Shared<T>,
    // how many bytes both are spelled in, or 2^64 - 1 where there are more
    size: u64,
}

impl<T: Inner> Model for Slot<T> {
    ghost use Rattle.std.specs.Prelude.{◌≡◌, List, ℕ};
    ghost use Rattle.mrdt_map.specs.Slots.{entry_size};

    ghost Value = { List ℕ × T };

    ghost view = { λ s. (s.key, s.value) };

    ghost invariant = { λ s. s.size ≡ entry_size T.meaning.state_spelling (s.key, s.value) };
}

impl<T: Inner> Slot<T> {
    // A key with a value.
    pub(crate) fn new(key: Shared<Bytes>, value: Shared<T>) -> Slot<T>
        ensures { result ≡ (key, value) }
    {
        let size = entry_length(&key, &value);
        Slot { key, value, size }
    }

    // The key.
    pub(crate) fn key(&self) -> &Shared<Bytes>
        ensures { result.now ≡ self.now.0 }
    {
        &self.key
    }

    // The value.
    pub(crate) fn value(&self) -> &Shared<T>
        ensures { result.now ≡ self.now.1 }
    {
        &self.value
    }
}

impl<T: Inner> Entry for Slot<T> {
    ghost use Rattle.std.specs.Prelude.{pos};
    ghost use Rattle.mrdt_map.specs.Slots.{entry_size};

    // how many bytes the entry is spelled in
    ghost weight_of = { entry_size T.meaning.state_spelling };

    ghost amount_of = { λ e. pos 0 };

    fn copy(&self) -> Result<Slot<T>, Memory> {
        Ok(Slot {
            key: self.key.copy()?,
            value: self.value.copy()?,
            size: self.size,
        })
    }

    fn weight(&self) -> u64 {
        self.size
    }

    fn amount(&self) -> i128 {
        0
    }
}

impl<T: Inner> Keyed for Slot<T> {
    ghost key_of = { λ e. e.0 };

    fn key_bytes(&self) -> &[u8] {
        let key = self.key.get();
        key.as_slice()
    }
}
