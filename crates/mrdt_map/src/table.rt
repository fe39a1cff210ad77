// The entries of a map, in the order of their keys.
ghost use Rattle.std.specs.Prelude.{◌≡◌, [], ℕ, List, Some, IfOk, length, if◌then◌else◌};
ghost use Rattle.std.specs.List.{sum_by};
ghost use Rattle.std.specs.Option.{option_copied};
ghost use Rattle.std.specs.Map.{keys_of};
ghost use Rattle.std.specs.Cmp.Lexicographic.{slice_cmp};
ghost use Rattle.std.specs.Ordering.{nat_cmp};
ghost use Rattle.std.specs.List.Sorted.{IsStrictlySortedBy};
ghost use Rattle.mrdt_model.specs.Spelled.{capped};
ghost use Rattle.keyed_slots.specs.Slots.{slot_key, IsPlaceOf, IsFound};
ghost use Rattle.mrdt_map.specs.Keyed.{same_key, value_at};
ghost use Rattle.mrdt_map.specs.Slots.{entry_size};

use crate::inner::Inner;
use crate::slot::Slot;
use keyed_slots::{place_of, slot_at};
use mrdt_model::{Bytes, Memory, Shared};
use shared_list::{SharedList, Walk, from_vec};
use std::alloc::Global;
use std::marker::Model;

// Entries whose keys rise. Versions share what they have in common.
#[derive(Drop)]
pub(crate) struct Table<T: Inner> {
    entries: SharedList<Slot<T>>,
}

impl<T: Inner> Model for Table<T> {
    ghost use Rattle.std.specs.Prelude.{List, ℕ};
    ghost use Rattle.std.specs.Map.{keys_of};
    ghost use Rattle.std.specs.Cmp.Lexicographic.{slice_cmp};
    ghost use Rattle.std.specs.Ordering.{nat_cmp};
    ghost use Rattle.std.specs.List.Sorted.{IsStrictlySortedBy};

    ghost Value = { List (List ℕ × T) };

    ghost view = { λ t. t.entries };

    ghost invariant = { λ t. IsStrictlySortedBy (slice_cmp nat_cmp) (keys_of t.entries) };
}

impl<T: Inner> Table<T> {
    // No entries.
    pub(crate) fn new(alloc: Global) -> Table<T>
        ensures { result ≡ [] }
    {
        Table {
            entries: SharedList::new(alloc),
        }
    }

    // A table of entries whose keys rise.
    pub(crate) fn from_slots(alloc: Global, slots: Vec<Slot<T>>) -> Result<Table<T>, Memory>
        requires { IsStrictlySortedBy (slice_cmp nat_cmp) (keys_of slots.items) }
        ensures { IfOk result (λ table. table ≡ slots.items) }
    {
        Ok(Table {
            entries: from_vec(alloc, slots)?,
        })
    }

    // The same table. It takes no memory.
    pub(crate) fn copy(&self) -> Result<Table<T>, Memory>
        ensures { IfOk result (λ table. table ≡ self.now) }
    {
        Ok(Table {
            entries: self.entries.copy()?,
        })
    }

    // How many entries there are. Their keys rise.
    pub(crate) fn len(&self) -> u64
        ensures count { result ≡ length self.now }
        ensures ordered { IsStrictlySortedBy (slice_cmp nat_cmp) (keys_of self.now) }
    {
        self.entries.len()
    }

    // How many bytes the entries are spelled in, or 2^64 - 1 where there are more.
    pub(crate) fn size(&self) -> u64
        ensures { result ≡ capped (sum_by (entry_size T.meaning.state_spelling) self.now) }
    {
        self.entries.weight()
    }

    // A walk over the entries.
    pub(crate) fn walk(&self) -> Walk<'_, Slot<T>>
        ensures walk { result ≡ self.now }
        ensures ordered { IsStrictlySortedBy (slice_cmp nat_cmp) (keys_of self.now) }
    {
        Walk::new(&self.entries, 0)
    }

    // Where a key stands, or is to stand.
    pub(crate) fn place_of(&self, key: &Bytes) -> u64
        ensures { IsPlaceOf slot_key key.now self.now result }
    {
        place_of(&self.entries, key.as_slice())
    }

    // The entry at the place of a key, where it has that key.
    fn slot_at(&self, place: u64, key: &Bytes) -> Option<&Slot<T>>
        requires { IsPlaceOf slot_key key.now self.now place }
        ensures { IsFound slot_key key.now self.now place (option_copied result) }
    {
        slot_at(&self.entries, place, key.as_slice())
    }

    // The value at a key.
    pub(crate) fn get(&self, place: u64, key: &Bytes) -> Option<&Shared<T>>
        requires { IsPlaceOf slot_key key.now self.now place }
        ensures { option_copied result ≡ value_at self.now key.now }
    {
        match self.slot_at(place, key) {
            Some(slot) => Some(slot.value()),
            None => None,
        }
    }

    // The key, which is shared with the table where it stands there.
    pub(crate) fn own_key(
        &self,
        alloc: Global,
        place: u64,
        key: &Bytes,
    ) -> Result<Shared<Bytes>, Memory>
        requires { IsPlaceOf slot_key key.now self.now place }
        ensures { IfOk result (λ own. own ≡ key.now) }
    {
        match self.slot_at(place, key) {
            Some(slot) => slot.key().copy(),
            None => Shared::new(alloc, key.copy()?),
        }
    }

    // The table with this entry in the place of its key.
    pub(crate) fn with(&self, place: u64, slot: Slot<T>) -> Result<Table<T>, Memory>
        requires { IsPlaceOf slot_key slot.0 self.now place }
        ensures { IfOk result (λ table. (k : List ℕ) → value_at table k
            ≡ (if same_key slot.0 k then Some slot.1 else value_at self.now k)) }
    {
        match self.slot_at(place, slot.key().get()) {
            Some(_) => Ok(Table {
                entries: self.entries.replace(place, slot)?,
            }),
            None => Ok(Table {
                entries: self.entries.insert(place, slot)?,
            }),
        }
    }
}
