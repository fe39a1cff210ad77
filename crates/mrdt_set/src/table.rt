// The table of the elements and their live times.
ghost use Rattle.std.specs.Prelude.{◌≡◌, ◌≤◌, [], length, Some, None, is_some, IfOk};
ghost use Rattle.std.specs.List.{sum_by};
ghost use Rattle.std.specs.Option.{option_copied};
ghost use Rattle.mrdt_model.specs.Spelled.{capped};
ghost use Rattle.keyed_slots.specs.Slots.{slot_key, IsPlaceOf, IsFound, IsRest};
ghost use Rattle.mrdt_set.specs.Members.{member_size, times_at, AreInOrder, ChangesOnly};

use crate::slot::{Slot, Times};
use keyed_slots::{place_of, slot_at};
use mrdt_model::{Bytes, Memory, Shared};
use shared_list::{SharedList, Walk, from_vec};
use std::alloc::Global;
use std::marker::Model;

// Elements with their live times. Contracts see them in byte order. Versions share what they have in common.
#[derive(Drop)]
pub(crate) struct Table {
    entries: SharedList<Slot>,
}

impl Model for Table {
    ghost use Rattle.std.specs.Prelude.{List, ℕ};
    ghost use Rattle.live_set.specs.declared.kept.Kept.{Kept};
    ghost use Rattle.mrdt_set.specs.Members.{AreInOrder};

    ghost Value = { List (List ℕ × List (Kept (Unit {0}))) };

    ghost view = { λ t. t.entries };

    ghost invariant = { λ t. AreInOrder t.entries };
}

impl Table {
    // The table of no elements. It takes no memory.
    pub(crate) fn new(alloc: Global) -> Table
        ensures { result ≡ [] }
    {
        Table {
            entries: SharedList::new(alloc),
        }
    }

    // A table of members whose elements rise.
    pub(crate) fn from_slots(alloc: Global, slots: Vec<Slot>) -> Result<Table, Memory>
        requires { AreInOrder slots.items }
        ensures { IfOk result (λ table. table ≡ slots.items) }
    {
        Ok(Table {
            entries: from_vec(alloc, slots)?,
        })
    }

    // How many elements there are.
    pub(crate) fn size(&self) -> u64
        ensures size { result ≡ length self.now }
        ensures sorted { AreInOrder self.now }
    {
        self.entries.len()
    }

    // How many bytes the members are spelled in, or 2^64 - 1 where there are more.
    pub(crate) fn weight(&self) -> u64
        ensures { result ≡ capped (sum_by member_size self.now) }
    {
        self.entries.weight()
    }

    // The same table. It takes no memory.
    pub(crate) fn copy(&self) -> Result<Table, Memory>
        ensures { IfOk result (λ table. table ≡ self.now) }
    {
        Ok(Table {
            entries: self.entries.copy()?,
        })
    }

    // A walk over the members.
    pub(crate) fn walk(&self) -> Walk<'_, Slot>
        ensures walk { result ≡ self.now }
        ensures sorted { AreInOrder self.now }
    {
        Walk::new(&self.entries, 0)
    }

    // A walk over the members from the place of an element on.
    fn walk_from(&self, place: u64) -> Walk<'_, Slot>
        requires { place ≤ length self.now }
        ensures { IsRest self.now result }
    {
        Walk::new(&self.entries, place)
    }

    // Where an element stands, or is to stand.
    pub(crate) fn place_of(&self, element: &[u8]) -> u64
        ensures { IsPlaceOf slot_key element.now self.now result }
    {
        place_of(&self.entries, element)
    }

    // The member at the place of an element, where it is of that element.
    fn slot_at(&self, place: u64, element: &[u8]) -> Option<&Slot>
        requires { IsPlaceOf slot_key element.now self.now place }
        ensures { IsFound slot_key element.now self.now place (option_copied result) }
    {
        slot_at(&self.entries, place, element)
    }

    // The live times of the element at a place.
    fn times_at(&self, place: u64, element: &[u8]) -> Option<&Times>
        requires { IsPlaceOf slot_key element.now self.now place }
        ensures { option_copied result ≡ times_at self.now element.now }
    {
        match self.slot_at(place, element) {
            Some(slot) => Some(slot.times()),
            None => None,
        }
    }

    // The live times of an element.
    pub(crate) fn times(&self, element: &[u8]) -> Option<&Times>
        ensures { option_copied result ≡ times_at self.now element.now }
    {
        self.times_at(self.place_of(element), element)
    }

    // Whether the element is there.
    pub(crate) fn has(&self, element: &[u8]) -> bool
        ensures { result ≡ is_some (times_at self.now element.now) }
    {
        self.times(element).is_some()
    }

    // The element, which is shared with the table where it stands there.
    pub(crate) fn own_element(
        &self,
        alloc: Global,
        place: u64,
        element: &[u8],
    ) -> Result<Shared<Bytes>, Memory>
        requires { IsPlaceOf slot_key element.now self.now place }
        ensures { IfOk result (λ own. own ≡ element.now) }
    {
        match self.slot_at(place, element) {
            Some(slot) => slot.own().copy(),
            None => Shared::new(alloc, Bytes::from_slice(alloc, element)?),
        }
    }

    // The table with this member in the place of its element.
    pub(crate) fn with(&self, place: u64, slot: Slot) -> Result<Table, Memory>
        requires { IsPlaceOf slot_key slot.0 self.now place }
        ensures { IfOk result (ChangesOnly slot.0 (Some slot.1) self.now) }
    {
        match self.slot_at(place, slot.element()) {
            Some(_) => Ok(Table {
                entries: self.entries.replace(place, slot)?,
            }),
            None => Ok(Table {
                entries: self.entries.insert(place, slot)?,
            }),
        }
    }

    // The table without an element.
    pub(crate) fn without(&self, place: u64, element: &[u8]) -> Result<Table, Memory>
        requires { IsPlaceOf slot_key element.now self.now place }
        ensures { IfOk result (ChangesOnly element.now None self.now) }
    {
        match self.slot_at(place, element) {
            Some(_) => Ok(Table {
                entries: self.entries.remove(place)?,
            }),
            None => self.copy(),
        }
    }
}

// The live times of an element. Its member is the first that a walk has ahead, or is sought, and the walk goes on
// from there.
pub(crate) fn times_along<'a>(
    table: &'a Table,
    walk: &mut Walk<'a, Slot>,
    element: &[u8],
) -> Option<&'a Times>
    requires { IsRest table.now walk.old }
    ensures times { option_copied result ≡ times_at table.now element.now }
    ensures along { IsRest table.now walk.new }
{
    let _size = table.size();
    if let Some(slot) = walk.first() {
        let same = slot.element() == element;
        if same {
            walk.skip();
            return Some(slot.times());
        }
    }
    let place = table.place_of(element);
    *walk = table.walk_from(place);
    table.times_at(place, element)
}
