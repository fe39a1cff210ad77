// Members as bytes: a count, and that many elements with their times.
ghost use Rattle.std.specs.Prelude.{◌≡◌, ◌++◌, List, ℕ, length, IfOk, OnOk, OnErr, IsErrOf};
ghost use Rattle.std.specs.List.{flat_map};
ghost use Rattle.std.specs.Map.{keys_of};
ghost use Rattle.mrdt_model.specs.Spelled.{AppendsPart, capped};
ghost use Rattle.keyed_slots.specs.Slots.{IsAbove};
ghost use Rattle.mrdt_set.specs.Members.{Times as SpecTimes};
ghost use Rattle.mrdt_set.specs.Members.{member_spelling, set_spelling, IsMember, AreInOrder};
ghost use Rattle.mrdt_set.specs.Reading.{TakesMember, AreTaken, AreRising};

use crate::slot::{Slot, Times};
use crate::table::Table;
use branch_wire::{Cursor, put_bytes, put_u64};
use keyed_slots::{is_above, put_behind};
use live_set::{Live, whole_text};
use mrdt_model::{Memory, Shared, Unread};
use std::alloc::Global;

// Writes an element, and its times.
fn put_member(element: &[u8], times: &Times, out: &mut Vec<u8>) -> Result<(), Memory>
    ensures ok { OnOk result (out.new.items
        ≡ out.old.items ++ member_spelling (element.now, times.now)) }
    ensures err { OnErr result (AppendsPart out.old.items out.new.items
        (member_spelling (element.now, times.now))) }
{
    put_bytes(element, out)?;
    times.put(out)
}

// Writes the count of the members, and the members in the order of their elements.
pub(crate) fn put_members(members: &Table, out: &mut Vec<u8>) -> Result<(), Memory>
    ensures ok { OnOk result (out.new.items ≡ out.old.items ++ set_spelling members.now) }
    ensures err { OnErr result (AppendsPart out.old.items out.new.items
        (set_spelling members.now)) }
{
    put_u64(members.size(), out)?;
    let mut walk = members.walk();
    while let Some(slot) = walk.first() {
        put_member(slot.element(), slot.times(), out)?;
        walk.skip();
    }
    Ok(())
}

// How many bytes the count and the members have, or 2^64 - 1 where they have more.
pub(crate) fn members_length(members: &Table) -> u64
    ensures { result ≡ capped (length (set_spelling members.now)) }
{
    members.weight().saturating_add(8)
}

// Takes a member whose element is above those of all members so far, and puts it behind them.
fn take_member(alloc: Global, cursor: &mut Cursor<'_>, slots: &mut Vec<Slot>) -> Result<(), Unread>
    requires { AreInOrder slots.old.items }
    ensures ok { OnOk result
        (TakesMember cursor.old slots.old.items cursor.new slots.new.items) }
    ensures outside { IsErrOf result Unread.NotCanonical → (e : List ℕ × SpecTimes) (rest : List ℕ)
        → IsMember e → IsAbove e.0 (keys_of slots.old.items)
        → cursor.old ≡ member_spelling e ++ rest → ⊥ }
{
    let element = cursor.take_bytes()?;
    let times = Live::take(alloc, cursor)?;
    if !times.any() {
        return Err(Unread::NotCanonical);
    }
    if is_above(element, slots) {
        let own = Shared::new(alloc, whole_text(alloc, element)?)?;
        let slot = Slot::new(own, times);
        Ok(put_behind(slots, slot)?)
    } else {
        Err(Unread::NotCanonical)
    }
}

// Takes this many members, whose elements rise.
pub(crate) fn take_members(
    alloc: Global,
    cursor: &mut Cursor<'_>,
    count: u64,
) -> Result<Table, Unread>
    ensures ok { IfOk result (AreTaken cursor.old count cursor.new) }
    ensures outside { IsErrOf result Unread.NotCanonical
        → (es : List (List ℕ × SpecTimes)) (rest : List ℕ) → AreRising es → length es ≡ count
        → cursor.old ≡ flat_map member_spelling es ++ rest → ⊥ }
{
    let mut slots = Vec::new(alloc);
    for _index in 0..count {
        take_member(alloc, cursor, &mut slots)?;
    }
    Ok(Table::from_slots(alloc, slots)?)
}
