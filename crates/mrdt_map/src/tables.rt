// What a map does with its table.
ghost use Rattle.std.specs.Prelude.{◌≡◌, ◌++◌, ◌<◌, ◌^◌, ◌↔◌, List, ℕ, length, Some, false, IsTrue, IfOk, OnOk, OnErr, IsErrOf};
ghost use Rattle.std.specs.List.{flat_map};
ghost use Rattle.std.specs.Option.{option_copied, option_or, unwrap_or};
ghost use Rattle.std.specs.Map.{keys_of};
ghost use Rattle.std.specs.Cmp.Lexicographic.{slice_cmp};
ghost use Rattle.std.specs.Ordering.{nat_cmp};
ghost use Rattle.std.specs.List.Sorted.{IsStrictlySortedBy};
ghost use Rattle.mrdt_model.specs.Executions.{Event};
ghost use Rattle.mrdt_model.specs.Laws.{Lawful, Merges};
ghost use Rattle.mrdt_model.specs.Spelled.{AppendsPart, capped};
ghost use Rattle.keyed_slots.specs.Slots.{IsAbove, IsRest};
ghost use Rattle.mrdt_map.specs.Keyed.{same_key, value_at, StandsAt, MergesAt, AppliesAt, AreSameEntries, entry_spelling, entries_spelling, as_spelled, IsEntry, AreInOrder};
ghost use Rattle.mrdt_map.specs.MapLaws.{AreSameAt};
ghost use Rattle.mrdt_map.specs.Reading.{TakesEntry, AreTaken};
ghost use Rattle.mrdt_map.specs.Slots.{AppliesOn};

use crate::inner::Inner;
use crate::slot::Slot;
use crate::table::Table;
use branch_wire::{Cursor, put_bytes, put_u64};
use keyed_slots::{is_above, put_behind};
use mrdt_model::{Bytes, Listing, Memory, Shared, Time, Unread};
use shared_list::Walk;
use std::alloc::Global;

// Whether two entries have the same key and the same value.
fn is_same_slot<T: Inner>(slot: &Slot<T>, other: &Slot<T>) -> bool
    ensures same { IsTrue result
        ↔ ((slot.now.0 ≡ other.now.0) × T.meaning.is_same slot.now.1 other.now.1) }
    ensures spelled { slot.now.0 ≡ other.now.0
        → length (T.meaning.state_spelling slot.now.1) < 2 ^ 64
        → T.meaning.state_spelling slot.now.1 ≡ T.meaning.state_spelling other.now.1
        → IsTrue result }
{
    slot.key() == other.key() && slot.value().get().is_same(other.value().get())
}

// The value of a merge where the right side has another, and none where the right side has it already. A side
// that has the base's value is not merged.
fn merge_values<T: Inner>(
    alloc: Global,
    base: &T,
    left: &Shared<T>,
    right: &Shared<T>,
) -> Result<Option<Shared<T>>, Memory>
    ensures { IfOk result (λ m.
        Merges T.meaning base.now left.now right.now (unwrap_or m right.now)) }
{
    if base.is_same(left.get()) {
        return Ok(None);
    }
    if base.is_same(right.get()) {
        return Ok(Some(left.copy()?));
    }
    let merged = T::merged(base, left.get(), right.get())?;
    Ok(Some(Shared::new(alloc, merged)?))
}

// The same at a key that the left side has, from the values of the right side and the base there.
fn merge_with<T: Inner>(
    alloc: Global,
    base: Option<&Shared<T>>,
    left: &Shared<T>,
    right: Option<&Shared<T>>,
) -> Result<Option<Shared<T>>, Memory>
    ensures { IfOk result (λ m. MergesAt T.meaning (option_copied base.entry) (Some left.now)
        (option_copied right.entry) (option_or m (option_copied right.entry))) }
{
    match right {
        None => Ok(Some(left.copy()?)),
        Some(right) => match base {
            None => merge_values(alloc, &T::initial(alloc), left, right),
            Some(base) => merge_values(alloc, base.get(), left, right),
        },
    }
}

// The value at a key after an operation, and the reply.
fn apply_at<T: Inner>(
    alloc: Global,
    old: Option<&Shared<T>>,
    operation: &T::Op,
    time: Time,
) -> Result<(T, T::Reply), Memory>
    ensures known { IfOk result (λ r. T.meaning.is_op operation.now × T.meaning.is_reply r.1) }
    ensures applies { IfOk result (λ r.
        AppliesAt T.meaning (option_copied old.entry) operation.now time r.0 r.1) }
{
    match old {
        None => T::initial(alloc).applied(operation, time),
        Some(old) => old.get().applied(operation, time),
    }
}

// The answer of the value at a key.
fn answer_at<T: Inner>(
    alloc: Global,
    value: Option<&Shared<T>>,
    query: &T::Query,
) -> Result<T::Answer, Memory>
    ensures { IfOk result (λ a. (y : List (Event T.Op T.Reply)) → Lawful T.meaning y
        → StandsAt T.meaning.stands (option_copied value.entry) y
        → a ≡ T.meaning.answer_of y query.now) }
{
    match value {
        None => T::initial(alloc).answered(query),
        Some(value) => value.get().answered(query),
    }
}

// Whether the left side has the base's value at a key.
fn is_unchanged<T: Inner>(base: Option<&Shared<T>>, left: &Shared<T>) -> bool
    ensures { IsTrue result → AreSameAt T.meaning.is_same (option_copied base.entry) (Some left.now) }
{
    match base {
        None => false,
        Some(base) => base.get().is_same(left.get()),
    }
}

// The value at a key. It is the first that a walk has ahead, or is sought.
fn value_along<'a, T: Inner>(
    table: &'a Table<T>,
    walk: &mut Walk<'a, Slot<T>>,
    key: &Bytes,
) -> Option<&'a Shared<T>>
    requires { IsRest table.now walk.old }
    ensures value { option_copied result ≡ value_at table.now key.now }
    ensures along { IsRest table.now walk.new }
{
    let _count = table.len();
    if let Some(slot) = walk.first() {
        let same = slot.key().get() == key;
        if same {
            walk.skip();
            return Some(slot.value());
        }
    }
    table.get(table.place_of(key), key)
}

// The table of both sides, with what the left side changes at a key.
fn merged_at<T: Inner>(
    alloc: Global,
    base: Option<&Shared<T>>,
    mine: &Slot<T>,
    both: Table<T>,
) -> Result<Table<T>, Memory>
    ensures here { IfOk result (λ table. MergesAt T.meaning (option_copied base.entry)
        (Some mine.now.1) (value_at both mine.now.0) (value_at table mine.now.0)) }
    ensures others { IfOk result (λ table. (k : List ℕ) → same_key mine.now.0 k ≡ false
        → value_at table k ≡ value_at both k) }
{
    let own = mine.value();
    if is_unchanged(base, own) {
        return Ok(both);
    }
    let key = mine.key();
    let place = both.place_of(key.get());
    let right = both.get(place, key.get());
    let made = merge_with(alloc, base, own, right)?;
    match made {
        None => Ok(both),
        Some(value) => {
            let copy = key.copy()?;
            let slot = Slot::new(copy, value);
            both.with(place, slot)
        }
    }
}

// The table of both sides, with what the left side changes at the next key. A walk over the base goes along.
fn merge_key<'a, T: Inner>(
    alloc: Global,
    base: &'a Table<T>,
    olds: &mut Walk<'a, Slot<T>>,
    mine: &Slot<T>,
    both: Table<T>,
) -> Result<Table<T>, Memory>
    requires { IsRest base.now olds.old }
    ensures along { IsRest base.now olds.new }
    ensures here { IfOk result (λ table. MergesAt T.meaning (value_at base.now mine.now.0)
        (Some mine.now.1) (value_at both mine.now.0) (value_at table mine.now.0)) }
    ensures others { IfOk result (λ table. (k : List ℕ) → same_key mine.now.0 k ≡ false
        → value_at table k ≡ value_at both k) }
{
    let old = value_along(base, olds, mine.key().get());
    merged_at(alloc, old, mine, both)
}

// Writes a key and its value's spelling, each behind its length.
fn put_entry<T: Inner>(alloc: Global, slot: &Slot<T>, out: &mut Vec<u8>) -> Result<(), Memory>
    ensures ok { OnOk result (out.new.items
        ≡ out.old.items ++ entry_spelling T.meaning.state_spelling slot.now) }
    ensures err { OnErr result (AppendsPart out.old.items out.new.items
        (entry_spelling T.meaning.state_spelling slot.now)) }
{
    let own = slot.value().get();
    let name = slot.key().get();
    let mut spelling = Vec::new(alloc);
    own.put_state(&mut spelling)?;
    put_bytes(name.as_slice(), out)?;
    put_bytes(spelling.as_slice(), out)
}

// Takes an entry whose key is above those of all entries so far, and puts it behind them.
fn take_entry<T: Inner>(
    alloc: Global,
    cursor: &mut Cursor<'_>,
    slots: &mut Vec<Slot<T>>,
) -> Result<(), Unread>
    requires { IsStrictlySortedBy (slice_cmp nat_cmp) (keys_of slots.old.items) }
    ensures ok { OnOk result
        (TakesEntry T.meaning cursor.old slots.old.items cursor.new slots.new.items) }
    ensures outside { IsErrOf result Unread.NotCanonical → (e : List ℕ × List ℕ) (rest : List ℕ)
        → IsEntry T.meaning.is_state_spelling e → IsAbove e.0 (keys_of slots.old.items)
        → cursor.old ≡ entry_spelling as_spelled e ++ rest → ⊥ }
{
    let name = cursor.take_bytes()?;
    let text = cursor.take_bytes()?;
    let key = Bytes::from_slice(alloc, name)?;
    let _bytes = key.as_slice();
    let key = Shared::new(alloc, key)?;
    let value = Shared::new(alloc, T::get_state(alloc, text)?)?;
    if is_above(name, slots) {
        let slot = Slot::new(key, value);
        Ok(put_behind(slots, slot)?)
    } else {
        Err(Unread::NotCanonical)
    }
}

// Whether two tables have the same keys with the same values.
pub(crate) fn are_same<T: Inner>(left: &Table<T>, right: &Table<T>) -> bool
    ensures same { IsTrue result ↔ AreSameEntries T.meaning.is_same left.now right.now }
    ensures spelled { length (entries_spelling T.meaning.state_spelling left.now) < 2 ^ 64
        → entries_spelling T.meaning.state_spelling left.now
        ≡ entries_spelling T.meaning.state_spelling right.now → IsTrue result }
{
    let mut walk = left.walk();
    let mut others = right.walk();
    while let Some(slot) = walk.first() {
        match others.first() {
            None => return false,
            Some(other) => {
                if !is_same_slot(slot, other) {
                    return false;
                }
            }
        }
        walk.skip();
        others.skip();
    }
    others.first().is_none()
}

// The table after an operation on the value at a key, and the reply.
pub(crate) fn applied<T: Inner>(
    alloc: Global,
    table: &Table<T>,
    key: &Bytes,
    operation: &T::Op,
    time: Time,
) -> Result<(Table<T>, T::Reply), Memory>
    ensures known { IfOk result (λ made. T.meaning.is_op operation.now
        × T.meaning.is_reply made.1) }
    ensures applies { IfOk result (λ made. AppliesOn T.meaning key.now table.now
        operation.now time made.0 made.1) }
{
    let place = table.place_of(key);
    let old = table.get(place, key);
    let (value, reply) = apply_at(alloc, old, operation, time)?;
    let own = table.own_key(alloc, place, key)?;
    let shared = Shared::new(alloc, value)?;
    let slot = Slot::new(own, shared);
    let made = table.with(place, slot)?;
    let _count = made.len();
    Ok((made, reply))
}

// The answer of the value at a key.
pub(crate) fn answer_on<T: Inner>(
    alloc: Global,
    table: &Table<T>,
    key: &Bytes,
    query: &T::Query,
) -> Result<T::Answer, Memory>
    ensures { IfOk result (λ a. (y : List (Event T.Op T.Reply)) → Lawful T.meaning y
        → StandsAt T.meaning.stands (value_at table.now key.now) y
        → a ≡ T.meaning.answer_of y query.now) }
{
    let value = table.get(table.place_of(key), key);
    answer_at(alloc, value, query)
}

// The keys, in order.
pub(crate) fn keys_in_order<T: Inner>(
    alloc: Global,
    table: &Table<T>,
) -> Result<Listing<Bytes>, Memory>
    ensures { IfOk result (λ keys. keys ≡ keys_of table.now) }
{
    let mut all = Vec::new(alloc);
    let mut walk = table.walk();
    while let Some(slot) = walk.first() {
        all.push(slot.key().get().copy()?)?;
        walk.skip();
    }
    Ok(Listing::from_vec(all))
}

// The values of both sides: those of the right side, and what the left side changes of them.
pub(crate) fn merged<T: Inner>(
    alloc: Global,
    base: &Table<T>,
    left: &Table<T>,
    right: &Table<T>,
) -> Result<Table<T>, Memory>
    ensures values { IfOk result (λ table. (k : List ℕ)
        → MergesAt T.meaning (value_at base.now k) (value_at left.now k)
        (value_at right.now k) (value_at table k)) }
    ensures ordered { IfOk result (λ table.
        IsStrictlySortedBy (slice_cmp nat_cmp) (keys_of table)) }
{
    let mut both = right.copy()?;
    let mut olds = base.walk();
    let mut walk = left.walk();
    while let Some(mine) = walk.first() {
        both = merge_key(alloc, base, &mut olds, mine, both)?;
        walk.skip();
    }
    let _count = both.len();
    Ok(both)
}

// Writes the count of the entries, and the entries in the order of their keys.
pub(crate) fn put_entries<T: Inner>(
    alloc: Global,
    table: &Table<T>,
    out: &mut Vec<u8>,
) -> Result<(), Memory>
    ensures ok { OnOk result (out.new.items
        ≡ out.old.items ++ entries_spelling T.meaning.state_spelling table.now) }
    ensures err { OnErr result (AppendsPart out.old.items out.new.items
        (entries_spelling T.meaning.state_spelling table.now)) }
{
    put_u64(table.len(), out)?;
    let mut walk = table.walk();
    while let Some(slot) = walk.first() {
        put_entry(alloc, slot, out)?;
        walk.skip();
    }
    Ok(())
}

// How many bytes the count and the entries have, or 2^64 - 1 where they have more.
pub(crate) fn table_length<T: Inner>(table: &Table<T>) -> u64
    ensures { result ≡ capped (length
        (entries_spelling T.meaning.state_spelling table.now)) }
{
    table.size().saturating_add(8)
}

// Takes this many entries, whose keys rise.
pub(crate) fn take_entries<T: Inner>(
    alloc: Global,
    cursor: &mut Cursor<'_>,
    count: u64,
) -> Result<Table<T>, Unread>
    ensures ok { IfOk result (λ table.
        AreTaken T.meaning cursor.old count cursor.new table) }
    ensures outside { IsErrOf result Unread.NotCanonical
        → (es : List (List ℕ × List ℕ)) (rest : List ℕ)
        → AreInOrder T.meaning.is_state_spelling es → length es ≡ count
        → cursor.old ≡ flat_map (entry_spelling as_spelled) es ++ rest → ⊥ }
{
    let mut slots = Vec::new(alloc);
    for _index in 0..count {
        take_entry(alloc, cursor, &mut slots)?;
    }
    Ok(Table::from_slots(alloc, slots)?)
}
