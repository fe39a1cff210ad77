// The elements of sets, and their live times after operations and merges.
ghost use Rattle.std.specs.Prelude.{◌≡◌, [], ◌∷◌, List, ℕ, Some, None, true, false, is_some, IsTrue, IfOk};
ghost use Rattle.std.specs.Option.{option_copied};
ghost use Rattle.std.specs.Map.{keys_of};
ghost use Rattle.live_set.specs.Entries.{kept_times, IsRising};
ghost use Rattle.keyed_slots.specs.Slots.{IsRest};
ghost use Rattle.mrdt_set.specs.Members.{same_element, times_at, some_times, all_times, AreInOrder, ChangesOnly, IsKept, IsMergedAt, AreMerged, IsRightMerged};

use crate::slot::{Slot, Times};
use crate::table::{Table, times_along};
use live_set::Live;
use mrdt_model::{Bytes, Listing, Memory, Shared, Time};
use shared_list::Walk;
use std::alloc::Global;

// Copies of the elements, in order.
pub(crate) fn elements_in_order(alloc: Global, members: &Table) -> Result<Listing<Bytes>, Memory>
    ensures { IfOk result (λ all. all ≡ keys_of members.now) }
{
    let mut all = Vec::new(alloc);
    let mut walk = members.walk();
    while let Some(slot) = walk.first() {
        all.push(Bytes::from_slice(alloc, slot.element())?)?;
        walk.skip();
    }
    Ok(Listing::from_vec(all))
}

// The same members, but for the times of one element, which leaves where there are none.
fn changed(
    alloc: Global,
    members: &Table,
    element: &[u8],
    times: Option<Times>,
) -> Result<Table, Memory>
    ensures { IfOk result (ChangesOnly element.now times members.now) }
{
    let place = members.place_of(element);
    match times {
        Some(times) => {
            let own = members.own_element(alloc, place, element)?;
            members.with(place, Slot::new(own, times))
        }
        None => members.without(place, element),
    }
}

// The same. The element is shared.
fn with_own(members: &Table, own: &Shared<Bytes>, times: Option<Times>) -> Result<Table, Memory>
    ensures { IfOk result (ChangesOnly own.now times members.now) }
{
    let name = own.get();
    let element = name.as_slice();
    let place = members.place_of(element);
    match times {
        Some(times) => {
            let mine = own.copy()?;
            members.with(place, Slot::new(mine, times))
        }
        None => members.without(place, element),
    }
}

// The same members, but for the times of one element, and the elements are in order.
pub(crate) fn with_times(
    alloc: Global,
    members: &Table,
    element: &[u8],
    times: Option<Times>,
) -> Result<Table, Memory>
    ensures times { IfOk result (ChangesOnly element.now times members.now) }
    ensures sorted { IfOk result AreInOrder }
{
    let table = changed(alloc, members, element, times)?;
    let _size = table.size();
    Ok(table)
}

// The times of an element that was added once.
pub(crate) fn first_times(alloc: Global, time: Time) -> Result<Times, Memory>
    ensures { IfOk result (λ times. times ≡ record { time = time; payload = tt } ∷ []) }
{
    let mut times = Live::new(alloc);
    times.add(time, ())?;
    Ok(times)
}

// The times, where there are some.
fn some_new(times: Times) -> Option<Times>
    ensures { result ≡ some_times times }
{
    if times.any() { Some(times) } else { None }
}

// The same times, where there are some.
fn some_shared(times: Option<&Times>) -> Result<Option<Times>, Memory>
    ensures some { IfOk result (λ shared.
        shared ≡ some_times (all_times (option_copied times.entry))) }
    ensures rising { IsRising (kept_times (all_times (option_copied times.entry))) }
{
    match times {
        Some(times) => {
            let _ahead = times.walk();
            Ok(some_new(times.copy()?))
        }
        None => Ok(None),
    }
}

// Whether an element has the same times, or none, in two tables.
fn have_same(times: Option<&Times>, others: Option<&Times>) -> bool
    ensures { IsTrue result → option_copied times.entry ≡ option_copied others.entry }
{
    match (times, others) {
        (Some(times), Some(others)) => times.same(others),
        (None, None) => true,
        _ => false,
    }
}

// The times of an element in a table, as they are.
fn all_of<'a>(times: Option<&'a Times>, none: &'a Times) -> &'a Times
    requires { none.now ≡ [] }
    ensures { result.now ≡ all_times (option_copied times.entry) }
{
    match times {
        Some(times) => times,
        None => none,
    }
}

// The merged times of an element of which both sides have changed the times, where there are some.
fn merged_anew(
    alloc: Global,
    base: Option<&Times>,
    left: Option<&Times>,
    right: Option<&Times>,
) -> Result<Option<Times>, Memory>
    ensures { IfOk result (IsMergedAt (option_copied base.entry)
        (option_copied left.entry) (option_copied right.entry)) }
{
    let none = Live::new(alloc);
    let times = Live::merge(
        all_of(base, &none),
        all_of(left, &none),
        all_of(right, &none),
    )?;
    Ok(some_new(times))
}

// The merged times of an element of which the right side has changed the times, where there are some. Where the left
// side has those of the base, they are the right side's, and both share them.
fn merged_times(
    alloc: Global,
    base: Option<&Times>,
    left: Option<&Times>,
    right: Option<&Times>,
) -> Result<Option<Times>, Memory>
    ensures { IfOk result (IsMergedAt (option_copied base.entry)
        (option_copied left.entry) (option_copied right.entry)) }
{
    if have_same(base, left) {
        some_shared(right)
    } else {
        merged_anew(alloc, base, left, right)
    }
}

// The tables of a merge.
#[derive(Clone, Copy)]
pub(crate) struct Sides<'a> {
    pub(crate) base: &'a Table,
    pub(crate) left: &'a Table,
    pub(crate) right: &'a Table,
}

// The table with the merged times at an element, where those of the left side stand.
fn merged_at(
    alloc: Global,
    both: Table,
    own: &Shared<Bytes>,
    base: Option<&Times>,
    right: Option<&Times>,
) -> Result<Table, Memory>
    ensures here { IfOk result (λ table. IsKept (times_at both own.now)
        → IsMergedAt (option_copied base.entry) (times_at both own.now)
        (option_copied right.entry) (times_at table own.now)) }
    ensures others { IfOk result (λ table. (k : List ℕ) → same_element own.now k ≡ false
        → times_at table k ≡ times_at both k) }
{
    if have_same(base, right) {
        return Ok(both);
    }
    let name = own.get();
    let times = merged_times(alloc, base, both.times(name.as_slice()), right)?;
    with_own(&both, own, times)
}

// The same at an element that the right side has. A walk over the base goes along.
fn merge_right<'a>(
    alloc: Global,
    base: &'a Table,
    olds: &mut Walk<'a, Slot>,
    slot: &Slot,
    both: Table,
) -> Result<Table, Memory>
    requires { IsRest base.now olds.old }
    ensures along { IsRest base.now olds.new }
    ensures here { IfOk result (λ table. IsKept (times_at both slot.now.0)
        → IsMergedAt (times_at base.now slot.now.0) (times_at both slot.now.0)
        (Some slot.now.1) (times_at table slot.now.0)) }
    ensures others { IfOk result (λ table. (k : List ℕ) → same_element slot.now.0 k ≡ false
        → times_at table k ≡ times_at both k) }
{
    let element = slot.element();
    let old = times_along(base, olds, element);
    merged_at(alloc, both, slot.own(), old, Some(slot.times()))
}

// The same at an element that the base has, where the right side has it no more. A walk over the right side goes
// along.
fn merge_gone<'a>(
    alloc: Global,
    right: &'a Table,
    news: &mut Walk<'a, Slot>,
    slot: &Slot,
    both: Table,
) -> Result<Table, Memory>
    requires { IsRest right.now news.old }
    ensures along { IsRest right.now news.new }
    ensures gone { IfOk result (λ table. times_at right.now slot.now.0 ≡ None
        → IsKept (times_at both slot.now.0)
        → IsMergedAt (Some slot.now.1) (times_at both slot.now.0) None
        (times_at table slot.now.0)) }
    ensures there { IfOk result (λ table. is_some (times_at right.now slot.now.0) ≡ true
        → times_at table slot.now.0 ≡ times_at both slot.now.0) }
    ensures others { IfOk result (λ table. (k : List ℕ) → same_element slot.now.0 k ≡ false
        → times_at table k ≡ times_at both k) }
{
    let element = slot.element();
    match times_along(right, news, element) {
        Some(_) => Ok(both),
        None => merged_at(alloc, both, slot.own(), Some(slot.times()), None),
    }
}

// The members of the left side, with the merged times of the elements of the right side.
fn merged_right(alloc: Global, sides: Sides<'_>) -> Result<Table, Memory>
    ensures { IfOk result (IsRightMerged sides.entry.base.now
        sides.entry.left.now sides.entry.right.now) }
{
    let mut both = sides.left.copy()?;
    let mut olds = sides.base.walk();
    let mut walk = sides.right.walk();
    while let Some(slot) = walk.first() {
        both = merge_right(alloc, sides.base, &mut olds, slot, both)?;
        walk.skip();
    }
    Ok(both)
}

// The merged times of the elements of both sides: those of the left side, and what the right side changes of them.
pub(crate) fn merged(alloc: Global, sides: Sides<'_>) -> Result<Table, Memory>
    ensures merges { IfOk result (AreMerged sides.entry.base.now
        sides.entry.left.now sides.entry.right.now) }
    ensures sorted { IfOk result AreInOrder }
{
    let mut both = merged_right(alloc, sides)?;
    let mut news = sides.right.walk();
    let mut walk = sides.base.walk();
    while let Some(slot) = walk.first() {
        both = merge_gone(alloc, sides.right, &mut news, slot, both)?;
        walk.skip();
    }
    let _size = both.size();
    Ok(both)
}
