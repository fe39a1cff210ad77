// Moves that land alone: what a store's two files have then, and what its commits answer.
use crate::stores::{Numbered, add, fresh, number_of, opened, terms_from};
use crate::told::Told;
use branch_address::{Address, Sha256Address, WeakAddress};
use branch_disk::{Disk, MemoryDisk, Part};
use branch_names::{Layout, Limits, Name, Terms};
use mrdt_counter::Sum;
use std::alloc::Global;
use std::process::Abort;
use std::test::Fail;

// The device calls that make a store, and those that land an operation.
const MADE: u64 = 10;

const LANDED: u64 = 6;

// The lengths of a disk's two parts.
fn lengths(rt: &impl Abort, disk: &mut MemoryDisk) -> (u64, u64) {
    let objects = disk.length(Part::Objects).expect(rt, "a length");
    let heads = disk.length(Part::Heads).expect(rt, "a length");
    (objects, heads)
}

// Behind one operation the two parts have these lengths.
fn has_sizes<T: Numbered, A: Address>(rt: &impl Abort, alloc: Global, wanted: (u64, u64)) {
    let mut core = fresh::<T, A>(rt, alloc, Vec::new(alloc), terms_from(rt, 0));
    assert!(rt; add(rt, &mut core, 5).has_landed());
    let mut disk = core.close();
    assert_eq!(rt; disk.calls(), MADE + LANDED);
    assert_eq!(rt; lengths(rt, &mut disk), wanted);
}

// A store that keeps no values has the objects of its commits alone: with commit 0 they are as long as `first`, and with
// an operation's the two parts have these lengths. It answers the same.
fn has_sizes_of_changes<T: Numbered, A: Address>(
    rt: &impl Abort,
    alloc: Global,
    first: u64,
    wanted: (u64, u64),
) {
    let terms = Terms::new(Limits::default(), 0, 0, Layout::Changes).expect(rt, "terms");
    let mut disk = fresh::<T, A>(rt, alloc, Vec::new(alloc), terms).close();
    assert_eq!(rt; disk.calls(), MADE);
    let (objects, _) = lengths(rt, &mut disk);
    assert_eq!(rt; objects, first);
    let mut core = opened::<T, MemoryDisk, A>(rt, alloc, disk);
    assert!(rt; add(rt, &mut core, 5).has_landed());
    let mut disk = core.close();
    assert_eq!(rt; lengths(rt, &mut disk), wanted);
    let core = opened::<T, MemoryDisk, A>(rt, alloc, disk);
    assert_eq!(rt; core.terms(), terms);
    assert_eq!(rt; number_of(rt, &core, &Name::main()), 5);
}

// A commit answers what it answered as the head, and the moves are lent in order.
fn is_asked<T: Numbered, A: Address>(rt: &impl Abort, alloc: Global) -> Result<(), Fail> {
    let mut core = fresh::<T, A>(rt, alloc, Vec::new(alloc), terms_from(rt, 0));
    assert!(rt; add(rt, &mut core, 5).has_landed());
    assert!(rt; add(rt, &mut core, 2).has_landed());
    assert_eq!(rt; core.commits(), 3);
    assert_eq!(rt; T::answered(&core.ask_at(0, &T::query())?), 0);
    assert_eq!(rt; T::answered(&core.ask_at(1, &T::query())?), 5);
    assert_eq!(rt; core.value_at(2).number(), 7);
    assert_eq!(rt; core.history().len(), 2);
    Ok(())
}

// Behind an addition of 0 the value of one of 1 collides with commit 0's, of the first length, and the commit of another
// one of 0 with the first one's, of the second length.
fn collides<T: Numbered, A: Address>(rt: &impl Abort, alloc: Global, value: u8, commit: u8) {
    let mut core = fresh::<T, A>(rt, alloc, Vec::new(alloc), terms_from(rt, 0));
    assert!(rt; add(rt, &mut core, 0).has_landed());
    assert!(rt; add(rt, &mut core, 1) == (Told::Collision { last: value }));
    assert!(rt; add(rt, &mut core, 0) == (Told::Collision { last: commit }));
    assert_eq!(rt; core.moves(), 1);
}

#[test]
fn a_store_has_its_sizes(rt: HostRuntime) -> Result<(), Fail> {
    has_sizes::<Sum, Sha256Address>(&rt, rt.alloc(), (246, 129));
    Ok(())
}

// The objects of commits without values have 30 bytes here beside a header of 16, and 86.
#[test]
fn a_store_of_changes_has_its_sizes(rt: HostRuntime) -> Result<(), Fail> {
    has_sizes_of_changes::<Sum, Sha256Address>(&rt, rt.alloc(), 46, (132, 129));
    Ok(())
}

#[test]
fn the_past_is_asked(rt: HostRuntime) -> Result<(), Fail> {
    is_asked::<Sum, Sha256Address>(&rt, rt.alloc())
}

// The object of a sum's value has 25 bytes, and the commit of an addition 118.
#[test]
fn objects_collide_by_their_length(rt: HostRuntime) -> Result<(), Fail> {
    collides::<Sum, WeakAddress>(&rt, rt.alloc(), 25, 118);
    Ok(())
}
