// What a crash leaves at each moment while clients work on a store.
use crate::batches::scripts;
use crate::plays::play;
use branch_address::{Address, Sha256Address};
use branch_disk::{Disk, Fill, MemoryDisk};
use branch_progress::NoListener;
use mrdt_doc::Doc;
use mrdt_model::Mrdt;
use parallel_clients::OpenGate;
use std::alloc::Global;
use std::process::Abort;
use std::test::Fail;
use store_core::Core;

// How many device calls make a store.
const MADE: u64 = 10;

// The store that a crash leaves while the call behind so many is made.
fn left<T: Mrdt, R: Abort>(
    rt: &R,
    alloc: Global,
    disk: &MemoryDisk,
    calls: u64,
    fill: Fill,
) -> Core<T, MemoryDisk, Sha256Address> {
    let Ok(image) = disk.image(calls, fill) else {
        panic!(rt; "memory")
    };
    match Core::open(alloc, image, 0, &mut NoListener) {
        Ok(core) => core,
        Err(_) => panic!(rt; "no store"),
    }
}

// Whether all commits of a store have the addresses that they have in the other.
fn is_part_of<T: Mrdt, D: Disk + Drop, A: Address>(
    core: &Core<T, D, A>,
    whole: &Core<T, D, A>,
) -> bool {
    for commit in 0..core.commits() {
        if core.address(commit) != whole.address(commit) {
            return false;
        }
    }
    true
}

// Whenever a crash comes while the calls of the disk are made, it leaves the first of so many moves, never fewer than one
// that came before; and all of them in the end.
fn leaves_parts<T: Mrdt, R: Abort>(rt: &R, alloc: Global, disk: &MemoryDisk, all: u64) {
    let last = disk.calls();
    let whole = left::<T, R>(rt, alloc, disk, last, Fill::Old);
    for fill in [Fill::Old, Fill::New, Fill::Byte(90)] {
        let mut before = 0;
        for calls in MADE..=last {
            let core = left::<T, R>(rt, alloc, disk, calls, fill);
            let moves = core.moves();
            assert!(rt; before <= moves && moves <= all);
            assert!(rt; is_part_of(&core, &whole));
            before = moves;
        }
        assert_eq!(rt; before, all);
    }
}

// Eight clients fork a branch each and land an operation there.
#[test]
fn a_crash_at_each_call(rt: HostRuntime) -> Result<(), Fail> {
    let alloc = rt.alloc();
    let scripts = scripts(alloc, 8)?;
    let played = play(&rt, alloc, Vec::new(alloc), &scripts, &OpenGate);
    assert_eq!(rt; played.moves, 16);
    leaves_parts::<Doc, _>(&rt, alloc, &played.disk, played.moves);
    Ok(())
}
