// Callers of one store of sums, on a disk in memory.
ghost use Rattle.std.specs.Prelude.{◌≡◌};
ghost use Rattle.branch_shared.specs.Crashes.{IsSharedAt};
ghost use Rattle.branch_shared.specs.Names.{IsNamed};

use crate::calls::{Store, Turns, Unnamed, adds, beside, unnamed};
use branch_disk::{Disk, MemoryDisk};
use branch_names::Name;
use branch_shared::{Named, Pass, Shared};
use mrdt_counter::{Sum, SumOp};
use std::marker::Brand;
use std::process::Abort;
use std::sync::Wait;
use std::test::Fail;
use std::thread::Threads;
use store_core::LandRefused;

// How many device calls make a store.
const MAKE: u64 = 10;

// Both see the empty store, and one lands before the other.
fn in_two_threads<N: Named<SumOp, ()> + Send + Sync, R: Threads + Wait + Abort + Sync>(
    rt: &R,
    blank: Unnamed,
)
    requires name { IsNamed blank N.table N.queue N.begun N.terms N.parts N.opened }
    requires since { IsSharedAt ⟦<MemoryDisk as Disk>⟧ N.since N.left blank.core }
    requires allowed { (made : _) → N.allows made }
    requires parts { blank.parts ≡ 2 }
{
    let (shared, mut u): (Store<N>, Pass<Sum, N>) = Shared::new(blank);
    let v = shared.enter(&mut u, 1);
    let turns = Turns::new();
    let (mut u, v) = beside(rt, &shared, &turns, u, v);
    assert_eq!(rt; shared.leave(v, &mut u), 1);
    let closed = shared.close_with(u);
    assert_eq!(rt;
        (closed.core.moves(), closed.landed, closed.receipts),
        (2, 2, 2)
    );
}

#[test]
fn two_threads(rt: HostRuntime) {
    let blank = unnamed(&rt, rt.alloc(), Vec::new(rt.alloc()));
    in_two_threads::<Brand, _>(&rt, blank);
}

// The disk fails under one caller, and another goes on looking.
fn fails<N: Named<SumOp, ()>, R: Wait + Abort>(rt: &R, blank: Unnamed)
    requires name { IsNamed blank N.table N.queue N.begun N.terms N.parts N.opened }
    requires since { IsSharedAt ⟦<MemoryDisk as Disk>⟧ N.since N.left blank.core }
    requires allowed { (made : _) → N.allows made }
    requires parts { blank.parts ≡ 2 }
{
    let (shared, mut u): (Store<N>, Pass<Sum, N>) = Shared::new(blank);
    let mut v = shared.enter(&mut u, 1);
    let first = adds(rt, &shared, &mut u);
    assert!(rt; matches!(first, Err(LandRefused::DiskFault)));
    let seen = shared.look(rt, &mut v, &Name::main()).expect(rt, "main");
    assert_eq!(rt; seen.value().value(), 0);
    let second = adds(rt, &shared, &mut v);
    assert!(rt; matches!(second, Err(LandRefused::Failed { moves: 0 })));
    assert_eq!(rt; shared.leave(v, &mut u), 0);
    let core = shared.close();
    assert!(rt; core.moves() == 0 && core.has_failed());
}

#[test]
fn a_fault(rt: HostRuntime) -> Result<(), Fail> {
    let blank = unnamed(&rt, rt.alloc(), vec![in rt.alloc(); MAKE + 3]?);
    fails::<Brand, _>(&rt, blank);
    Ok(())
}
