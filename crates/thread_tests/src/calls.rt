// Calls of a store of sums, by one thread and by two.
ghost use Rattle.std.specs.Prelude.{◌≡◌, ◌<◌, false};
ghost use mathlib.Core.List.{IsPrefix};

use branch_address::Sha256Address;
use branch_disk::MemoryDisk;
use branch_names::{Limits, Name, Terms};
use branch_shared::{Blank, Named, Pass, Shared};
use mrdt_counter::{Sum, SumOp};
use std::alloc::Global;
use std::process::Abort;
use std::sync::{Condvar, Mutex, Wait};
use std::thread::{Threads, join};
use store_core::{Core, LandRefused, Landed, Prepared};

type Sums = Core<Sum, MemoryDisk, Sha256Address>;

pub(crate) type Unnamed = Blank<Sum, MemoryDisk, Sha256Address>;

pub(crate) type Store<N> = Shared<Sum, MemoryDisk, Sha256Address, N>;

/// A store of an empty disk, of which listed calls fail.
pub(crate) fn unnamed(rt: &impl Abort, alloc: Global, failing: Vec<u64>) -> Unnamed
    ensures parts { result.parts ≡ 2 }
    ensures working { result.core.failed ≡ false }
{
    let disk = MemoryDisk::new(failing);
    let Ok(core) = Sums::init(alloc, disk, Terms::under(Limits::default())) else {
        panic!(rt; "no store")
    };
    match Blank::new(alloc, core, 2) {
        Ok(blank) => blank,
        Err(_) => panic!(rt; "memory"),
    }
}

// The addition of 1 to what `main` has now.
fn prepares<N: Named<SumOp, ()>, R: Wait + Abort>(
    rt: &R,
    shared: &Store<N>,
    pass: &mut Pass<Sum, N>,
) -> Prepared<Sum>
    ensures history { IsPrefix result.seen.history pass.new.moves }
    ensures terms { result.seen.terms ≡ N.terms }
{
    let seen = shared.look(rt, pass, &Name::main()).expect(rt, "main");
    seen.prepare(SumOp::Add(1)).expect(rt, "an addition")
}

/// Adds 1 to what `main` has now.
pub(crate) fn adds<N: Named<SumOp, ()>, R: Wait + Abort>(
    rt: &R,
    shared: &Store<N>,
    pass: &mut Pass<Sum, N>,
) -> Result<Landed<()>, LandRefused>
    requires allowed { (made : _) → N.allows made }
{
    let prepared = prepares(rt, shared, pass);
    shared.land(rt, pass, prepared)
}

/// Orders two threads: 0 at the start, 1 once the late one has prepared, 2 once the early one has landed.
#[derive(Drop)]
pub(crate) struct Turns {
    turn: Mutex<u64>,
    moved: Condvar,
}

impl Turns {
    pub(crate) fn new() -> Turns {
        Turns {
            turn: Mutex::new(0),
            moved: Condvar::new(),
        }
    }

    fn reach(&self, rt: &impl Wait, turn: u64) {
        let mut now = self.turn.lock(rt);
        *now = turn;
        self.moved.notify_all();
    }

    fn wait(&self, rt: &impl Wait, turn: u64) {
        let _now = self
            .moved
            .wait_while(rt, self.turn.lock(rt), |now| *now < turn);
    }
}

// Prepares before the other thread lands. That is stale behind the store's first move, and so it lands the second one.
fn is_late<N: Named<SumOp, ()>, R: Wait + Abort>(
    rt: &R,
    shared: &Store<N>,
    turns: &Turns,
    mut pass: Pass<Sum, N>,
) -> Pass<Sum, N>
    requires allowed { (made : _) → N.allows made }
{
    let prepared = prepares(rt, shared, &mut pass);
    turns.reach(rt, 1);
    turns.wait(rt, 2);
    let stale = shared.land(rt, &mut pass, prepared);
    assert!(rt; matches!(stale, Err(LandRefused::Stale { newest: 1 })));
    let landed = adds(rt, shared, &mut pass).expect(rt, "a landing");
    assert_eq!(rt; landed.moves, 2);
    pass
}

// Lands the store's first move, once the other thread has prepared.
fn is_early<N: Named<SumOp, ()>, R: Wait + Abort>(
    rt: &R,
    shared: &Store<N>,
    turns: &Turns,
    mut pass: Pass<Sum, N>,
) -> Pass<Sum, N>
    requires allowed { (made : _) → N.allows made }
{
    turns.wait(rt, 1);
    let landed = adds(rt, shared, &mut pass).expect(rt, "a landing");
    assert_eq!(rt; landed.moves, 1);
    turns.reach(rt, 2);
    pass
}

/// The late one and the early one, each in a thread of its own.
pub(crate) fn beside<N: Named<SumOp, ()> + Send + Sync, R: Threads + Wait + Abort + Sync>(
    rt: &R,
    shared: &Store<N>,
    turns: &Turns,
    late: Pass<Sum, N>,
    early: Pass<Sum, N>,
) -> (Pass<Sum, N>, Pass<Sum, N>)
    requires allowed { (made : _) → N.allows made }
{
    join(
        rt,
        || -> Pass<Sum, N>
            requires { (made : _) → N.allows made }
        { is_late(rt, shared, turns, late) },
        || -> Pass<Sum, N>
            requires { (made : _) → N.allows made }
        { is_early(rt, shared, turns, early) },
    )
}
