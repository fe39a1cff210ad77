// Stores over any type whose values have a number that operations add to.
ghost use Rattle.std.specs.Prelude.{◌≡◌};
ghost use mathlib.Core.List.{IsPrefix};

use crate::told::{Told, what_came};
use branch_address::Address;
use branch_disk::{Disk, MemoryDisk};
use branch_names::{Layout, Limits, Name, Terms};
use branch_progress::NoListener;
use mrdt_counter::{CounterQuery, Sum, SumOp};
use mrdt_model::Mrdt;
use std::alloc::Global;
use std::process::Abort;
use store_core::{Core, Prepared};

// A type whose values have a number.
pub trait Numbered: Mrdt {
    // The operation that adds to it.
    fn addition(amount: u8) -> Self::Op;

    // The query for it.
    fn query() -> Self::Query;

    // The number that a query was answered with.
    fn answered(answer: &Self::Answer) -> i128;

    // The number of a value.
    fn number(&self) -> i128;
}

impl Numbered for Sum {
    fn addition(amount: u8) -> SumOp {
        SumOp::Add(i64::from(amount))
    }

    fn query() -> CounterQuery {
        CounterQuery::Value
    }

    fn answered(answer: &i128) -> i128 {
        *answer
    }

    fn number(&self) -> i128 {
        self.value()
    }
}

// Default limits, and origins of branches from the first one on.
pub fn terms_from(rt: &impl Abort, first: u32) -> Terms {
    Terms::new(Limits::default(), first, 0, Layout::Whole).expect(rt, "terms")
}

// A store of an empty disk, with these terms.
pub fn begun<T: Mrdt, D: Disk + Drop, A: Address>(
    rt: &impl Abort,
    alloc: Global,
    disk: D,
    terms: Terms,
) -> Core<T, D, A> {
    match Core::init(alloc, disk, terms) {
        Ok(core) => core,
        Err(_) => panic!(rt; "no store"),
    }
}

// A store of an empty disk in memory, of which listed calls fail, with these terms.
pub fn fresh<T: Mrdt, A: Address>(
    rt: &impl Abort,
    alloc: Global,
    failing: Vec<u64>,
    terms: Terms,
) -> Core<T, MemoryDisk, A> {
    begun(rt, alloc, MemoryDisk::new(failing), terms)
}

// The store that a disk holds.
pub fn opened<T: Mrdt, D: Disk + Drop, A: Address>(
    rt: &impl Abort,
    alloc: Global,
    disk: D,
) -> Core<T, D, A> {
    match Core::open(alloc, disk, 0, &mut NoListener) {
        Ok(core) => core,
        Err(_) => panic!(rt; "no store"),
    }
}

// The name of a character's branch: its two halves, each as a letter from `a` on.
pub fn named(rt: &impl Abort, character: u8) -> Name {
    Name::read(&[b'a' + character / 16, b'a' + character % 16]).expect(rt, "a name")
}

// Forks a branch from `main` for each of these characters.
pub fn fork_all<T: Mrdt, A: Address>(
    rt: &impl Abort,
    core: &mut Core<T, MemoryDisk, A>,
    characters: &[u8],
) {
    for character in characters {
        assert!(rt; core.fork(named(rt, *character), &Name::main()).is_ok());
    }
}

// An addition to what a branch has now.
pub fn addition<T: Numbered, D: Disk + Drop, A: Address>(
    rt: &impl Abort,
    core: &Core<T, D, A>,
    branch: &Name,
    amount: u8,
) -> Prepared<T>
    ensures history { IsPrefix result.seen.history core.now.history }
    ensures terms { result.seen.terms ≡ core.now.terms }
{
    let Ok(seen) = core.look(branch) else {
        panic!(rt; "no branch")
    };
    match seen.prepare(T::addition(amount)) {
        Ok(prepared) => prepared,
        Err(_) => panic!(rt; "no addition"),
    }
}

// Adds to what `main` has now.
pub fn add<T: Numbered, D: Disk + Drop, A: Address>(
    rt: &impl Abort,
    core: &mut Core<T, D, A>,
    amount: u8,
) -> Told {
    let job = addition(rt, core, &Name::main(), amount);
    what_came(&core.land(job))
}

// The number that a branch has now.
pub fn number_of<T: Numbered, D: Disk + Drop, A: Address>(
    rt: &impl Abort,
    core: &Core<T, D, A>,
    branch: &Name,
) -> i128 {
    match core.look(branch) {
        Ok(seen) => seen.value().number(),
        Err(_) => panic!(rt; "no branch"),
    }
}
