// The lists through which a batch goes. Their memory is taken before any job is, so that no job can get stuck.
ghost use Rattle.std.specs.Prelude.{◌≡◌, ◌≤◌, ◌+◌, [], length, map, vec_capacity, IfOk};
ghost use Rattle.std.specs.List.{AllByRecursion};
ghost use Rattle.branch_machine.specs.Fixed.{fix};
ghost use Rattle.branch_shared.specs.Batches.{MayLand, Serves, pass_of};
ghost use Rattle.branch_shared.specs.Keeps.{front_of};

use crate::job::{Given, Job, Landing, Taken, pass_again};
use crate::kept::Kept;
use crate::name::{EntryOf, Named};
use branch_address::Address;
use branch_batch::{Finished, Waiting};
use branch_disk::Disk;
use branch_front::Front;
use mrdt_model::{Memory, Mrdt};
use std::alloc::Global;
use store_core::{Addressed, LandRefused};

/// The most jobs of a batch.
const MOST: usize = 64;

// Jobs as they were taken out, and as they go back.
type Jobs<T, A, N> = Vec<Waiting<Job<T, A>, Given<T, N>, Landing<T, A, N>>>;

type Done<T, A, N> = Vec<Finished<Job<T, A>, Given<T, N>, Landing<T, A, N>>>;

/// Empty lists, each with room for a batch.
#[derive(Drop)]
pub(crate) struct Room<T: Mrdt, A: Address, N: Named<T::Op, T::Reply>> {
    pub(crate) jobs: Jobs<T, A, N>,
    pub(crate) taken: Vec<Taken<T, A, N>>,
    pub(crate) prepared: Vec<Addressed<T, A>>,
    pub(crate) done: Done<T, A, N>,
}

impl<T: Mrdt, A: Address, N: Named<T::Op, T::Reply>> Room<T, A, N> {
    pub(crate) fn new(alloc: Global) -> Result<Room<T, A, N>, Memory>
        ensures jobs { IfOk result (λ room. (room.jobs.items ≡ [])
            × (64 ≤ vec_capacity room.jobs)) }
        ensures taken { IfOk result (λ room. (room.taken.items ≡ [])
            × (64 ≤ vec_capacity room.taken)) }
        ensures prepared { IfOk result (λ room. (room.prepared.items ≡ [])
            × (64 ≤ vec_capacity room.prepared)) }
        ensures done { IfOk result (λ room. (room.done.items ≡ [])
            × (64 ≤ vec_capacity room.done)) }
    {
        let jobs = Vec::with_capacity(alloc, MOST)?;
        let taken = Vec::with_capacity(alloc, MOST)?;
        let prepared = Vec::with_capacity(alloc, MOST)?;
        let done = Vec::with_capacity(alloc, MOST)?;
        Ok(Room {
            jobs,
            taken,
            prepared,
            done,
        })
    }
}

impl<T: Mrdt, D: Disk + Drop, A: Address, N: Named<T::Op, T::Reply>> Kept<T, D, A, N> {
    /// Lands the jobs of a batch, and gives back what serves them. It takes no memory but that of the landings themselves.
    pub(crate) fn land_batch(
        &mut self,
        front: &Front<EntryOf<T>>,
        room: Room<T, A, N>,
    ) -> Done<T, A, N>
        requires front { front.now ≡ front_of N.table N.begun N.parts }
        requires few { length room.jobs.items ≤ 64 }
        requires taken { (room.taken.items ≡ []) × (64 ≤ vec_capacity room.taken) }
        requires prepared { (room.prepared.items ≡ []) × (64 ≤ vec_capacity room.prepared) }
        requires done { (room.done.items ≡ []) × (64 ≤ vec_capacity room.done) }
    {
        let Room {
            jobs,
            mut taken,
            mut prepared,
            mut done,
        } = room;
        open_each(jobs, &mut taken, &mut prepared);
        self.land_all(front, &mut taken, prepared);
        finish_each(taken, &mut done);
        done
    }
}

// Opens jobs that were taken out. What they will get back has no answer yet.
fn open_each<T: Mrdt, A: Address, N: Named<T::Op, T::Reply>>(
    jobs: Jobs<T, A, N>,
    taken: &mut Vec<Taken<T, A, N>>,
    prepared: &mut Vec<Addressed<T, A>>,
)
    requires few { length jobs.items ≤ 64 }
    requires taken { (taken.old.items ≡ []) × (64 ≤ vec_capacity taken.old) }
    requires prepared { (prepared.old.items ≡ []) × (64 ≤ vec_capacity prepared.old) }
    ensures few { length taken.new.items ≤ 64 }
    ensures prepared { prepared.new.items ≡ map (λ taken. taken.job.prepared) taken.new.items }
    ensures passes { AllByRecursion (λ taken.
        taken.given.pass ≡ pass_of N.begun taken.job.pass) taken.new.items }
    ensures may { AllByRecursion (λ taken. MayLand N.table N.begun N.terms N.allows taken.job)
        taken.new.items }
{
    for waiting in jobs {
        let (job, stub) = waiting.open();
        let Job {
            prepared: made,
            pass,
        } = job;
        let given = Given {
            pass: pass_again(pass),
            answer: Err(LandRefused::Memory),
        };
        taken.push_reserved(Taken { stub, given });
        prepared.push_reserved(made);
    }
}

// Each job is done with what it gets back.
fn finish_each<T: Mrdt, A: Address, N: Named<T::Op, T::Reply>>(
    taken: Vec<Taken<T, A, N>>,
    done: &mut Done<T, A, N>,
)
    requires few { length taken.items ≤ 64 }
    requires done { (done.old.items ≡ []) × (64 ≤ vec_capacity done.old) }
    requires serves { AllByRecursion (λ taken.
        Serves (fix T.meaning N.terms A.address) N.opened N.begun taken.job taken.given)
        taken.items }
{
    for taken in taken {
        let Taken { stub, given } = taken;
        done.push_reserved(stub.finish(given));
    }
}
