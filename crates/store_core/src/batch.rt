// How a core lands a batch.
ghost use Rattle.std.specs.Prelude.{◌≡◌, ◌+◌, ◌≤◌, ◌++◌, [], All, length, replicate, IfOk, OnOk, OnErr, Err};
ghost use mathlib.Core.List.{IsPrefix};
ghost use Rattle.branch_machine.specs.Fixed.{fix};
ghost use Rattle.branch_files.specs.Records.{records_after};
ghost use Rattle.store_core.specs.Batches.{AnswersBatch, AnswersJob, HaveLanded, LeavesBatch, job_made};

use crate::answers::LandRefused;
use crate::put::put;
use crate::store::Core;
use branch_address::Address;
use branch_disk::Disk;
use branch_history::laws::keeps_limits;
use branch_machine::laws::makes_fewer_moves;
use heads_journal::Record;
use mrdt_model::{Listing, Memory, Mrdt};
use recorded_history::{Addressed, Recorded};
use std::alloc::Global;
use store_seen::{Landed, Prepared};

// What became of a job.
type Answer<R> = Result<Landed<R>, LandRefused>;

// What became of each job of a batch, in memory, and the records of those that landed.
#[derive(Drop)]
struct Batch<R> {
    answers: Vec<Answer<R>>,
    records: Vec<Record>,
}

// The answers of as many jobs, where the disk had failed before.
fn all_failed<R: Drop>(alloc: Global, jobs: usize, moves: u64) -> Result<Vec<Answer<R>>, Memory>
    ensures { IfOk result (λ answers. answers.items
        ≡ replicate jobs (Err (LandRefused.Failed moves))) }
{
    let mut answers = Vec::new(alloc);
    for _ in 0..jobs {
        answers.push(Err(LandRefused::Failed { moves }))?;
    }
    Ok(answers)
}

// The disk failed: that is the answer to each job then.
fn fault_all<R: Drop>(answers: &mut [Answer<R>])
    ensures { answers.new ≡ replicate (length answers.old) (Err LandRefused.DiskFault) }
{
    for answer in answers.iter_mut() {
        *answer = Err(LandRefused::DiskFault);
    }
}

// As many answers, where the disk failed.
fn faulted<R: Drop>(answers: Vec<Answer<R>>) -> Vec<Answer<R>>
    ensures { result.items ≡ replicate (length answers.items) (Err LandRefused.DiskFault) }
{
    let mut answers = answers;
    fault_all(&mut answers);
    answers
}

// Lands a job in memory, behind the moves that wait, and notes its record, if it landed.
fn land_one<T: Mrdt, A: Address>(
    recorded: &mut Recorded<T, A>,
    job: Addressed<T, A>,
    records: &mut Vec<Record>,
) -> Result<Answer<T::Reply>, Memory>
    requires history { IsPrefix job.seen.history (recorded.old.written ++ recorded.old.pending) }
    requires terms { job.seen.terms ≡ recorded.old.terms }
    ensures answered { IfOk result (AnswersJob (fix T.meaning recorded.old.terms A.address)
        (recorded.old.written ++ recorded.old.pending) job) }
    ensures made { OnOk result (recorded.new ≡ record recorded.old {
      pending = recorded.old.pending ++ job_made (fix T.meaning recorded.old.terms A.address)
          (recorded.old.written ++ recorded.old.pending) job;
    }) }
    ensures records { let fixed = fix T.meaning recorded.old.terms A.address in
        let history = recorded.old.written ++ recorded.old.pending in
        OnOk result (records.new.items
        ≡ records.old.items ++ records_after fixed history (job_made fixed history job)) }
    ensures kept { OnErr result ((recorded.new.written ≡ recorded.old.written)
        × (recorded.new.terms ≡ recorded.old.terms)) }
{
    match recorded.land_more(job) {
        Ok(made) => {
            records.push(made.record)?;
            Ok(Ok(made.landed))
        }
        Err(recorded_history::LandRefused::Memory) => Err(Memory),
        Err(refused) => Ok(Err(LandRefused::from(refused))),
    }
}

// Lands jobs in memory, one behind another. Where memory is short, none waits any more.
fn land_each<T: Mrdt, A: Address>(
    recorded: &mut Recorded<T, A>,
    jobs: Vec<Addressed<T, A>>,
) -> Result<Batch<T::Reply>, Memory>
    requires settled { recorded.old.pending ≡ [] }
    requires history { All (λ job. IsPrefix job.seen.history recorded.old.written) jobs.items }
    requires terms { All (λ job. job.seen.terms ≡ recorded.old.terms) jobs.items }
    ensures landed { IfOk result (λ batch.
        HaveLanded (fix T.meaning recorded.old.terms A.address) jobs.items recorded.old
        recorded.new batch.answers.items batch.records.items) }
    ensures kept { OnErr result (recorded.new ≡ recorded.old) }
{
    let alloc = recorded.alloc();
    let mut answers = Vec::new(alloc);
    let mut records = Vec::new(alloc);
    for job in jobs {
        let Ok(answer) = land_one(recorded, job, &mut records) else {
            recorded.undo();
            return Err(Memory);
        };
        if answers.push(answer).is_err() {
            recorded.undo();
            return Err(Memory);
        }
    }
    Ok(Batch { answers, records })
}

// What was prepared, with no addresses yet.
fn later_all<T: Mrdt, A: Address>(
    alloc: Global,
    jobs: Vec<Prepared<T>>,
) -> Result<Vec<Addressed<T, A>>, Memory>
    ensures { IfOk result (λ later. later.items ≡ jobs.items) }
{
    let mut later = Vec::new(alloc);
    for job in jobs {
        later.push(Addressed::later(job))?;
    }
    Ok(later)
}

impl<T: Mrdt, D: Disk + Drop, A: Address> Core<T, D, A> {
    /// Lands up to 64 jobs together, each of which was prepared on a look at this core, now or earlier. There is one
    /// answer for each, in order: what `land` answers to it behind the moves of the jobs before it. A job that is refused
    /// moves nothing, and those behind it are landed all the same.
    ///
    /// The disk is called once for all: with one write of all regions and a sync, both left out where there is no region,
    /// with one write of all records and a sync, with a write of one gate for each move, in order, and with a sync. Where
    /// no job lands, it is not called. Where a call fails, each job has the answer `DiskFault`, the store has failed, and it
    /// holds what it held; where the disk had failed before, each has `Failed`. All memory is taken before the first call:
    /// after `Memory` nothing has changed.
    ///
    /// At every moment a crash leaves the history with the first of the new moves behind it: none, some or all; after it, if
    /// the disk has not failed, all. Each of these is valid. Of a disk that tells its bytes, the two parts then begin with
    /// exactly the objects of the longer history and its records with a closed gate, and no other byte has changed. After a
    /// fault nothing has changed but in the regions of the new moves, and from their first record's gate to that behind them.
    pub fn land_all(
        &mut self,
        jobs: Vec<Prepared<T>>,
    ) -> Result<Listing<Result<Landed<T::Reply>, LandRefused>>, Memory>
        requires few { length jobs.items ≤ 64 }
        requires history { All (λ job. IsPrefix job.seen.history self.old.history) jobs.items }
        requires terms { All (λ job. job.seen.terms ≡ self.old.terms) jobs.items }
        ensures answers { AnswersBatch (fix T.meaning self.old.terms A.address) jobs.items
            self.old self.new result }
        ensures leaves { LeavesBatch D.Disk T.meaning A.address jobs.items
            self.old self.new result }
    {
        let later = later_all(self.recorded.alloc(), jobs)?;
        self.land_all_addressed(later)
    }

    /// Lands jobs together, as `land_all` does. Where the address of a new value's object was worked out before, it only
    /// copies the value, and hashes nothing but the new commit's own bytes. In the layout that keeps no values it does not
    /// copy the value either.
    pub fn land_all_addressed(
        &mut self,
        jobs: Vec<Addressed<T, A>>,
    ) -> Result<Listing<Result<Landed<T::Reply>, LandRefused>>, Memory>
        requires few { length jobs.items ≤ 64 }
        requires history { All (λ job. IsPrefix job.seen.history self.old.history) jobs.items }
        requires terms { All (λ job. job.seen.terms ≡ self.old.terms) jobs.items }
        ensures answers { AnswersBatch (fix T.meaning self.old.terms A.address) jobs.items
            self.old self.new result }
        ensures leaves { LeavesBatch D.Disk T.meaning A.address jobs.items
            self.old self.new result }
    {
        if self.failed {
            let moves = self.recorded.moves();
            let answers = all_failed(self.recorded.alloc(), jobs.len(), moves)?;
            return Ok(Listing::from_vec(answers));
        }
        keeps_limits::<T>();
        makes_fewer_moves::<T>();
        let batch = land_each(&mut self.recorded, jobs)?;
        if batch.records.is_empty() {
            return Ok(Listing::from_vec(batch.answers));
        }
        let Ok(()) = put(
            &mut self.recorded,
            &mut self.journal,
            &mut self.disk,
            &mut self.failed,
            &batch.records,
        ) else {
            return Ok(Listing::from_vec(faulted(batch.answers)));
        };
        Ok(Listing::from_vec(batch.answers))
    }
}
