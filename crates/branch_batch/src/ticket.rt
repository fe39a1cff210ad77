// The two halves of what is known of a job: the caller's ticket, and what goes with the job to whoever does it.
ghost use Rattle.std.specs.Prelude.{◌≡◌, Some, slice_get};
ghost use Rattle.branch_batch.specs.Tickets.{Numbered, front_of};

use crate::service::Service;
use branch_front::{Front, Pass};
use std::marker::{Model, PhantomData};
use std::snapshot::Snapshot;

/// A number, and the proof that the job which was put under it is this one. Contracts see a `Numbered`.
#[derive(Drop)]
pub(crate) struct Claim<J, R, S: Service<J, R>> {
    pub(crate) number: u64,
    pub(crate) job: Snapshot<J>,
    pub(crate) pass: Pass<J>,
    pub(crate) of: PhantomData<(R, S)>,
}

impl<J, R, S: Service<J, R>> Model for Claim<J, R, S> {
    ghost use Rattle.std.specs.Prelude.{◌≡◌, Some, slice_get};
    ghost use Rattle.branch_batch.specs.Tickets.{Numbered};

    ghost Value = { Numbered J };

    ghost view = { λ c. record { number = c.number; job = c.job.value } };

    ghost invariant = { λ c. (c.pass.table ≡ S.table)
        × (slice_get c.pass.moves c.number ≡ Some c.job.value) };
}

impl<J, R, S: Service<J, R>> Claim<J, R, S> {
    /// Two claims to one number are claims to one job.
    #[tactic(auto, using(crate::proofs::Agreeing::same_at))]
    pub(crate) fn agrees(self, front: &Front<J>, other: Claim<J, R, S>)
        requires front { front.now ≡ front_of S.table }
        requires number { self.number ≡ other.number }
        ensures { self ≡ other }
    {
        let Claim { mut pass, .. } = self;
        pass.join(front, other.pass);
    }
}

/// The right to the result of one job. Contracts see a `Numbered`: how many jobs had been put before the job, and the job.
///
/// Whoever drops it leaves its job, or the result, in the queue until the queue is dropped.
#[derive(Drop)]
pub struct Ticket<J, R, S: Service<J, R>> {
    pub(crate) claim: Claim<J, R, S>,
}

impl<J, R, S: Service<J, R>> Model for Ticket<J, R, S> {
    ghost use Rattle.branch_batch.specs.Tickets.{Numbered};

    ghost Value = { Numbered J };

    ghost view = { λ t. t.claim };
}

/// What is left of a job that was taken apart to be done: its number. Contracts see a `Numbered`, which has the job too.
#[derive(Drop)]
pub struct Stub<J, R, S: Service<J, R>> {
    pub(crate) claim: Claim<J, R, S>,
}

impl<J, R, S: Service<J, R>> Model for Stub<J, R, S> {
    ghost use Rattle.branch_batch.specs.Tickets.{Numbered};

    ghost Value = { Numbered J };

    ghost view = { λ s. s.claim };
}

impl<J, R: Drop, S: Service<J, R>> Stub<J, R, S> {
    /// The job is done, with an answer that serves it.
    pub fn finish(self, answer: R) -> Finished<J, R, S>
        requires serves { S.serves self.job answer }
        ensures { result ≡ record { number = self.number; job = self.job; answer = answer } }
    {
        let Stub { claim } = self;
        Finished { claim, answer }
    }
}

/// A job that was taken out of the queue to be done. Contracts see a `Numbered`.
#[derive(Drop)]
pub struct Waiting<J: Drop, R, S: Service<J, R>> {
    pub(crate) job: J,
    pub(crate) claim: Claim<J, R, S>,
}

impl<J: Drop, R, S: Service<J, R>> Model for Waiting<J, R, S> {
    ghost use Rattle.std.specs.Prelude.{◌≡◌};
    ghost use Rattle.branch_batch.specs.Tickets.{Numbered};

    ghost Value = { Numbered J };

    ghost view = { λ w. w.claim };

    ghost invariant = { λ w. (w.claim.job ≡ w.job) × S.takes w.job };
}

impl<J: Drop, R, S: Service<J, R>> Waiting<J, R, S> {
    /// The job, and its stub.
    pub fn open(self) -> (J, Stub<J, R, S>)
        ensures job { result.0 ≡ self.job }
        ensures takes { S.takes self.job }
        ensures stub { result.1 ≡ self }
    {
        let Waiting { job, claim } = self;
        (job, Stub { claim })
    }
}

/// A result, under the number of the job that it serves. Contracts see an `Answered`.
#[derive(Drop)]
pub struct Finished<J, R: Drop, S: Service<J, R>> {
    pub(crate) claim: Claim<J, R, S>,
    pub(crate) answer: R,
}

impl<J, R: Drop, S: Service<J, R>> Model for Finished<J, R, S> {
    ghost use Rattle.branch_batch.specs.Tickets.{Answered};

    ghost Value = { Answered J R };

    ghost view = { λ f. record {
      number = f.claim.number;
      job = f.claim.job;
      answer = f.answer;
    } };

    ghost invariant = { λ f. S.serves f.claim.job f.answer };
}
