// Jobs: what callers hand over to be landed together, and what they get back.
ghost use Rattle.std.specs.Prelude.{◌≡◌, ◌<◌};
ghost use Rattle.branch_shared.specs.Batches.{pass_of};

use crate::name::{EntryOf, Named};
use crate::pass::Pass;
use branch_address::Address;
use branch_batch::{Service, Stub};
use mrdt_model::Mrdt;
use std::marker::{Model, PhantomData};
use store_core::{Addressed, LandRefused, Landed};

/// What a caller hands over to be landed: what it prepared, and a part of its pass. It says of no store yet that it may be
/// landed there. Contracts see a `JobView`.
#[derive(Drop)]
pub(crate) struct Job<T: Mrdt, A: Address> {
    pub(crate) prepared: Addressed<T, A>,
    pub(crate) pass: branch_front::Pass<EntryOf<T>>,
}

impl<T: Mrdt, A: Address> Model for Job<T, A> {
    ghost use Rattle.branch_shared.specs.Batches.{JobView};

    ghost Value = { JobView T.Op T.Reply };

    ghost view = { λ j. record {
      prepared = j.prepared;
      pass = j.pass;
    } };
}

/// What a caller gets back: its part, which has seen what the answer says, and the answer. Contracts see a `GivenView`.
#[derive(Drop)]
pub(crate) struct Given<T: Mrdt, N: Named<T::Op, T::Reply>> {
    pub(crate) pass: Pass<T, N>,
    pub(crate) answer: Result<Landed<T::Reply>, LandRefused>,
}

impl<T: Mrdt, N: Named<T::Op, T::Reply>> Model for Given<T, N> {
    ghost use Rattle.branch_shared.specs.Batches.{GivenView};

    ghost Value = { GivenView T.Op T.Reply };

    ghost view = { λ g. record {
      pass = g.pass;
      answer = g.answer;
    } };
}

/// The queue of a shared store: its jobs may be landed there, and what comes back for one is what landing it makes.
pub(crate) struct Landing<T, A, N> {
    of: PhantomData<(T, A, N)>,
}

impl<T: Mrdt, A: Address, N: Named<T::Op, T::Reply>> Service<Job<T, A>, Given<T, N>>
    for Landing<T, A, N> {
    ghost use Rattle.branch_machine.specs.Fixed.{fix};
    ghost use Rattle.branch_shared.specs.Batches.{MayLand, Serves};

    ghost table = { N.queue };

    ghost takes = { MayLand N.table N.begun N.terms N.allows };

    ghost serves = { Serves (fix T.meaning N.terms A.address) N.opened N.begun };
}

/// A job that was taken to be landed, and what its caller will get back. Contracts see a `TakenView`.
#[derive(Drop)]
pub(crate) struct Taken<T: Mrdt, A: Address, N: Named<T::Op, T::Reply>> {
    pub(crate) stub: Stub<Job<T, A>, Given<T, N>, Landing<T, A, N>>,
    pub(crate) given: Given<T, N>,
}

impl<T: Mrdt, A: Address, N: Named<T::Op, T::Reply>> Model for Taken<T, A, N> {
    ghost use Rattle.branch_shared.specs.Batches.{TakenView};

    ghost Value = { TakenView T.Op T.Reply };

    ghost view = { λ t. record {
      job = t.stub.job;
      given = t.given;
    } };
}

/// A pass of the store again.
pub(crate) fn pass_again<T: Mrdt, N: Named<T::Op, T::Reply>>(
    pass: branch_front::Pass<EntryOf<T>>,
) -> Pass<T, N>
    requires table { pass.table ≡ N.table }
    requires part { 0 < pass.parts }
    ensures { result ≡ pass_of N.begun pass }
{
    Pass {
        pass,
        of: PhantomData,
    }
}
