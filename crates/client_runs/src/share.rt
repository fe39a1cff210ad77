// A core that clients share for the time of their scripts.
ghost use Rattle.std.specs.Prelude.{◌≡◌, ◌*◌, ◌<◌, ◌≤◌, length, IfOk, OnErr};
ghost use mathlib.Core.List.{IsPrefix};
ghost use Rattle.branch_machine.specs.Fixed.{fix};
ghost use Rattle.branch_machine.specs.Validity.{IsFullyValid};
ghost use Rattle.branch_shared.specs.Allowed.{GrowsBy};
ghost use Rattle.branch_shared.specs.Crashes.{IsSafeFrom, IsSharedAt};
ghost use Rattle.branch_shared.specs.Keeps.{faults_since};
ghost use Rattle.branch_shared.specs.Names.{IsNamed};
ghost use Rattle.parallel_clients.specs.Allowed.{AllowsScripts};
ghost use Rattle.parallel_clients.specs.Outcomes.{setting};
ghost use Rattle.client_runs.specs.Worked.{HaveRun};

use branch_address::Address;
use branch_disk::Disk;
use branch_doc::Forms;
use branch_script::Step;
use branch_shared::{Blank, Named, Shared};
use mrdt_model::{Listing, Memory, Mrdt};
use parallel_clients::laws::stays_outcome;
use parallel_clients::{OpenGate, Outcome, run_clients};
use std::alloc::Global;
use std::sync::Wait;
use std::thread::Threads;
use store_core::Core;

/// What is left when the clients are done.
#[derive(Drop)]
pub struct Finished<T: Mrdt, D: Disk + Drop, A: Address> {
    /// The core, with the moves of all clients behind its history.
    pub core: Core<T, D, A>,
    /// What became of each client, in their order. `Memory` came before any of them began.
    pub outcomes: Result<Listing<Outcome>, Memory>,
}

/// Runs the scripts over the store, and closes it when all are done: its last pass holds all parts then, so it claims each
/// move that landed, once.
pub(crate) fn share<
    T: Forms + Send + Sync,
    D: Disk + Drop + Send,
    A: Address + Send,
    N: Named<T::Op, T::Reply> + Drop + Send + Sync,
    R: Threads + Wait + Sync,
>(rt: &R, alloc: Global, blank: Blank<T, D, A>, scripts: &[Listing<Step>]) -> Finished<T, D, A>
    requires name { IsNamed blank N.table N.queue N.begun N.terms N.parts N.opened }
    requires since { IsSharedAt D.Disk N.since N.left blank.core }
    requires parts { 2 * length scripts.now < blank.parts }
    requires allowed { AllowsScripts T.forms N.allows scripts.now }
    ensures grows { IsPrefix blank.core.history result.core.history }
    ensures allowed { GrowsBy N.allows blank.core.history result.core.history }
    ensures valid { IsFullyValid (fix T.meaning blank.core.terms A.address) result.core.history }
    ensures terms { result.core.terms ≡ blank.core.terms }
    ensures opened { D.faults result.core.opened ≡ blank.opened }
    ensures later { D.faults result.core.opened ≤ D.faults result.core.disk }
    ensures faults { faults_since D.faults blank.core ≤ faults_since D.faults result.core }
    ensures ran { IfOk result.outcomes
        (HaveRun (setting (fix T.meaning blank.core.terms A.address) T.forms blank.opened)
        blank.core.history result.core.history (faults_since D.faults result.core) scripts.now) }
    ensures idle { OnErr result.outcomes (result.core.history ≡ blank.core.history) }
    ensures crashes { IsSafeFrom D.Disk (fix T.meaning blank.core.terms A.address) N.allows
        blank.core result.core }
{
    stays_outcome::<T>();
    let (shared, mut pass) = Shared::<T, D, A, N>::new(blank);
    let outcomes = run_clients(rt, alloc, &shared, &mut pass, scripts, &OpenGate);
    let closed = shared.close_with(pass);
    // Its clauses say what is known of a core.
    let _ = closed.core.moves();
    Finished {
        core: closed.core,
        outcomes,
    }
}
