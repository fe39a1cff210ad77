// Clients of generated work, over a core.
ghost use Rattle.std.specs.Prelude.{◌≡◌, ◌≤◌, false, IfOk, OnErr};
ghost use mathlib.Core.List.{IsPrefix};
ghost use Rattle.branch_machine.specs.Fixed.{fix};
ghost use Rattle.branch_machine.specs.Validity.{IsFullyValid};
ghost use Rattle.branch_shared.specs.Crashes.{IsSafeFrom};
ghost use Rattle.branch_shared.specs.Keeps.{faults_since};
ghost use Rattle.parallel_clients.specs.Outcomes.{setting};
ghost use Rattle.client_runs.specs.Worked.{HaveWorked, IsOfClients};

use crate::scripts::scripts;
use crate::share::{Finished, share};
use branch_address::Address;
use branch_disk::Disk;
use branch_doc::Forms;
use branch_doc::laws::lacks_only_sequences;
use branch_history::laws::{keeps_limits, keeps_order};
use branch_machine::laws::{has_fully_valid_prefixes, makes_fewer_moves};
use branch_shared::Blank;
use std::alloc::Global;
use std::marker::Brand;
use std::sync::Wait;
use std::thread::Threads;
use store_core::Core;

/// How much the clients are to do.
#[derive(Clone, Copy, Debug)]
pub struct Work {
    /// How many clients there are.
    pub count: u32,
    /// How many steps each draws, behind its first three.
    pub steps: u64,
    /// The number that they are drawn from.
    pub number: u64,
}

/// Clients do the drawn steps of a number on a core, each in a thread of its own as far as threads are to be had.
///
/// Each client has one outcome, by the history that the core comes back with: what it played behind the old history, or
/// which step was refused, and why. None is refused for a branch that is not there, nor for one that was dropped since
/// they began, and each of its sessions has looked.
/// The places of all clients are the numbers of the moves behind the old history, each once, so no two clients have one in
/// common. A client tells that the disk failed only where it has, since the core was opened. Where memory is short before
/// the first client begins, that is the answer, and no move is made. That clients work in threads of their own is how the
/// code goes, and in no clause.
///
/// At each moment from the call on, a crash leaves a part of the history that the core comes back with, no shorter than
/// the old one; once the disk has failed, perhaps with more moves behind it, at most 64, which are valid there: those of
/// the one call that failed. Some drawn step of some client may make each of these.
pub fn run_on<
    T: Forms + Send + Sync,
    D: Disk + Drop + Send,
    A: Address + Send,
    R: Threads + Wait + Sync,
>(rt: &R, alloc: Global, core: Core<T, D, A>, work: Work) -> Finished<T, D, A>
    requires working { core.failed ≡ false }
    ensures grows { IsPrefix core.history result.core.history }
    ensures valid { IsFullyValid (fix T.meaning core.terms A.address) result.core.history }
    ensures terms { result.core.terms ≡ core.terms }
    ensures opened { D.faults result.core.opened ≡ D.faults core.opened }
    ensures faults { D.faults core.disk ≤ D.faults result.core.disk }
    ensures worked { IfOk result.outcomes
        (HaveWorked (setting (fix T.meaning core.terms A.address) T.forms (D.faults core.opened))
        core.history result.core.history (faults_since D.faults result.core) work.count work.steps
        work.number) }
    ensures idle { OnErr result.outcomes (result.core.history ≡ core.history) }
    ensures crashes { IsSafeFrom D.Disk (fix T.meaning core.terms A.address)
        (IsOfClients T.forms work.count work.steps work.number) core result.core }
{
    keeps_limits::<T>();
    keeps_order::<T>();
    makes_fewer_moves::<T>();
    has_fully_valid_prefixes::<T>();
    lacks_only_sequences::<T>();
    // Its clauses say what is known of a core.
    let _ = core.moves();
    let scripts = match scripts(alloc, work.count, work.steps, work.number) {
        Ok(scripts) => scripts,
        Err(memory) => {
            return Finished {
                core,
                outcomes: Err(memory),
            };
        }
    };
    let parts = 2 * u64::from(work.count) + 1;
    match Blank::new(alloc, core, parts) {
        Ok(blank) => share::<T, D, A, Brand, R>(rt, alloc, blank, &scripts),
        Err((core, memory)) => Finished {
            core,
            outcomes: Err(memory),
        },
    }
}
