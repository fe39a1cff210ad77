// Clients that work side by side on one store.
ghost use Rattle.std.specs.Prelude.{◌≡◌, ◌≢◌, ◌++◌, [], ℕ, List, OnOk, IfErr, IfSome, IsSome, false};
ghost use Rattle.std.specs.declared.option.Option.{Option};
ghost use Rattle.std.specs.List.{AllByRecursion};
ghost use Rattle.branch_command.specs.Commands.{Clients as SaidClients};
ghost use Rattle.branch_shell.specs.Reading.{Exchanges};
ghost use Rattle.store_compact.specs.declared.answers.Which.{Which as SpecWhich};
ghost use Rattle.branch_shell.specs.Ran.{Ran, RanBy, RanOverBoth};
ghost use Rattle.branch_shell.specs.Counts.{HasReason, HaveReason, SaysReason};
ghost use Rattle.branch_shell.specs.Once.{Answers};
ghost use Rattle.branch_shell.specs.Values.{value_type};
ghost use Rattle.branch_shell.specs.Together.{FindsBranch, FindsAll, IsFault, TellsFault, SomeTellFault, StopsFor, TellsClients, RanOver, SurvivesClients, client_line, client_lines, machine_refusal};
ghost use Rattle.branch_print.specs.Texts.{refusal_text, line_end};

use crate::answer::{put_report, refuse, say};
use crate::choose::{Values, choose};
use crate::kinded::Kinded;
use crate::status::Status;
use crate::unopened::open_store;
use branch_address::Address;
use branch_disk::{Disk, DiskFailed};
use branch_files::laws::reads_what_stands;
use branch_io::Sink;
use branch_machine::laws::has_fully_valid_prefixes;
use branch_print::clients::{put_client, put_client_done};
use branch_print::refusals::{
    put_collision, put_dropped, put_exhausted, put_full_branches, put_full_commits, put_full_moves,
    put_keeps_main, put_too_large,
};
use branch_progress::Listener;
use client_runs::{Finished, Work, run_on};
use mrdt_doc::Doc;
use mrdt_old_doc::Doc1;
use mrdt_wide::Wide;
use parallel_clients::{ClientRefusal, Outcome};
use std::alloc::Global;
use std::sync::Wait;
use std::thread::Threads;
use store_compact::Which;
use store_core::Core;

// Writes why a client was refused.
fn put_client_refusal(out: &mut Vec<u8>, refusal: &ClientRefusal) -> Result<(), Status>
    requires { FindsBranch refusal.now }
    ensures ok { OnOk result (IfSome (machine_refusal refusal.now) (λ r.
        out.new.items ≡ out.old.items ++ (refusal_text [] r ++ line_end))) }
    ensures told { OnOk result (IsSome (machine_refusal refusal.now)) }
    ensures err { IfErr result (StopsFor (IsFault refusal.now)) }
{
    match refusal {
        ClientRefusal::Dropped { branch } => Ok(put_dropped(out, *branch)?),
        ClientRefusal::KeepsMain => Ok(put_keeps_main(out)?),
        ClientRefusal::Exhausted { clock } => Ok(put_exhausted(out, *clock)?),
        ClientRefusal::FullCommits { count } => Ok(put_full_commits(out, *count)?),
        ClientRefusal::FullBranches { count } => Ok(put_full_branches(out, *count)?),
        ClientRefusal::FullMoves { count } => Ok(put_full_moves(out, *count)?),
        ClientRefusal::ValueTooLarge { length } => Ok(put_too_large(out, *length)?),
        ClientRefusal::Collision { address, .. } => Ok(put_collision(out, address)?),
        ClientRefusal::DiskFault => Err(Status::DiskFault),
        ClientRefusal::Failed { .. } => Err(Status::DiskFault),
        ClientRefusal::Memory => Err(Status::Memory),
        ClientRefusal::UnknownBranch { .. } | ClientRefusal::NoSequences => unreachable!(),
    }
}

// Writes the line of a client.
fn put_outcome(out: &mut Vec<u8>, client: u64, outcome: &Outcome) -> Result<(), Status>
    requires { FindsAll outcome.now }
    ensures ok { OnOk result (IfSome (client_line client outcome.now) (λ line.
        out.new.items ≡ out.old.items ++ line)) }
    ensures told { OnOk result (IsSome (client_line client outcome.now)) }
    ensures err { IfErr result (StopsFor (TellsFault outcome.now)) }
{
    match outcome {
        Outcome::Done { places } => {
            let moves = places.as_slice().len() as u64;
            Ok(put_client_done(out, client, moves)?)
        }
        Outcome::Refused { refusal, .. } => {
            put_client(out, client)?;
            put_client_refusal(out, refusal)
        }
        Outcome::Unseen { .. } => unreachable!(),
    }
}

// Writes the lines of all clients, in their order.
fn put_outcomes(out: &mut Vec<u8>, outcomes: &[Outcome]) -> Result<(), Status>
    requires { AllByRecursion FindsAll outcomes.now }
    ensures ok { OnOk result (IfSome (client_lines 0 outcomes.now) (λ lines.
        out.new.items ≡ out.old.items ++ lines)) }
    ensures told { OnOk result (IsSome (client_lines 0 outcomes.now)) }
    ensures err { IfErr result (StopsFor (SomeTellFault outcomes.now)) }
{
    for (client, outcome) in outcomes.iter().enumerate() {
        put_outcome(out, client as u64, outcome)?;
    }
    Ok(())
}

// Writes what became of the clients, and then the report of the store.
fn put_together<T: Kinded, D: Disk + Drop, A: Address>(
    out: &mut Vec<u8>,
    outcomes: &[Outcome],
    core: &Core<T, D, A>,
) -> Result<(), Status>
    requires finds { AllByRecursion FindsAll outcomes.now }
    requires empty { out.old.items ≡ [] }
    ensures ok { OnOk result (TellsClients core.now.terms.origin outcomes.now core.now.history
        out.new.items) }
    ensures err { IfErr result (StopsFor (SomeTellFault outcomes.now)) }
{
    put_outcomes(out, outcomes)?;
    Ok(put_report(out, core)?)
}

// Says what became of the clients, and then the report of the store.
fn say_together<T: Kinded, K: Sink, D: Disk + Drop, A: Address>(
    alloc: Global,
    sink: &mut K,
    outcomes: &[Outcome],
    core: &Core<T, D, A>,
) -> Status
    requires finds { AllByRecursion FindsAll outcomes.now }
    ensures wrote { Answers (TellsClients core.now.terms.origin outcomes.now core.now.history)
        (λ whole. ⊥) result (K.given sink.old) (K.given sink.new) }
    ensures fault { result ≡ Status.DiskFault → SomeTellFault outcomes.now }
    ensures reason { SaysReason (K.faults sink.old) (K.faults sink.new) result }
{
    let mut text = Vec::new(alloc);
    match put_together(&mut text, outcomes, core) {
        Ok(()) => say(sink, &text, Status::Done),
        Err(status) => status,
    }
}

// Runs clients side by side over a store that was opened, and hands its disk back.
fn together_over<
    T: Kinded + Send + Sync,
    K: Sink,
    D: Disk + Drop + Send,
    A: Address + Send,
    R: Threads + Wait + Sync,
>(rt: &R, alloc: Global, core: Core<T, D, A>, work: Work, sink: &mut K) -> (Status, D)
    requires fresh { core.opened ≡ core.disk }
    requires working { core.failed ≡ false }
    ensures wrote { Answers (RanOver D.may_leave (value_type T.meaning T.forms T.KIND) A.address
        (record { terms = core.terms; history = core.history })
        (record { count = work.count; work = record { steps = work.steps; number = work.number } })
        result.1)
        (λ whole. ⊥) result.0 (K.given sink.old) (K.given sink.new) }
    ensures survives { SurvivesClients D.Disk (value_type T.meaning T.forms T.KIND) A.address
        (record { terms = core.terms; history = core.history })
        (record {
          count = work.count;
          work = record { steps = work.steps; number = work.number };
        }) core.disk result.1 result.0 }
    ensures reason { (n : ℕ)
        → HasReason (record { source = n; sink = K.faults sink.old; disk = D.faults core.disk })
        (record { source = n; sink = K.faults sink.new; disk = D.faults result.1 }) result.0 }
    // Where the sink failed, the disk did not.
    ensures no_fault { result.0 ≡ Status.WriteFault → D.faults result.1 ≡ D.faults core.disk }
{
    reads_what_stands::<T>();
    has_fully_valid_prefixes::<T>();
    let Finished { core, outcomes } = run_on(rt, alloc, core, work);
    // Its clauses say what is known of a core.
    let _ = core.moves();
    if core.has_failed() {
        let disk = core.close();
        return (Status::DiskFault, disk);
    }
    match outcomes {
        Ok(outcomes) => (
            say_together(alloc, sink, outcomes.as_slice(), &core),
            core.close(),
        ),
        Err(_) => (Status::Memory, core.close()),
    }
}

// Runs clients side by side over the store that the disk holds, with values of a type, each in a thread of its own as
// far as threads are to be had, and says what became of each and the report of the store after them. Nothing is given
// to the sink before all clients are done. The listener hears of the opening.
fn run_together<
    T: Kinded + Send + Sync,
    K: Sink,
    D: Disk + Drop + Send,
    A: Address + Send,
    R: Threads + Wait + Sync,
    L: Listener,
>(rt: &R, alloc: Global, work: Work, sink: &mut K, disk: D, listener: &mut L) -> (Status, D)
    ensures ran { (left : Option (List ℕ))
        → Exchanges left left (K.given sink.old) (K.given sink.new)
        (Ran D.Disk (value_type T.meaning T.forms T.KIND) A.address
        (SaidClients (record {
          count = work.count;
          work = record { steps = work.steps; number = work.number };
        })) disk result.1 left result.0) }
    ensures reason { (n : ℕ)
        → HasReason (record { source = n; sink = K.faults sink.old; disk = D.faults disk })
        (record { source = n; sink = K.faults sink.new; disk = D.faults result.1 }) result.0 }
    // Where the sink failed, the disk did not.
    ensures no_fault { result.0 ≡ Status.WriteFault → D.faults result.1 ≡ D.faults disk }
{
    match open_store::<T, Doc1, D, A, L>(alloc, disk, listener) {
        Ok(core) => together_over(rt, alloc, core, work, sink),
        Err((why, disk)) => (refuse(alloc, sink, why), disk),
    }
}

// Runs clients over the store that the disk holds, which has these values.
fn run_values<
    K: Sink,
    D: Disk + Drop + Send,
    A: Address + Send,
    R: Threads + Wait + Sync,
    L: Listener,
>(
    rt: &R,
    alloc: Global,
    values: Values,
    work: Work,
    sink: &mut K,
    disk: D,
    listener: &mut L,
) -> (Status, D)
    ensures ran { (left : Option (List ℕ)) (which : SpecWhich) (other : _)
        → Exchanges left left (K.given sink.old) (K.given sink.new)
        (RanBy values D.Disk A.address
        (SaidClients (record {
          count = work.count;
          work = record { steps = work.steps; number = work.number };
        })) which disk result.1 other other left result.0) }
    ensures usage { result.0 ≢ Status.Usage }
    ensures reason { (n : ℕ)
        → HasReason (record { source = n; sink = K.faults sink.old; disk = D.faults disk })
        (record { source = n; sink = K.faults sink.new; disk = D.faults result.1 }) result.0 }
    // Where the sink failed, the disk did not.
    ensures no_fault { result.0 ≡ Status.WriteFault → D.faults result.1 ≡ D.faults disk }
{
    match values {
        Values::Documents => run_together::<Doc, K, D, A, R, L>(
            rt, alloc, work, sink, disk, listener,
        ),
        Values::WithSequences => run_together::<Wide, K, D, A, R, L>(
            rt, alloc, work, sink, disk, listener,
        ),
    }
}

/// Runs clients side by side over the store that the current one of two disks holds, and hands both disks back. It is the
/// only call of this crate that takes something to start threads and to wait with: it may wait for a lock or for a
/// thread, and what its clauses say it owes where it returns.
///
/// As `run_alone` does, it chooses the current disk and the values that its store has, and leaves the other one as it
/// was. It starts up to so many threads. All clients are joined before the store is closed, and before anything is
/// written: a line of each client, and the report. After `Done` the files read as the store with the history whose report
/// was written: it begins with the one that was found, each client's moves lie behind that in its own order, and the sum
/// of the numbers of the lines, with the moves of clients that were refused, is how many moves lie behind the old history.
/// Whatever the status, a crash at any moment from the opening of the store on leaves files that read as the store with a
/// part of such a history, or of its own where no client began, and with no fewer moves than it had then; at the end with
/// the whole history. After a fault of the disk moves may stand behind it that were told to nobody, at most 64, some or
/// all. They are valid there, and each is one that a drawn step of some client may make. Before the opening a crash leaves
/// only what it might have left at the start. A fault comes only where the count of faults of that object rose, and no
/// other count rises.
///
/// The listener hears of each record that is read back when the store is opened, and changes nothing.
pub fn run_clients<
    K: Sink,
    D: Disk + Drop + Send,
    A: Address + Send,
    R: Threads + Wait + Sync,
    L: Listener,
>(
    rt: &R,
    alloc: Global,
    work: Work,
    sink: &mut K,
    first: D,
    second: D,
    listener: &mut L,
) -> (Status, D, D)
    ensures ran { (left : Option (List ℕ)) → Exchanges left left (K.given sink.old)
        (K.given sink.new)
        (RanOverBoth D.Disk A.address
        (SaidClients (record {
          count = work.count;
          work = record { steps = work.steps; number = work.number };
        }))
        (record { first = first; second = second })
        (record { first = result.1; second = result.2 }) left result.0) }
    ensures usage { result.0 ≢ Status.Usage }
    ensures reason { (n : ℕ) → HaveReason
        (record {
          source = n;
          sink = K.faults sink.old;
          first = D.faults first;
          second = D.faults second;
        })
        (record {
          source = n;
          sink = K.faults sink.new;
          first = D.faults result.1;
          second = D.faults result.2;
        }) result.0 }
    // Where the sink failed, no disk did.
    ensures no_fault { result.0 ≡ Status.WriteFault
        → (D.faults result.1 ≡ D.faults first) × (D.faults result.2 ≡ D.faults second) }
{
    let mut first = first;
    let mut second = second;
    let chosen = match choose(&mut first, &mut second) {
        Ok(chosen) => chosen,
        Err(DiskFailed) => return (Status::DiskFault, first, second),
    };
    match chosen.which {
        Which::First => {
            let (status, first) = run_values::<K, D, A, R, L>(
                rt,
                alloc,
                chosen.values,
                work,
                sink,
                first,
                listener,
            );
            (status, first, second)
        }
        Which::Second => {
            let (status, second) = run_values::<K, D, A, R, L>(
                rt,
                alloc,
                chosen.values,
                work,
                sink,
                second,
                listener,
            );
            (status, first, second)
        }
    }
}
