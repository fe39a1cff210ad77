// The commands that take no input, and what they write.
ghost use Rattle.std.specs.Prelude.{◌≡◌, ◌⊎◌, ◌<◌, ◌++◌, [], ℕ, List, length, slice_get, true, false, Some, Err, OnOk, IfOk, IfErr, IfSome, IsSome, ◌↔◌};
ghost use Rattle.std.specs.Io.KnownBytes.{Keeps};
ghost use Rattle.branch_io.specs.Causes.{Rose};
ghost use Rattle.std.specs.Option.{ForSome};
ghost use Rattle.branch_disk.specs.Disk.{Files, LeavesOnly};
ghost use Rattle.branch_history.specs.History.{store_of};
ghost use Rattle.branch_print.specs.Reports.{branch_line, report_text};
ghost use Rattle.store_core.specs.Inits.{IsEmpty};
ghost use Rattle.branch_shell.specs.Counts.{HasReason, HaveReason, SaysReason};
ghost use Rattle.branch_shell.specs.Disks.{StaysSame};
ghost use Rattle.branch_shell.specs.Ran.{SaysMade, SaysNotMade};
ghost use Rattle.branch_shell.specs.Refusals.{open_refusal_text, unopened_text};
ghost use Rattle.branch_shell.specs.Stores.{AreThese, SaysReady, SaysNotEmpty, ReadsAsEmpty, ReadsAsNoneOrEmpty};
ghost use Rattle.branch_shell.specs.Once.{Answers, Says};

use crate::script::give_all;
use crate::status::Status;
use crate::unopened::Unopened;
use branch_address::Address;
use branch_disk::{Disk, DiskFailed, Part};
use branch_files::forms::reads_as_today;
use branch_files::laws::reads_what_stands;
use branch_io::{Sink, SinkFailed};
use branch_names::Terms;
use branch_print::reports::{
    put_bad_commit, put_bad_object, put_bad_record, put_branch, put_no_store, put_old_version,
    put_totals, put_truncated,
};
use commit_replay::laws::reads_as_no_store;
use mrdt_model::{Memory, Mrdt};
use std::alloc::Global;
use store_core::{Core, InitRefused, OpenRefused};

// The status of a run whose sink is to hand on what it holds back.
fn finish<K: Sink>(sink: &mut K, status: Status) -> Status
    ensures kept { Keeps (K.given sink.old) (K.given sink.new) }
    ensures status { ((result ≡ status) × (K.faults sink.new ≡ K.faults sink.old))
        ⊎ ((result ≡ Status.WriteFault) × Rose (K.faults sink.old) (K.faults sink.new)) }
{
    match sink.finish() {
        Ok(()) => status,
        Err(SinkFailed) => Status::WriteFault,
    }
}

/// Gives a text, and ends with this status.
pub(crate) fn say<K: Sink>(sink: &mut K, text: &[u8], status: Status) -> Status
    ensures { Says text.now status result (K.given sink.old) (K.given sink.new) (K.faults sink.old)
        (K.faults sink.new) }
{
    match give_all(sink, text) {
        Ok(()) => finish(sink, status),
        Err(SinkFailed) => Status::WriteFault,
    }
}

// Writes why the files are refused.
pub(crate) fn put_refusal(out: &mut Vec<u8>, refusal: OpenRefused) -> Result<(), Status>
    ensures ok { OnOk result (IfSome (open_refusal_text refusal) (λ text. out.new.items
        ≡ out.old.items ++ text)) }
    ensures files { OnOk result (IsSome (open_refusal_text refusal)) }
    ensures err { IfErr result (λ status. (status ≡ Status.Memory)
        ⊎ ((status ≡ Status.DiskFault) × (refusal ≡ OpenRefused.DiskFault))) }
    ensures fault { refusal ≡ OpenRefused.DiskFault → result ≡ Err Status.DiskFault }
{
    match refusal {
        OpenRefused::NotAStore => Ok(put_no_store(out)?),
        OpenRefused::BadRecord { number } => Ok(put_bad_record(out, number)?),
        OpenRefused::Truncated { part, place } => Ok(put_truncated(out, part, place)?),
        OpenRefused::BadObject { place } => Ok(put_bad_object(out, place)?),
        OpenRefused::BadCommit { number } => Ok(put_bad_commit(out, number)?),
        OpenRefused::DiskFault => Err(Status::DiskFault),
        OpenRefused::Memory => Err(Status::Memory),
    }
}

// Writes why a store was not opened.
fn put_unopened(out: &mut Vec<u8>, why: Unopened) -> Result<(), Status>
    ensures ok { OnOk result (IfSome (unopened_text why) (λ text. out.new.items
        ≡ out.old.items ++ text)) }
    ensures files { OnOk result (IsSome (unopened_text why)) }
    ensures err { IfErr result (λ status. (status ≡ Status.Memory)
        ⊎ ((status ≡ Status.DiskFault) × (why ≡ Unopened.Refused OpenRefused.DiskFault))) }
    ensures fault { why ≡ Unopened.Refused OpenRefused.DiskFault → result ≡ Err Status.DiskFault }
{
    match why {
        Unopened::OldVersion => Ok(put_old_version(out)?),
        Unopened::Refused(refusal) => put_refusal(out, refusal),
    }
}

// Says why a store was not opened.
pub(crate) fn refuse<K: Sink>(alloc: Global, sink: &mut K, why: Unopened) -> Status
    ensures wrote { Answers (λ whole. ⊥) (λ whole. unopened_text why ≡ Some whole) result
        (K.given sink.old) (K.given sink.new) }
    ensures files { result ≡ Status.StoreRefused → IsSome (unopened_text why) }
    ensures fault { (result ≡ Status.DiskFault) ↔ (why ≡ Unopened.Refused OpenRefused.DiskFault) }
    ensures reason { SaysReason (K.faults sink.old) (K.faults sink.new) result }
{
    let mut text = Vec::new(alloc);
    match put_unopened(&mut text, why) {
        Ok(()) => say(sink, &text, Status::StoreRefused),
        Err(status) => status,
    }
}

// Writes the line of a branch: none where it was dropped.
fn put_branch_line<T: Mrdt, D: Disk + Drop, A: Address>(
    out: &mut Vec<u8>,
    core: &Core<T, D, A>,
    number: u32,
) -> Result<(), Memory>
    requires { number < length (store_of core.now.terms.origin core.now.history).branches }
    ensures { OnOk result (IfSome
        (slice_get (store_of core.now.terms.origin core.now.history).branches number)
        (λ b. out.new.items ≡ out.old.items ++ branch_line b)) }
{
    if core.is_dropped(number) {
        return Ok(());
    }
    let (name, head) = core.branch(number).unwrap();
    put_branch(out, &name, head)
}

/// Writes the report of a store. The branches that were dropped have no line in it.
pub(crate) fn put_report<T: Mrdt, D: Disk + Drop, A: Address>(
    out: &mut Vec<u8>,
    core: &Core<T, D, A>,
) -> Result<(), Memory>
    ensures { OnOk result (out.new.items ≡ out.old.items
        ++ report_text core.now.terms.origin core.now.history) }
{
    for number in 0..core.branches() {
        put_branch_line(out, core, number)?;
    }
    put_totals(out, core.moves(), core.commits(), core.branches())
}

// Makes a store of a disk that holds no bytes, of these terms.
fn make_store<T: Mrdt, K: Sink, D: Disk + Drop, A: Address>(
    alloc: Global,
    terms: Terms,
    sink: &mut K,
    disk: D,
) -> (Status, D)
    ensures wrote { Answers (SaysReady (D.contents disk)) (SaysNotEmpty (D.contents disk)) result.0
        (K.given sink.old) (K.given sink.new) }
    // Where each image was empty, a crash leaves no store, or one of no moves; after `Done` that, whatever the images
    // were.
    ensures any_moment { ((c : Files) → D.may_leave disk c → IsEmpty c)
        → LeavesOnly D.moment D.left_since disk result.1
        (ReadsAsNoneOrEmpty T.meaning A.address (AreThese terms)) }
    ensures made { result.0 ≡ Status.Done → (c : Files) → D.may_leave result.1 c
        → ReadsAsEmpty T.meaning A.address (AreThese terms) c }
    // Where there are bytes, a crash leaves only what it might have left at the start.
    ensures refused { result.0 ≡ Status.StoreRefused
        → LeavesOnly D.moment D.left_since disk result.1 (D.may_leave disk) }
    ensures kept { (f : Files) → D.contents disk ≡ Some f → ¬ IsEmpty f
        → LeavesOnly D.moment D.left_since disk result.1 (D.may_leave disk) }
    ensures reason { (n : ℕ) → HasReason
        (record { source = n; sink = K.faults sink.old; disk = D.faults disk })
        (record { source = n; sink = K.faults sink.new; disk = D.faults result.1 }) result.0 }
    // Where the sink failed, the disk did not.
    ensures no_fault { result.0 ≡ Status.WriteFault → D.faults result.1 ≡ D.faults disk }
{
    reads_what_stands::<T>();
    reads_as_no_store::<T>();
    reads_as_today::<T>();
    match Core::<T, D, A>::init(alloc, disk, terms) {
        Ok(core) => (say(sink, b"ready\n", Status::Done), core.close()),
        Err((InitRefused::NotEmpty { .. }, disk)) => {
            (
                say(sink, b"refused not empty\n", Status::StoreRefused),
                disk,
            )
        }
        Err((InitRefused::DiskFault, disk)) => (Status::DiskFault, disk),
        Err((InitRefused::Memory, disk)) => (Status::Memory, disk),
    }
}

// Whether a disk holds no bytes.
fn is_empty<D: Disk>(disk: &mut D) -> Result<bool, DiskFailed>
    ensures empty { IfOk result (λ is. is ≡ true → ForSome (D.contents disk.old) IsEmpty) }
    ensures bytes { IfOk result (λ is. is ≡ false
        → ForSome (D.contents disk.old) (λ f. ¬ IsEmpty f)) }
    ensures same { StaysSame D.Disk disk.old disk.new }
    ensures no_cause { OnOk result (D.faults disk.new ≡ D.faults disk.old) }
    ensures cause { IfErr result (λ e. Rose (D.faults disk.old) (D.faults disk.new)) }
{
    let objects = disk.length(Part::Objects)?;
    let heads = disk.length(Part::Heads)?;
    if objects != 0 || heads != 0 {
        return Ok(false);
    }
    Ok(true)
}

/// Makes a store of the first disk, of these terms. Neither disk holds a byte, or it is
/// refused: the second is asked first.
pub(crate) fn run_init<T: Mrdt, K: Sink, D: Disk + Drop, A: Address>(
    alloc: Global,
    terms: Terms,
    sink: &mut K,
    first: D,
    second: D,
) -> (Status, D, D)
    ensures wrote { Answers (SaysMade (D.contents first) (D.contents second))
        (SaysNotMade (D.contents first) (D.contents second)) result.0 (K.given sink.old)
        (K.given sink.new) }
    // Where each image of the first was empty, a crash leaves there no store, or one of no moves; after `Done` that,
    // whatever the images were.
    ensures any_moment { ((c : Files) → D.may_leave first c → IsEmpty c)
        → LeavesOnly D.moment D.left_since first result.1
        (ReadsAsNoneOrEmpty T.meaning A.address (AreThese terms)) }
    ensures made { result.0 ≡ Status.Done → (c : Files) → D.may_leave result.1 c
        → ReadsAsEmpty T.meaning A.address (AreThese terms) c }
    // Where there are bytes, a crash leaves only what it might have left at the start.
    ensures refused { result.0 ≡ Status.StoreRefused
        → LeavesOnly D.moment D.left_since first result.1 (D.may_leave first) }
    ensures kept { (f : Files) → D.contents first ≡ Some f → ¬ IsEmpty f
        → LeavesOnly D.moment D.left_since first result.1 (D.may_leave first) }
    ensures full { (f : Files) → D.contents second ≡ Some f → ¬ IsEmpty f → result.1 ≡ first }
    ensures second { StaysSame D.Disk second result.2 }
    ensures reason { (n : ℕ) → HaveReason
        (record {
          source = n;
          sink = K.faults sink.old;
          first = D.faults first;
          second = D.faults second;
        })
        (record {
          source = n;
          sink = K.faults sink.new;
          first = D.faults result.1;
          second = D.faults result.2;
        }) result.0 }
    // Where the sink failed, no disk did.
    ensures no_fault { result.0 ≡ Status.WriteFault
        → (D.faults result.1 ≡ D.faults first) × (D.faults result.2 ≡ D.faults second) }
{
    let mut second = second;
    match is_empty(&mut second) {
        Ok(true) => {
            let (status, first) = make_store::<T, K, D, A>(alloc, terms, sink, first);
            (status, first, second)
        }
        Ok(false) => (
            say(sink, b"refused not empty\n", Status::StoreRefused),
            first,
            second,
        ),
        Err(DiskFailed) => (Status::DiskFault, first, second),
    }
}
