// Receiving a bundle as a new branch.
ghost use Rattle.std.specs.Prelude.{◌≡◌, ◌⊎◌, ◌↔◌, ◌^◌, ◌<◌, ◌++◌, ℕ, length, Some, None, Err, OnOk, IfOk, IfErr, IfSome, IsSome, false};
ghost use Rattle.std.specs.Io.KnownBytes.{Consumes, IsAtEnd};
ghost use Rattle.branch_disk.specs.Disk.{LeavesOnly};
ghost use Rattle.branch_names.specs.Heads.{branch_named};
ghost use Rattle.branch_history.specs.History.{store_of};
ghost use Rattle.branch_history.specs.Steps.{NameTaken};
ghost use Rattle.branch_print.specs.Sent.{received_text, stop_text};
ghost use Rattle.branch_shell.specs.Reading.{Exchanges};
ghost use Rattle.branch_shell.specs.Counts.{HasReason, SaysReason};
ghost use Rattle.branch_shell.specs.Once.{Answers};
ghost use Rattle.branch_shell.specs.Bundling.{not_received_text, StopsReading, SourceReason, SaysReceipt, IsSuccess, IsRefusal, ReadsOnTheWay, ReceivesFrom, TakenFrom, RanReceive};

use crate::answer::{refuse, say};
use crate::head::head_named;
use crate::kinded::Kinded;
use crate::script::{INPUT_LIMIT, take_more};
use crate::status::Status;
use crate::unopened::open_store;
use branch_address::Address;
use branch_disk::Disk;
use branch_files::laws::reads_what_stands;
use branch_io::{Sink, Source, SourceFailed};
use branch_names::Name;
use branch_print::sent::{
    put_received, put_refused_bundle, put_refused_collision, put_refused_exhausted,
    put_refused_full_branches, put_refused_full_commits, put_refused_full_moves,
    put_refused_own_origin, put_refused_taken, put_refused_time_clash, put_refused_too_large,
};
use branch_progress::Listener;
use branch_receipts::laws::{accepts_sent, keeps_on_the_way, keeps_received};
use mrdt_model::Mrdt;
use std::alloc::Global;
use store_core::Core;
use store_receive::{NotReceived, Placed, receive_bytes};

// How many bytes are taken from the source at once.
const PIECE: usize = 4096;

// Reads the source to its end.
fn read_all<S: Source>(alloc: Global, source: &mut S) -> Result<Vec<u8>, Status>
    ensures read { IfOk result (λ bytes. Consumes (S.left source.old) (S.left source.new)
        bytes.items) }
    ensures end { OnOk result (IsAtEnd (S.left source.new)) }
    ensures few { IfOk result (λ bytes. length bytes.items < 2 ^ 32) }
    ensures stopped { IfErr result (StopsReading (S.left source.old) (S.left source.new)) }
    ensures same { OnOk result (S.faults source.new ≡ S.faults source.old) }
    ensures cause { IfErr result (SourceReason (S.faults source.old) (S.faults source.new)) }
{
    let mut bytes = Vec::new(alloc);
    let mut buffer = [0u8; PIECE];
    let mut read: u64 = 0;
    while read < INPUT_LIMIT {
        let left = INPUT_LIMIT - read;
        let room = PIECE.min(left as usize);
        let count = match take_more(source, &mut buffer, 0, room) {
            Ok(count) => count,
            Err(SourceFailed) => return Err(Status::ReadFault),
        };
        if count == 0 {
            return Ok(bytes);
        }
        read += count as u64;
        let Ok(()) = bytes.extend_from_slice(&buffer[..count]) else {
            return Err(Status::Memory);
        };
    }
    Err(Status::InputTooLong)
}

// Writes why a bundle was not received.
fn put_not_received(out: &mut Vec<u8>, why: &NotReceived) -> Result<(), Status>
    ensures ok { OnOk result (IfSome (not_received_text why.now) (λ text. out.new.items
        ≡ out.old.items ++ text)) }
    ensures told { OnOk result (IsSome (not_received_text why.now)) }
    ensures err { IfErr result (λ status. (status ≡ Status.Memory)
        ⊎ ((status ≡ Status.DiskFault) × (why.now ≡ NotReceived.DiskFault))) }
    ensures fault { why.now ≡ NotReceived.DiskFault → result ≡ Err Status.DiskFault }
{
    match why {
        NotReceived::NoBundle => Ok(put_refused_bundle(out, 0)?),
        NotReceived::BadBundle { item } => Ok(put_refused_bundle(out, *item)?),
        NotReceived::OwnOrigin { item } => Ok(put_refused_own_origin(out, *item)?),
        NotReceived::TimeClash { item, number } => {
            Ok(put_refused_time_clash(out, *item, *number)?)
        }
        NotReceived::Exhausted { clock } => Ok(put_refused_exhausted(out, *clock)?),
        NotReceived::ValueTooLarge { length } => Ok(put_refused_too_large(out, *length)?),
        NotReceived::FullCommits { count } => Ok(put_refused_full_commits(out, *count)?),
        NotReceived::FullMoves { count } => Ok(put_refused_full_moves(out, *count)?),
        NotReceived::Collision { address, .. } => Ok(put_refused_collision(out, address)?),
        NotReceived::NameTaken { number } => Ok(put_refused_taken(out, *number)?),
        NotReceived::FullBranches { count } => Ok(put_refused_full_branches(out, *count)?),
        NotReceived::DiskFault => Err(Status::DiskFault),
        NotReceived::Memory => Err(Status::Memory),
    }
}

// Says why a bundle was not received.
fn refuse_received<K: Sink>(alloc: Global, sink: &mut K, why: &NotReceived) -> Status
    ensures wrote { Answers (λ whole. ⊥) (λ whole. not_received_text why.now ≡ Some whole) result
        (K.given sink.old) (K.given sink.new) }
    ensures fault { (result ≡ Status.DiskFault) ↔ (why.now ≡ NotReceived.DiskFault) }
    ensures reason { SaysReason (K.faults sink.old) (K.faults sink.new) result }
{
    let mut text = Vec::new(alloc);
    match put_not_received(&mut text, why) {
        Ok(()) => say(sink, &text, Status::StoreRefused),
        Err(status) => status,
    }
}

// Says what came of a bundle that was received.
fn say_received<K: Sink>(alloc: Global, sink: &mut K, placed: Placed) -> Status
    ensures wrote { Answers (λ whole. whole
        ≡ received_text placed.count placed.branch placed.head) (λ whole. ⊥) result
        (K.given sink.old) (K.given sink.new) }
    ensures other { result ≡ Status.DiskFault → ⊥ }
    ensures reason { SaysReason (K.faults sink.old) (K.faults sink.new) result }
{
    let mut text = Vec::new(alloc);
    match put_received(&mut text, placed.count, placed.branch, placed.head) {
        Ok(()) => say(sink, &text, Status::Done),
        Err(_) => Status::Memory,
    }
}

// Says that a branch has the name.
fn say_taken<K: Sink>(alloc: Global, sink: &mut K, number: u32) -> Status
    ensures wrote { Answers (λ whole. ⊥) (λ whole. whole ≡ stop_text 0 (NameTaken number)) result
        (K.given sink.old) (K.given sink.new) }
    ensures other { result ≡ Status.DiskFault → ⊥ }
    ensures reason { SaysReason (K.faults sink.old) (K.faults sink.new) result }
{
    let mut text = Vec::new(alloc);
    match put_refused_taken(&mut text, number) {
        Ok(()) => say(sink, &text, Status::StoreRefused),
        Err(_) => Status::Memory,
    }
}

// Receives bytes that were read, under a name that no branch has, and closes the store.
fn receive_read<T: Mrdt, K: Sink, D: Disk + Drop, A: Address, L: Listener>(
    alloc: Global,
    name: Name,
    bytes: Vec<u8>,
    sink: &mut K,
    core: Core<T, D, A>,
    listener: &mut L,
) -> (Status, D)
    requires working { core.failed ≡ false }
    requires free { branch_named (store_of core.terms.origin core.history).branches name ≡ None }
    requires few { length bytes.items < 2 ^ 32 }
    ensures wrote { Answers
        (SaysReceipt T.meaning A.address (record { terms = core.terms; history = core.history })
        bytes.items name (D.may_leave result.1) IsSuccess)
        (SaysReceipt T.meaning A.address (record { terms = core.terms; history = core.history })
        bytes.items name (D.may_leave result.1) IsRefusal)
        result.0 (K.given sink.old) (K.given sink.new) }
    ensures moments { LeavesOnly D.moment D.left_since core.disk result.1
        (ReadsOnTheWay T.meaning A.address
        (record { terms = core.terms; history = core.history }) bytes.items name) }
    ensures reason { (n : ℕ) → HasReason
        (record { source = n; sink = K.faults sink.old; disk = D.faults core.disk })
        (record { source = n; sink = K.faults sink.new; disk = D.faults result.1 }) result.0 }
    // Where the sink failed, the disk did not.
    ensures no_fault { result.0 ≡ Status.WriteFault → D.faults result.1 ≡ D.faults core.disk }
{
    reads_what_stands::<T>();
    keeps_received::<T>();
    keeps_on_the_way::<T>();
    accepts_sent::<T>();
    let mut core = core;
    // It is a valid history: its count tells the proof so.
    let _moves = core.moves();
    match receive_bytes(alloc, &mut core, bytes, name, listener) {
        Ok(placed) => (say_received(alloc, sink, placed), core.close()),
        Err(why) => (refuse_received(alloc, sink, &why), core.close()),
    }
}

// Reads the source, and receives what it holds, under a name that no branch has.
fn receive_from<T: Mrdt, S: Source, K: Sink, D: Disk + Drop, A: Address, L: Listener>(
    alloc: Global,
    name: Name,
    source: &mut S,
    sink: &mut K,
    core: Core<T, D, A>,
    listener: &mut L,
) -> (Status, D)
    requires working { core.failed ≡ false }
    requires free { branch_named (store_of core.terms.origin core.history).branches name ≡ None }
    ensures ran { Exchanges (S.left source.old) (S.left source.new) (K.given sink.old)
        (K.given sink.new) (ReceivesFrom D.Disk T.meaning A.address name
        (record { terms = core.terms; history = core.history }) core.disk result.1
        (S.left source.new) result.0) }
    ensures reason { HasReason
        (record {
          source = S.faults source.old;
          sink = K.faults sink.old;
          disk = D.faults core.disk;
        })
        (record {
          source = S.faults source.new;
          sink = K.faults sink.new;
          disk = D.faults result.1;
        }) result.0 }
    // Where the sink failed, nothing else did.
    ensures no_fault { result.0 ≡ Status.WriteFault → (S.faults source.new ≡ S.faults source.old)
        × (D.faults result.1 ≡ D.faults core.disk) }
{
    reads_what_stands::<T>();
    match read_all(alloc, source) {
        Ok(bytes) => receive_read(alloc, name, bytes, sink, core, listener),
        Err(status) => (status, core.close()),
    }
}

// Receives what the source holds into a store that was opened. Where a branch has the name the source is not looked at.
fn receive_opened<T: Mrdt, S: Source, K: Sink, D: Disk + Drop, A: Address, L: Listener>(
    alloc: Global,
    name: Name,
    source: &mut S,
    sink: &mut K,
    core: Core<T, D, A>,
    listener: &mut L,
) -> (Status, D)
    requires working { core.failed ≡ false }
    ensures ran { Exchanges (S.left source.old) (S.left source.new) (K.given sink.old)
        (K.given sink.new) (TakenFrom D.Disk T.meaning A.address name
        (record { terms = core.terms; history = core.history }) core.disk result.1
        (S.left source.new) result.0) }
    ensures reason { HasReason
        (record {
          source = S.faults source.old;
          sink = K.faults sink.old;
          disk = D.faults core.disk;
        })
        (record {
          source = S.faults source.new;
          sink = K.faults sink.new;
          disk = D.faults result.1;
        }) result.0 }
    // Where the sink failed, nothing else did.
    ensures no_fault { result.0 ≡ Status.WriteFault → (S.faults source.new ≡ S.faults source.old)
        × (D.faults result.1 ≡ D.faults core.disk) }
{
    match head_named(&core, &name) {
        Ok(Some(at)) => (say_taken(alloc, sink, at.0), core.close()),
        Ok(None) => receive_from(alloc, name, source, sink, core, listener),
        Err(_) => (Status::Memory, core.close()),
    }
}

/// Opens the store that the disk holds, reads the source to its end, receives the bundle that it holds, and makes a
/// branch of a name at its tip. Where a branch has the name the source is not looked at. The listener hears of the opening,
/// and of the items.
pub(crate) fn run_receive<
    T: Kinded,
    U: Mrdt,
    S: Source,
    K: Sink,
    D: Disk + Drop,
    A: Address,
    L: Listener,
>(alloc: Global, name: Name, source: &mut S, sink: &mut K, disk: D, listener: &mut L) -> (Status, D)
    ensures ran { Exchanges (S.left source.old) (S.left source.new) (K.given sink.old)
        (K.given sink.new)
        (RanReceive D.Disk T.KIND T.meaning U.meaning A.address name disk result.1
        (S.left source.new) result.0) }
    ensures reason { HasReason
        (record { source = S.faults source.old; sink = K.faults sink.old; disk = D.faults disk })
        (record {
          source = S.faults source.new;
          sink = K.faults sink.new;
          disk = D.faults result.1;
        }) result.0 }
    // Where the sink failed, nothing else did.
    ensures no_fault { result.0 ≡ Status.WriteFault → (S.faults source.new ≡ S.faults source.old)
        × (D.faults result.1 ≡ D.faults disk) }
{
    match open_store::<T, U, D, A, L>(alloc, disk, listener) {
        Ok(core) => receive_opened(alloc, name, source, sink, core, listener),
        Err((why, disk)) => (refuse(alloc, sink, why), disk),
    }
}
