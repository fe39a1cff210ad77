// A script: its lines are taken from a source, and their replies are given to a sink.
ghost use Rattle.std.specs.Prelude.{◌≡◌, ◌⊎◌, ◌+◌, ◌-◌, ◌<◌, ◌≤◌, ◌++◌, ◌∷◌, [], ℕ, List, Some, false, length, take, drop, nat_eq, IfOk, IfErr, IfSome, IfNone, OnOk, OnErr};
ghost use Rattle.std.specs.List.{position_from};
ghost use Rattle.std.specs.Io.KnownBytes.{Appends, Keeps};
ghost use Rattle.branch_io.specs.Causes.{HasCause};
ghost use Rattle.branch_script.specs.Lines.{lines_of};
ghost use Rattle.branch_engine.specs.Play.{begins};
ghost use Rattle.branch_engine.specs.Engines.{IsAt};
ghost use Rattle.branch_shell.specs.Reading.{HasNoLineEnd, GivesPart, Exchanges};
ghost use Rattle.branch_shell.specs.Counts.{HasReason, StopsAtFault, StopsTelling};
ghost use Rattle.branch_shell.specs.Telling.{TellsLines, StopsLines, TellsWhole, StopsWhole, Takes};
ghost use Rattle.branch_shell.specs.Documents.{fixed_of};
ghost use Rattle.branch_shell.specs.Stores.{Stored};
ghost use Rattle.branch_shell.specs.Values.{value_type};
ghost use Rattle.branch_command.specs.Commands.{Script as SaidScript};
ghost use Rattle.branch_shell.specs.Statuses.{WroteOf, Runs, status_of};
ghost use Rattle.branch_shell.specs.Ran.{Ran};

use crate::answer::refuse;
use crate::kinded::Kinded;
use crate::lines::LineCount;
use crate::status::Status;
use crate::unopened::open_store;
use branch_address::Address;
use branch_disk::Disk;
use branch_engine::{Engine, TellRefused};
use branch_io::{Sink, SinkFailed, Source, SourceFailed};
use branch_progress::Listener;
use mrdt_old_doc::Doc1;
use std::alloc::Global;
use store_core::Core;

// The most bytes that a line has before its end, and one more.
const LINE_LIMIT: usize = 4096;

// The most bytes that a script has, or a bundle, and one more.
pub(crate) const INPUT_LIMIT: u64 = 1 << 32;

// Gives all the bytes of a text.
pub(crate) fn give_all<K: Sink>(sink: &mut K, text: &[u8]) -> Result<(), SinkFailed>
    ensures ok { OnOk result (Appends (K.given sink.old) (K.given sink.new) text.now) }
    ensures err { OnErr result (GivesPart (K.given sink.old) (K.given sink.new) text.now) }
    ensures cause { HasCause (K.faults sink.old) (K.faults sink.new) result }
{
    let mut rest = text;
    while !rest.is_empty() {
        let count = sink.give(rest)?;
        rest = &rest[count..];
    }
    Ok(())
}

// Tells one line, and gives its reply. Then it counts as one more that was run.
fn tell_line<T: Kinded, K: Sink, D: Disk + Drop, A: Address, L: Listener>(
    alloc: Global,
    engine: &mut Engine<T, D, A>,
    sink: &mut K,
    line: &[u8],
    count: &mut LineCount,
    listener: &mut L,
) -> Result<(), Status>
    requires working { engine.old.core.failed ≡ false }
    ensures ok { OnOk result (TellsLines D.may_leave D.moment D.left_since
        (value_type T.meaning T.forms T.KIND) A.address (line.now ∷ [])
        engine.old engine.new (K.given sink.old) (K.given sink.new)) }
    ensures err { IfErr result (StopsLines D.may_leave D.moment D.left_since
        (value_type T.meaning T.forms T.KIND) A.address (line.now ∷ [])
        engine.old engine.new (K.given sink.old) (K.given sink.new)) }
    ensures working { OnOk result (engine.new.core.failed ≡ false) }
    ensures sink_same { OnOk result (K.faults sink.new ≡ K.faults sink.old) }
    ensures disk_same { OnOk result (D.faults engine.new.core.disk
        ≡ D.faults engine.old.core.disk) }
    ensures cause { IfErr result (StopsTelling (K.faults sink.old) (K.faults sink.new)
        (D.faults engine.old.core.disk) (D.faults engine.new.core.disk)) }
{
    let mut reply = Vec::new(alloc);
    match engine.tell(&mut reply, line) {
        Ok(()) => {}
        Err(TellRefused::DiskFault) => return Err(Status::DiskFault),
        Err(TellRefused::Memory) => return Err(Status::Memory),
    }
    match give_all(sink, &reply) {
        Ok(()) => {
            count.hear_next(listener);
            Ok(())
        }
        Err(SinkFailed) => Err(Status::WriteFault),
    }
}

// The place of the first line end.
fn line_end(bytes: &[u8]) -> Option<usize>
    ensures first { result ≡ position_from (λ b. nat_eq b 10) 0 bytes.now }
    ensures within { IfSome result (λ at. at < length bytes.now) }
{
    bytes.iter().position(|byte| *byte == b'\n')
}

/// The line before the first line end, and what is behind it. The first `known` bytes hold no line end.
pub(crate) fn first_line(bytes: &[u8], known: usize) -> Option<(&[u8], &[u8])>
    requires within { known ≤ length bytes.now }
    requires unended { HasNoLineEnd (take known bytes.now) }
    ensures some { IfSome result (λ cut. (bytes.now ≡ cut.0.now ++ 10 ∷ cut.1.now)
        × HasNoLineEnd cut.0.now) }
    ensures none { IfNone result (HasNoLineEnd bytes.now) }
{
    match line_end(&bytes[known..]) {
        Some(at) => Some((&bytes[..known + at], &bytes[known + at + 1..])),
        None => None,
    }
}

// Tells the whole lines, and says what is behind the last. The first `known` bytes hold no line end.
fn tell_whole_lines<'a, T: Kinded, K: Sink, D: Disk + Drop, A: Address, L: Listener>(
    alloc: Global,
    engine: &mut Engine<T, D, A>,
    sink: &mut K,
    bytes: &'a [u8],
    known: usize,
    count: &mut LineCount,
    listener: &mut L,
) -> Result<&'a [u8], Status>
    requires working { engine.old.core.failed ≡ false }
    requires few { length bytes.now ≤ 4096 }
    requires within { known ≤ length bytes.now }
    requires unended { HasNoLineEnd (take known bytes.now) }
    ensures ok { IfOk result (λ rest.
        TellsWhole D.may_leave D.moment D.left_since (value_type T.meaning T.forms T.KIND) A.address
        bytes.now rest.now engine.old engine.new (K.given sink.old) (K.given sink.new)) }
    ensures err { IfErr result (StopsWhole D.may_leave D.moment D.left_since
        (value_type T.meaning T.forms T.KIND) A.address bytes.now
        engine.old engine.new (K.given sink.old) (K.given sink.new)) }
    ensures working { OnOk result (engine.new.core.failed ≡ false) }
    ensures sink_same { OnOk result (K.faults sink.new ≡ K.faults sink.old) }
    ensures disk_same { OnOk result (D.faults engine.new.core.disk
        ≡ D.faults engine.old.core.disk) }
    ensures cause { IfErr result (StopsTelling (K.faults sink.old) (K.faults sink.new)
        (D.faults engine.old.core.disk) (D.faults engine.new.core.disk)) }
{
    let mut rest = bytes;
    let mut scanned = known;
    while let Some((line, behind)) = first_line(rest, scanned) {
        tell_line(alloc, engine, sink, line, count, listener)?;
        rest = behind;
        scanned = 0;
    }
    Ok(rest)
}

// Tells the last line, which has no end, if there is one.
fn tell_last<T: Kinded, K: Sink, D: Disk + Drop, A: Address, L: Listener>(
    alloc: Global,
    engine: &mut Engine<T, D, A>,
    sink: &mut K,
    line: &[u8],
    count: &mut LineCount,
    listener: &mut L,
) -> Result<(), Status>
    requires working { engine.old.core.failed ≡ false }
    requires unended { HasNoLineEnd line.now }
    ensures ok { OnOk result (TellsLines D.may_leave D.moment D.left_since
        (value_type T.meaning T.forms T.KIND) A.address (lines_of line.now)
        engine.old engine.new (K.given sink.old) (K.given sink.new)) }
    ensures err { IfErr result (StopsLines D.may_leave D.moment D.left_since
        (value_type T.meaning T.forms T.KIND) A.address (lines_of line.now)
        engine.old engine.new (K.given sink.old) (K.given sink.new)) }
    ensures sink_same { OnOk result (K.faults sink.new ≡ K.faults sink.old) }
    ensures disk_same { OnOk result (D.faults engine.new.core.disk
        ≡ D.faults engine.old.core.disk) }
    ensures cause { IfErr result (StopsTelling (K.faults sink.old) (K.faults sink.new)
        (D.faults engine.old.core.disk) (D.faults engine.new.core.disk)) }
{
    if line.is_empty() {
        return Ok(());
    }
    tell_line(alloc, engine, sink, line, count, listener)
}

/// Takes the next bytes from the source, at most `room`, behind the first `waiting` bytes of the buffer; 0 is the end.
pub(crate) fn take_more<S: Source>(
    source: &mut S,
    buffer: &mut [u8],
    waiting: usize,
    room: usize,
) -> Result<usize, SourceFailed>
    requires some { 0 < room }
    requires within { waiting + room ≤ length buffer.old }
    ensures ok { IfOk result (λ count. (count ≤ room)
        × Takes (take waiting buffer.old) (take (waiting + count) buffer.new) (S.left source.old)
        (S.left source.new) count) }
    ensures err { OnErr result (Keeps (S.left source.old) (S.left source.new)) }
    ensures size { length buffer.new ≡ length buffer.old }
    ensures cause { HasCause (S.faults source.old) (S.faults source.new) result }
{
    source.take(&mut buffer[waiting..waiting + room])
}

// Moves the bytes between two places to the front.
fn move_to_front(buffer: &mut [u8], start: usize, end: usize)
    requires order { start ≤ end }
    requires within { end ≤ length buffer.old }
    ensures moved { take (end - start) buffer.new ≡ drop start (take end buffer.old) }
    ensures size { length buffer.new ≡ length buffer.old }
{
    if start == 0 {
        return;
    }
    buffer.copy_within(start..end, 0);
}

// Tells the lines of the source to its end, or to what stops it.
fn tell_all<T: Kinded, S: Source, K: Sink, D: Disk + Drop, A: Address, L: Listener>(
    alloc: Global,
    engine: &mut Engine<T, D, A>,
    source: &mut S,
    sink: &mut K,
    listener: &mut L,
) -> Result<(), Status>
    requires working { engine.old.core.failed ≡ false }
    ensures ran { (store : Stored T.Op T.Reply)
        → IsAt D.may_leave (fixed_of (value_type T.meaning T.forms T.KIND) A.address store)
        engine.old (begins store.history)
        → Exchanges (S.left source.old) (S.left source.new) (K.given sink.old) (K.given sink.new)
        (Runs D.may_leave D.moment D.left_since (value_type T.meaning T.forms T.KIND) A.address
        store engine.old.core.disk engine.new.core.disk (S.left source.new) (status_of result)) }
    ensures reason { StopsAtFault
        (record {
          source = S.faults source.old;
          sink = K.faults sink.old;
          disk = D.faults engine.old.core.disk;
        })
        (record {
          source = S.faults source.new;
          sink = K.faults sink.new;
          disk = D.faults engine.new.core.disk;
        }) (status_of result) }
{
    let mut buffer = [0u8; LINE_LIMIT];
    let mut waiting: usize = 0;
    let mut read: u64 = 0;
    let mut lines = LineCount::new();
    while read < INPUT_LIMIT {
        let left = INPUT_LIMIT - read;
        let room = (LINE_LIMIT - waiting).min(left as usize);
        let count = match take_more(source, &mut buffer, waiting, room) {
            Ok(count) => count,
            Err(SourceFailed) => return Err(Status::ReadFault),
        };
        if count == 0 {
            return tell_last(
                alloc,
                engine,
                sink,
                &buffer[..waiting],
                &mut lines,
                listener,
            );
        }
        read += count as u64;
        let end = waiting + count;
        let rest = tell_whole_lines(
            alloc,
            engine,
            sink,
            &buffer[..end],
            waiting,
            &mut lines,
            listener,
        )?;
        waiting = rest.len();
        if waiting >= LINE_LIMIT {
            return Err(Status::LineTooLong);
        }
        move_to_front(&mut buffer, end - waiting, end);
    }
    Err(Status::InputTooLong)
}

// The status of a script that ran to its end, or was stopped.
fn ended(outcome: Result<(), Status>) -> Status
    ensures { result ≡ status_of outcome }
{
    match outcome {
        Ok(()) => Status::Done,
        Err(status) => status,
    }
}

// Runs a script over a store that was opened, and hands its disk back.
fn run_opened<T: Kinded, S: Source, K: Sink, D: Disk + Drop, A: Address, L: Listener>(
    alloc: Global,
    core: Core<T, D, A>,
    source: &mut S,
    sink: &mut K,
    listener: &mut L,
) -> (Status, D)
    requires working { core.failed ≡ false }
    ensures ran { Exchanges (S.left source.old) (S.left source.new) (K.given sink.old)
        (K.given sink.new)
        (Runs D.may_leave D.moment D.left_since (value_type T.meaning T.forms T.KIND) A.address
        (record { terms = core.terms; history = core.history }) core.disk result.1
        (S.left source.new) result.0) }
    ensures reason { HasReason
        (record {
          source = S.faults source.old;
          sink = K.faults sink.old;
          disk = D.faults core.disk;
        })
        (record {
          source = S.faults source.new;
          sink = K.faults sink.new;
          disk = D.faults result.1;
        }) result.0 }
    // Where the sink fails behind a fault, all that such a fault leaves was given.
    ensures behind_source { result.0 ≡ Status.WriteFault
        → (S.faults source.new ≡ S.faults source.old)
        ⊎ Exchanges (S.left source.old) (S.left source.new) (K.given sink.old) (K.given sink.new)
        (Runs D.may_leave D.moment D.left_since (value_type T.meaning T.forms T.KIND) A.address
        (record { terms = core.terms; history = core.history }) core.disk result.1
        (S.left source.new) Status.ReadFault) }
    ensures behind_disk { result.0 ≡ Status.WriteFault
        → (D.faults result.1 ≡ D.faults core.disk)
        ⊎ Exchanges (S.left source.old) (S.left source.new) (K.given sink.old) (K.given sink.new)
        (Runs D.may_leave D.moment D.left_since (value_type T.meaning T.forms T.KIND) A.address
        (record { terms = core.terms; history = core.history }) core.disk result.1
        (S.left source.new) Status.DiskFault) }
{
    let mut engine = Engine::new(alloc, core);
    let outcome = tell_all(alloc, &mut engine, source, sink, listener);
    match sink.finish() {
        Ok(()) => (ended(outcome), engine.close()),
        Err(SinkFailed) => (Status::WriteFault, engine.close()),
    }
}

/// Runs the lines that the source holds over the store that the disk holds, and gives the sink their replies, each
/// before the next line is worked on. It takes from the source only when no whole line is left. The listener hears of the
/// opening, and of each line behind its reply.
pub(crate) fn run_script<T: Kinded, S: Source, K: Sink, D: Disk + Drop, A: Address, L: Listener>(
    alloc: Global,
    source: &mut S,
    sink: &mut K,
    disk: D,
    listener: &mut L,
) -> (Status, D)
    ensures ran { Exchanges (S.left source.old) (S.left source.new) (K.given sink.old)
        (K.given sink.new) (Ran D.Disk (value_type T.meaning T.forms T.KIND) A.address SaidScript
        disk result.1 (S.left source.new) result.0) }
    ensures reason { HasReason
        (record { source = S.faults source.old; sink = K.faults sink.old; disk = D.faults disk })
        (record {
          source = S.faults source.new;
          sink = K.faults sink.new;
          disk = D.faults result.1;
        }) result.0 }
    // Where the sink fails behind a fault, all that such a fault leaves was given.
    ensures behind_source { result.0 ≡ Status.WriteFault
        → (S.faults source.new ≡ S.faults source.old)
        ⊎ Exchanges (S.left source.old) (S.left source.new) (K.given sink.old) (K.given sink.new)
        (WroteOf (value_type T.meaning T.forms T.KIND) A.address SaidScript (D.contents disk)
        (S.left source.new) Status.ReadFault) }
    ensures behind_disk { result.0 ≡ Status.WriteFault
        → (D.faults result.1 ≡ D.faults disk)
        ⊎ Exchanges (S.left source.old) (S.left source.new) (K.given sink.old) (K.given sink.new)
        (WroteOf (value_type T.meaning T.forms T.KIND) A.address SaidScript (D.contents disk)
        (S.left source.new) Status.DiskFault) }
{
    match open_store::<T, Doc1, D, A, L>(alloc, disk, listener) {
        Ok(core) => run_opened(alloc, core, source, sink, listener),
        Err((why, disk)) => (refuse(alloc, sink, why), disk),
    }
}
