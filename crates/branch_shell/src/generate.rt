// Generated work: the lines that are drawn from a number are told, and their replies counted.
ghost use Rattle.std.specs.declared.option.Option.{Option};
ghost use Rattle.std.specs.Prelude.{◌≡◌, ◌<◌, ◌≤◌, ◌+◌, ◌-◌, ◌^◌, ◌++◌, ◌∷◌, [], ℕ, List, Some, None, false, length, OnOk, IfOk, IfErr};
ghost use Rattle.branch_script.specs.Lines.{lines_of};
ghost use Rattle.branch_print.specs.Texts.{line_end};
ghost use Rattle.branch_print.specs.Reports.{report_text};
ghost use Rattle.branch_print.specs.Summaries.{AreWithin, summary_of, summary_text};
ghost use Rattle.branch_command.specs.Commands.{Generate as SaidGenerate};
ghost use Rattle.branch_shell.specs.Reading.{IsWholeLines, Exchanges};
ghost use Rattle.branch_shell.specs.Counts.{HasReason, SaysReason, StopsCounting};
ghost use Rattle.branch_shell.specs.Once.{Answers};
ghost use Rattle.branch_shell.specs.Telling.{TellsLines, CountsLines, LeavesSome};
ghost use Rattle.branch_shell.specs.Generated.{drawn_lines, work_text, SurvivesWork};
ghost use Rattle.branch_shell.specs.Ran.{Ran};
ghost use Rattle.branch_shell.specs.Values.{value_type};

use crate::answer::{put_report, refuse, say};
use crate::kinded::Kinded;
use crate::script::first_line;
use crate::status::Status;
use crate::unopened::open_store;
use branch_address::Address;
use branch_disk::Disk;
use branch_engine::{Engine, TellRefused};
use branch_gen::script_text;
use branch_io::Sink;
use branch_print::summaries::{Summary, put_summary};
use branch_progress::{Listener, Progress};
use mrdt_model::Memory;
use mrdt_old_doc::Doc1;
use std::alloc::Global;
use store_core::Core;

// Tells one line, and counts its reply, which it leaves in the buffer.
fn count_line<T: Kinded, D: Disk + Drop, A: Address>(
    engine: &mut Engine<T, D, A>,
    summary: &mut Summary,
    reply: &mut Vec<u8>,
    line: &[u8],
) -> Result<(), Status>
    requires working { engine.old.core.failed ≡ false }
    requires few { summary.old.lines < 2 ^ 64 - 1 }
    requires within { AreWithin summary.old }
    ensures told { OnOk result (TellsLines D.may_leave D.moment D.left_since
        (value_type T.meaning T.forms T.KIND) A.address (line.now ∷ [])
        engine.old engine.new None None) }
    ensures counted { OnOk result
        (CountsLines D.may_leave (value_type T.meaning T.forms T.KIND) A.address
        (line.now ∷ []) engine.old summary.old summary.new) }
    ensures one { OnOk result (summary.new.lines ≤ summary.old.lines + 1) }
    ensures within { OnOk result (AreWithin summary.new) }
    ensures moments { LeavesSome D.may_leave D.moment D.left_since
        (value_type T.meaning T.forms T.KIND) A.address (line.now ∷ [])
        engine.old engine.new }
    ensures working { OnOk result (engine.new.core.failed ≡ false) }
    ensures disk_same { OnOk result (D.faults engine.new.core.disk
        ≡ D.faults engine.old.core.disk) }
    ensures cause { IfErr result (StopsCounting (D.faults engine.old.core.disk)
        (D.faults engine.new.core.disk)) }
{
    reply.clear();
    match engine.tell(reply, line) {
        Ok(()) => {}
        Err(TellRefused::DiskFault) => return Err(Status::DiskFault),
        Err(TellRefused::Memory) => return Err(Status::Memory),
    }
    if !reply.is_empty() {
        summary.count(reply);
    }
    Ok(())
}

// Tells the lines of a text, and counts their replies. The listener hears how many there are.
fn count_lines<T: Kinded, D: Disk + Drop, A: Address, L: Listener>(
    alloc: Global,
    engine: &mut Engine<T, D, A>,
    text: &[u8],
    listener: &mut L,
) -> Result<Summary, Status>
    requires working { engine.old.core.failed ≡ false }
    requires ended { IsWholeLines text.now }
    ensures told { OnOk result (TellsLines D.may_leave D.moment D.left_since
        (value_type T.meaning T.forms T.KIND) A.address
        (lines_of text.now) engine.old engine.new None None) }
    ensures counted { IfOk result
        (CountsLines D.may_leave (value_type T.meaning T.forms T.KIND) A.address
        (lines_of text.now) engine.old (summary_of [])) }
    ensures moments { LeavesSome D.may_leave D.moment D.left_since
        (value_type T.meaning T.forms T.KIND) A.address (lines_of text.now)
        engine.old engine.new }
    ensures disk_same { OnOk result (D.faults engine.new.core.disk
        ≡ D.faults engine.old.core.disk) }
    ensures cause { IfErr result (StopsCounting (D.faults engine.old.core.disk)
        (D.faults engine.new.core.disk)) }
{
    let mut summary = Summary::new();
    let mut reply = Vec::new(alloc);
    let mut rest = text;
    while let Some((line, behind)) = first_line(rest, 0) {
        count_line(engine, &mut summary, &mut reply, line)?;
        rest = behind;
        listener.hear(Progress::Lines {
            lines: summary.lines,
        });
    }
    Ok(summary)
}

// Tells the lines that are drawn from a number, and counts their replies.
fn count_drawn<T: Kinded, D: Disk + Drop, A: Address, L: Listener>(
    alloc: Global,
    engine: &mut Engine<T, D, A>,
    steps: u64,
    number: u64,
    listener: &mut L,
) -> Result<Summary, Status>
    requires working { engine.old.core.failed ≡ false }
    ensures told { OnOk result (TellsLines D.may_leave D.moment D.left_since
        (value_type T.meaning T.forms T.KIND) A.address
        (drawn_lines (record { steps = steps; number = number })) engine.old engine.new None None) }
    ensures counted { IfOk result
        (CountsLines D.may_leave (value_type T.meaning T.forms T.KIND) A.address
        (drawn_lines (record { steps = steps; number = number })) engine.old (summary_of [])) }
    ensures moments { LeavesSome D.may_leave D.moment D.left_since
        (value_type T.meaning T.forms T.KIND) A.address
        (drawn_lines (record { steps = steps; number = number })) engine.old engine.new }
    ensures disk_same { OnOk result (D.faults engine.new.core.disk
        ≡ D.faults engine.old.core.disk) }
    ensures cause { IfErr result (StopsCounting (D.faults engine.old.core.disk)
        (D.faults engine.new.core.disk)) }
{
    let text = script_text(alloc, steps, number)?;
    count_lines(alloc, engine, text.as_slice(), listener)
}

// Writes what came of a run, and then the report of the store.
fn put_work<T: Kinded, D: Disk + Drop, A: Address>(
    out: &mut Vec<u8>,
    summary: &Summary,
    core: &Core<T, D, A>,
) -> Result<(), Memory>
    ensures { OnOk result (out.new.items ≡ out.old.items
        ++ ((summary_text summary.now ++ line_end)
        ++ report_text core.now.terms.origin core.now.history)) }
{
    put_summary(out, summary)?;
    put_report(out, core)
}

// Says what came of a run, and then the report of the store.
fn say_work<T: Kinded, K: Sink, D: Disk + Drop, A: Address>(
    alloc: Global,
    sink: &mut K,
    summary: &Summary,
    core: &Core<T, D, A>,
) -> Status
    ensures wrote { Answers (λ whole. whole ≡ (summary_text summary.now ++ line_end)
        ++ report_text core.now.terms.origin core.now.history) (λ whole. ⊥) result
        (K.given sink.old) (K.given sink.new) }
    ensures other { result ≡ Status.DiskFault → ⊥ }
    ensures reason { SaysReason (K.faults sink.old) (K.faults sink.new) result }
{
    let mut text = Vec::new(alloc);
    match put_work(&mut text, summary, core) {
        Ok(()) => say(sink, &text, Status::Done),
        Err(_) => Status::Memory,
    }
}

// Runs the lines that are drawn from a number over a store that was opened, and hands its disk back.
fn work_over<T: Kinded, K: Sink, D: Disk + Drop, A: Address, L: Listener>(
    alloc: Global,
    core: Core<T, D, A>,
    steps: u64,
    number: u64,
    sink: &mut K,
    listener: &mut L,
) -> (Status, D)
    requires working { core.failed ≡ false }
    ensures wrote { Answers (λ whole. whole
        ≡ work_text (value_type T.meaning T.forms T.KIND) A.address
        (record { terms = core.terms; history = core.history })
        (drawn_lines (record { steps = steps; number = number }))) (λ whole. ⊥) result.0
        (K.given sink.old) (K.given sink.new) }
    ensures survives { SurvivesWork D.may_leave D.moment D.left_since
        (value_type T.meaning T.forms T.KIND) A.address
        (record { terms = core.terms; history = core.history })
        (drawn_lines (record { steps = steps; number = number })) core.disk result.1 result.0 }
    ensures reason { (n : ℕ) → HasReason
        (record { source = n; sink = K.faults sink.old; disk = D.faults core.disk })
        (record { source = n; sink = K.faults sink.new; disk = D.faults result.1 }) result.0 }
    // Where the sink failed, the disk did not.
    ensures no_fault { result.0 ≡ Status.WriteFault → D.faults result.1 ≡ D.faults core.disk }
{
    let mut engine = Engine::new(alloc, core);
    match count_drawn(alloc, &mut engine, steps, number, listener) {
        Ok(summary) => (
            say_work(alloc, sink, &summary, engine.core()),
            engine.close(),
        ),
        Err(status) => (status, engine.close()),
    }
}

/// Runs the lines that are drawn from a number over the store that the disk holds, and says what came of them and the
/// report of the store after them. Nothing is given to the sink before the last line was told. The listener hears of the
/// opening, and of each line.
pub(crate) fn run_generate<T: Kinded, K: Sink, D: Disk + Drop, A: Address, L: Listener>(
    alloc: Global,
    steps: u64,
    number: u64,
    sink: &mut K,
    disk: D,
    listener: &mut L,
) -> (Status, D)
    ensures ran { (left : Option (List ℕ))
        → Exchanges left left (K.given sink.old) (K.given sink.new)
        (Ran D.Disk (value_type T.meaning T.forms T.KIND) A.address
        (SaidGenerate (record { steps = steps; number = number })) disk result.1 left result.0) }
    ensures reason { (n : ℕ) → HasReason
        (record { source = n; sink = K.faults sink.old; disk = D.faults disk })
        (record { source = n; sink = K.faults sink.new; disk = D.faults result.1 }) result.0 }
    // Where the sink failed, the disk did not.
    ensures no_fault { result.0 ≡ Status.WriteFault → D.faults result.1 ≡ D.faults disk }
{
    match open_store::<T, Doc1, D, A, L>(alloc, disk, listener) {
        Ok(core) => work_over(alloc, core, steps, number, sink, listener),
        Err((why, disk)) => (refuse(alloc, sink, why), disk),
    }
}
