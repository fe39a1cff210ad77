// What is done on the current one of two disks.
ghost use Rattle.std.specs.Prelude.{◌≡◌, ◌≢◌, ◌⊎◌};
ghost use Rattle.std.specs.Option.{ForSome};
ghost use Rattle.branch_command.specs.Commands.{Said, Means};
ghost use Rattle.branch_shell.specs.Alone.{WorksOnCurrent};
ghost use Rattle.branch_shell.specs.Reading.{Exchanges};
ghost use Rattle.branch_shell.specs.Counts.{HaveReason};
ghost use Rattle.branch_shell.specs.Statuses.{Wrote, WroteBy, WroteOf};
ghost use Rattle.branch_shell.specs.Disks.{IsSettled, IsCurrentBy, current_told};
ghost use Rattle.branch_shell.specs.Ran.{RanBy, RanChosen, RanOverBoth};
ghost use Rattle.branch_shell.specs.Values.{value_type};

use crate::choose::{Values, choose};
use crate::compact::run_compact;
use crate::generate::run_generate;
use crate::kinded::Kinded;
use crate::look::run_look;
use crate::receive::run_receive;
use crate::script::run_script;
use crate::status::Status;
use crate::upgrade::run_upgrade;
use branch_address::Address;
use branch_command::Command;
use branch_disk::{Disk, DiskFailed};
use branch_io::{Sink, Source};
use branch_progress::Listener;
use mrdt_doc::Doc;
use mrdt_old_doc::Doc1;
use mrdt_wide::Wide;
use std::alloc::Global;
use store_compact::Which;

// Runs a command on the disk that was chosen, with values of a type, which comes back in front of the other.
fn run_chosen<T: Kinded, S: Source, K: Sink, D: Disk + Drop, A: Address, L: Listener>(
    alloc: Global,
    command: Command,
    which: Which,
    source: &mut S,
    sink: &mut K,
    held: D,
    other: D,
    listener: &mut L,
) -> (Status, D, D)
    requires works { WorksOnCurrent command }
    requires settled { IsSettled D.Disk other }
    requires aside { which ≡ Which.Second → ForSome (D.contents other) (IsCurrentBy which) }
    ensures ran { (said : Said) → Means said command
        → Exchanges (S.left source.old) (S.left source.new) (K.given sink.old) (K.given sink.new)
        (RanChosen D.Disk (value_type T.meaning T.forms T.KIND) A.address said which held result.1
        other result.2 (S.left source.new) result.0) }
    ensures usage { result.0 ≢ Status.Usage }
    ensures reason { HaveReason
        (record {
          source = S.faults source.old;
          sink = K.faults sink.old;
          first = D.faults held;
          second = D.faults other;
        })
        (record {
          source = S.faults source.new;
          sink = K.faults sink.new;
          first = D.faults result.1;
          second = D.faults result.2;
        }) result.0 }
    // Where the sink fails behind a fault, all that such a fault leaves was given.
    ensures behind_source { (said : Said) → Means said command → result.0 ≡ Status.WriteFault
        → (S.faults source.new ≡ S.faults source.old)
        ⊎ Exchanges (S.left source.old) (S.left source.new) (K.given sink.old) (K.given sink.new)
        (WroteOf (value_type T.meaning T.forms T.KIND) A.address said (D.contents held)
        (S.left source.new) Status.ReadFault) }
    ensures behind_disk { (said : Said) → Means said command → result.0 ≡ Status.WriteFault
        → ((D.faults result.1 ≡ D.faults held) × (D.faults result.2 ≡ D.faults other))
        ⊎ Exchanges (S.left source.old) (S.left source.new) (K.given sink.old) (K.given sink.new)
        (WroteOf (value_type T.meaning T.forms T.KIND) A.address said (D.contents held)
        (S.left source.new) Status.DiskFault) }
{
    match command {
        Command::Script => {
            let (status, held) = run_script::<T, S, K, D, A, L>(
                alloc, source, sink, held, listener,
            );
            (status, held, other)
        }
        Command::Look(look) => {
            let (status, held) = run_look::<T, Doc1, K, D, A, L>(
                alloc, &look, sink, held, listener,
            );
            (status, held, other)
        }
        Command::Generate { steps, number } => {
            let (status, held) = run_generate::<T, K, D, A, L>(
                alloc, steps, number, sink, held, listener,
            );
            (status, held, other)
        }
        Command::Upgrade => run_upgrade::<K, D, A, L>(alloc, sink, held, other, listener),
        Command::Compact => run_compact::<T, K, D, A, L>(alloc, which, sink, held, other, listener),
        Command::Receive(named) => {
            let (status, held) = run_receive::<T, Doc1, S, K, D, A, L>(
                alloc, named.name, source, sink, held, listener,
            );
            (status, held, other)
        }
        Command::Init(_) | Command::Clients { .. } | Command::Tell(_) => unreachable!(),
    }
}

// Runs a command on the disk that was chosen, whose store has these values.
fn run_values<S: Source, K: Sink, D: Disk + Drop, A: Address, L: Listener>(
    alloc: Global,
    values: Values,
    command: Command,
    which: Which,
    source: &mut S,
    sink: &mut K,
    held: D,
    other: D,
    listener: &mut L,
) -> (Status, D, D)
    requires works { WorksOnCurrent command }
    requires settled { IsSettled D.Disk other }
    requires aside { which ≡ Which.Second → ForSome (D.contents other) (IsCurrentBy which) }
    ensures ran { (said : Said) → Means said command
        → Exchanges (S.left source.old) (S.left source.new) (K.given sink.old) (K.given sink.new)
        (RanBy values D.Disk A.address said which held result.1 other result.2 (S.left source.new)
        result.0) }
    ensures usage { result.0 ≢ Status.Usage }
    ensures reason { HaveReason
        (record {
          source = S.faults source.old;
          sink = K.faults sink.old;
          first = D.faults held;
          second = D.faults other;
        })
        (record {
          source = S.faults source.new;
          sink = K.faults sink.new;
          first = D.faults result.1;
          second = D.faults result.2;
        }) result.0 }
    // Where the sink fails behind a fault, all that such a fault leaves was given.
    ensures behind_source { (said : Said) → Means said command → result.0 ≡ Status.WriteFault
        → (S.faults source.new ≡ S.faults source.old)
        ⊎ Exchanges (S.left source.old) (S.left source.new) (K.given sink.old) (K.given sink.new)
        (WroteBy values A.address said (D.contents held) (S.left source.new) Status.ReadFault) }
    ensures behind_disk { (said : Said) → Means said command → result.0 ≡ Status.WriteFault
        → ((D.faults result.1 ≡ D.faults held) × (D.faults result.2 ≡ D.faults other))
        ⊎ Exchanges (S.left source.old) (S.left source.new) (K.given sink.old) (K.given sink.new)
        (WroteBy values A.address said (D.contents held) (S.left source.new) Status.DiskFault) }
{
    match values {
        Values::Documents => {
            run_chosen::<Doc, S, K, D, A, L>(
                alloc, command, which, source, sink, held, other, listener,
            )
        }
        Values::WithSequences => {
            run_chosen::<Wide, S, K, D, A, L>(
                alloc, command, which, source, sink, held, other, listener,
            )
        }
    }
}

/// Runs a command on the current one of two disks, and hands both back. The listener hears how far it has come.
pub(crate) fn run_task<S: Source, K: Sink, D: Disk + Drop, A: Address, L: Listener>(
    alloc: Global,
    command: Command,
    source: &mut S,
    sink: &mut K,
    first: D,
    second: D,
    listener: &mut L,
) -> (Status, D, D)
    requires works { WorksOnCurrent command }
    ensures ran { (said : Said) → Means said command
        → Exchanges (S.left source.old) (S.left source.new) (K.given sink.old) (K.given sink.new)
        (RanOverBoth D.Disk A.address said (record { first = first; second = second })
        (record { first = result.1; second = result.2 }) (S.left source.new) result.0) }
    ensures usage { result.0 ≢ Status.Usage }
    ensures reason { HaveReason
        (record {
          source = S.faults source.old;
          sink = K.faults sink.old;
          first = D.faults first;
          second = D.faults second;
        })
        (record {
          source = S.faults source.new;
          sink = K.faults sink.new;
          first = D.faults result.1;
          second = D.faults result.2;
        }) result.0 }
    // Where the sink fails behind a fault, all that such a fault leaves was given.
    ensures behind_source { (said : Said) → Means said command → result.0 ≡ Status.WriteFault
        → (S.faults source.new ≡ S.faults source.old)
        ⊎ Exchanges (S.left source.old) (S.left source.new) (K.given sink.old) (K.given sink.new)
        (Wrote A.address said (current_told (D.contents first) (D.contents second))
        (S.left source.new) Status.ReadFault) }
    ensures behind_disk { (said : Said) → Means said command → result.0 ≡ Status.WriteFault
        → ((D.faults result.1 ≡ D.faults first) × (D.faults result.2 ≡ D.faults second))
        ⊎ Exchanges (S.left source.old) (S.left source.new) (K.given sink.old) (K.given sink.new)
        (Wrote A.address said (current_told (D.contents first) (D.contents second))
        (S.left source.new) Status.DiskFault) }
{
    let mut first = first;
    let mut second = second;
    let chosen = match choose(&mut first, &mut second) {
        Ok(chosen) => chosen,
        Err(DiskFailed) => return (Status::DiskFault, first, second),
    };
    match chosen.which {
        Which::First => run_values::<S, K, D, A, L>(
            alloc,
            chosen.values,
            command,
            Which::First,
            source,
            sink,
            first,
            second,
            listener,
        ),
        Which::Second => {
            let (status, second, first) = run_values::<S, K, D, A, L>(
                alloc,
                chosen.values,
                command,
                Which::Second,
                source,
                sink,
                second,
                first,
                listener,
            );
            (status, first, second)
        }
    }
}
