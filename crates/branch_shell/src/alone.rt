// What the words say: clients, or a command that needs no threads.
ghost use Rattle.std.specs.Prelude.{◌≡◌, ◌⊎◌, Some, None, Err, IfOk, IfSome, IfNone, map};
ghost use Rattle.std.specs.String.{string_bytes};
ghost use Rattle.branch_command.specs.Commands.{Said, Clients as SaidClients, Help as SaidHelp, Means, command_of};
ghost use Rattle.branch_shell.specs.Reading.{Exchanges};
ghost use Rattle.branch_shell.specs.Counts.{HaveReason};
ghost use Rattle.branch_shell.specs.Statuses.{Wrote};
ghost use Rattle.branch_shell.specs.Disks.{current_told};
ghost use Rattle.branch_shell.specs.Ran.{RanOverBoth};
ghost use Rattle.branch_shell.specs.Alone.{command_alone};

use crate::answer::say;
use crate::current::run_task;
use crate::init::init_for;
use crate::status::Status;
use branch_address::Address;
use branch_command::{Command, CommandRefused, read_command};
use branch_disk::Disk;
use branch_io::{Sink, Source};
use branch_progress::Listener;
use client_runs::Work as ClientWork;
use mrdt_model::Memory;
use std::alloc::Global;

/// The clients that the words say, if they say some: these are for `run_clients`. All other words are for `run_alone`,
/// where they say what they say here.
pub fn read_clients(alloc: Global, words: &[String]) -> Result<Option<ClientWork>, Memory>
    ensures some { IfOk result (λ clients.
        IfSome clients (λ work. command_of (map string_bytes words.now)
        ≡ Some (SaidClients (record {
          count = work.count;
          work = record { steps = work.steps; number = work.number };
        })))) }
    ensures none { IfOk result (λ clients.
        IfNone clients (command_alone (map string_bytes words.now)
        ≡ command_of (map string_bytes words.now))) }
{
    match read_command(alloc, words) {
        Ok(
            Command::Clients {
                count,
                steps,
                number,
            },
        ) => {
            let work = ClientWork {
                count,
                steps,
                number,
            };
            Ok(Some(work))
        }
        Ok(_) => Ok(None),
        Err(CommandRefused::Usage) => Ok(None),
        Err(CommandRefused::Memory) => Err(Memory),
    }
}

// The command that the words say, if it needs no threads.
fn read_alone(alloc: Global, words: &[String]) -> Result<Command, CommandRefused>
    ensures read { IfOk result (λ command. (said : Said)
        × (command_alone (map string_bytes words.now) ≡ Some said) × Means said command) }
    ensures usage { result ≡ Err CommandRefused.Usage
        → command_alone (map string_bytes words.now) ≡ None }
{
    match read_command(alloc, words) {
        Ok(Command::Clients { .. }) => Err(CommandRefused::Usage),
        read => read,
    }
}

/// Runs the command that the words say, over the store that the current one of two disks holds, and hands both disks
/// back. It takes nothing to start a thread or to wait with, so it returns if what it is passed does, and all that its
/// clauses say of the end they say of each end: whatever call fails, this returns behind it. `clients` is no command
/// here.
///
/// The first disk is current where its heads have at least 65 bytes of which the first is 1, and else the second. Both
/// are synced before that is looked at. The other one stays as it is then, but for `upgrade` and `compact`.
///
/// A store has documents, or documents with sequences where `init --sequences` made it. Every other command works with
/// the values that byte 45 of the current disk's heads tells: 1 of documents with sequences, any other of documents. A
/// line on a sequence of a store that has none is answered so, and lands nothing.
///
/// A store keeps the value of each commit beside what the commit does, or where `init --changes` made it what the commits
/// do alone, as its heads tell. `compact` keeps that, `upgrade` makes a store with values, and a bundle is of its store's
/// layout: one of the other is refused as no bundle.
///
/// `init` makes a store of the first disk, where neither holds a byte, and writes nothing to the second; `script` opens
/// the store and runs the lines of the source as steps; `generate` opens the store, runs the script that is drawn from a
/// number and writes what came of it and the report; `upgrade` reads a store of the old version, and makes one with the
/// same moves of the other disk, which holds no bytes; `compact` opens the store, makes the one of its compact history of
/// the other disk, over what that holds, and makes that the current one by one byte of the first; `check`, `address`,
/// `send`, `log`, `show` and `graph` open the store and tell what is looked at; `receive` opens the store, reads the
/// source to its end, takes the commits of the bundle that it holds and makes a branch at its tip. A store of the old
/// version is refused by all of them but `upgrade` and `init`. `Usage` comes only where the words say no such command, and
/// then nothing was touched. What was written is, by the status, the text that is defined for the command, or a first part
/// of it. A fault comes only where the count of faults of that object rose, and no other count rises, but where the sink
/// cannot finish behind a fault; `DiskFault` is one of either disk.
///
/// Until a script's store is opened a crash leaves only what one might have left before; from then on, at any moment,
/// files that read as the store after some of the lines that were read; at the end after those that were answered, or one
/// more; and after `Done` after all. The same holds of `generate` and its lines, in order. So a run may follow one that
/// ended with a fault of the disk: choosing makes sure of what reads give then. Of `upgrade` a crash leaves on the other
/// disk, where it was empty, no store or one with some of the moves, in order, and after `Done` with all; the current
/// disk it leaves as it was. Of `receive` a crash leaves the store with the moves of a first part of the bundle, in order,
/// and after `Done` with all and with the branch. While `compact` writes the other disk, the two read as the history;
/// while the one byte is written, and after a fault, as that or as the compact history; and after `Done` as this.
///
/// The listener hears of each record that is read back when a store is opened, of each line of `script` and of `generate`
/// once it was run, and how many items of a bundle were received. It changes nothing.
pub fn run_alone<S: Source, K: Sink, D: Disk + Drop, A: Address, L: Listener>(
    alloc: Global,
    words: &[String],
    source: &mut S,
    sink: &mut K,
    disk: D,
    second: D,
    listener: &mut L,
) -> (Status, D, D)
    ensures usage { result.0 ≡ Status.Usage → command_alone (map string_bytes words.now) ≡ None }
    ensures unsaid { command_alone (map string_bytes words.now) ≡ None
        → ((result.0 ≡ Status.Usage) ⊎ (result.0 ≡ Status.Memory)) × (source.new ≡ source.old)
        × (sink.new ≡ sink.old) × (result.1 ≡ disk) × (result.2 ≡ second) }
    ensures help { command_alone (map string_bytes words.now) ≡ Some SaidHelp
        → ((result.0 ≡ Status.Done) ⊎ ((result.0 ≡ Status.WriteFault) ⊎ (result.0 ≡ Status.Memory)))
        × (source.new ≡ source.old) × (result.1 ≡ disk) × (result.2 ≡ second) }
    // What was written of the input that was read, and what a crash leaves.
    ensures ran { (command : Said) → command_alone (map string_bytes words.now) ≡ Some command
        → Exchanges (S.left source.old) (S.left source.new) (K.given sink.old) (K.given sink.new)
        (RanOverBoth D.Disk A.address command (record { first = disk; second = second })
        (record { first = result.1; second = result.2 }) (S.left source.new) result.0) }
    ensures reason { HaveReason
        (record {
          source = S.faults source.old;
          sink = K.faults sink.old;
          first = D.faults disk;
          second = D.faults second;
        })
        (record {
          source = S.faults source.new;
          sink = K.faults sink.new;
          first = D.faults result.1;
          second = D.faults result.2;
        }) result.0 }
    // Where the sink fails behind a fault, all that such a fault leaves was given.
    ensures behind_source { (command : Said)
        → command_alone (map string_bytes words.now) ≡ Some command
        → result.0 ≡ Status.WriteFault → (S.faults source.new ≡ S.faults source.old)
        ⊎ Exchanges (S.left source.old) (S.left source.new) (K.given sink.old) (K.given sink.new)
        (Wrote A.address command (current_told (D.contents disk) (D.contents second))
        (S.left source.new) Status.ReadFault) }
    ensures behind_disk { (command : Said)
        → command_alone (map string_bytes words.now) ≡ Some command
        → result.0 ≡ Status.WriteFault
        → ((D.faults result.1 ≡ D.faults disk) × (D.faults result.2 ≡ D.faults second))
        ⊎ Exchanges (S.left source.old) (S.left source.new) (K.given sink.old) (K.given sink.new)
        (Wrote A.address command (current_told (D.contents disk) (D.contents second))
        (S.left source.new) Status.DiskFault) }
{
    match read_alone(alloc, words) {
        Ok(Command::Init(terms)) => { init_for::<K, D, A>(alloc, terms, sink, disk, second) }
        Ok(Command::Clients { .. }) => unreachable!(),
        Ok(Command::Tell(text)) => (say(sink, text.as_bytes(), Status::Done), disk, second),
        Ok(command) => {
            run_task::<S, K, D, A, L>(alloc, command, source, sink, disk, second, listener)
        }
        Err(CommandRefused::Usage) => (Status::Usage, disk, second),
        Err(CommandRefused::Memory) => (Status::Memory, disk, second),
    }
}
