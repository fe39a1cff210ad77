// Making the store of the compact history on the other disk, and switching to it.
ghost use Rattle.std.specs.Prelude.{◌≡◌, ℕ};
ghost use Rattle.branch_print.specs.Reports.{compacted_text};
ghost use Rattle.store_compact.specs.Compacting.{first_of, second_of};
ghost use Rattle.branch_shell.specs.Counts.{HaveReason, SaysReason};
ghost use Rattle.branch_shell.specs.Once.{Answers};
ghost use Rattle.branch_shell.specs.Disks.{IsSettled, IsCurrentBy};
ghost use Rattle.branch_shell.specs.Compacting.{RanCompact, IsCompactedFrom, counts_text, view_of};
ghost use Rattle.branch_shell.specs.Upgrading.{Gives};
ghost use Rattle.branch_shell.specs.Values.{value_type};
ghost use Rattle.std.specs.Option.{ForSome};

use crate::answer::{refuse, say};
use crate::kinded::Kinded;
use crate::status::Status;
use crate::unopened::open_store;
use branch_address::Address;
use branch_disk::Disk;
use branch_io::Sink;
use branch_print::reports::put_compacted;
use branch_progress::Listener;
use mrdt_old_doc::Doc1;
use std::alloc::Global;
use store_compact::{CompactRefused, Compacted, Which, compact};
use store_core::Core;

// Of the first and the second disk the current one and the other; and the other way round.
fn placed<D>(which: Which, one: D, two: D) -> (D, D)
    ensures first { result.0 ≡ first_of which one two }
    ensures second { result.1 ≡ second_of which one two }
{
    match which {
        Which::First => (one, two),
        Which::Second => (two, one),
    }
}

// Says how many moves stay, of how many.
fn say_compacted<K: Sink>(alloc: Global, sink: &mut K, counts: Compacted) -> Status
    ensures wrote { Answers (λ whole. whole ≡ compacted_text counts.kept counts.moves) (λ whole. ⊥)
        result (K.given sink.old) (K.given sink.new) }
    ensures other { result ≡ Status.DiskFault → ⊥ }
    ensures reason { SaysReason (K.faults sink.old) (K.faults sink.new) result }
{
    let mut text = Vec::new(alloc);
    match put_compacted(&mut text, counts.kept, counts.moves) {
        Ok(()) => say(sink, &text, Status::Done),
        Err(_) => Status::Memory,
    }
}

// The status of a compaction that did not go through.
fn status_of_refused(why: CompactRefused) -> Status
    ensures fault { why ≡ CompactRefused.DiskFault → result ≡ Status.DiskFault }
    ensures memory { why ≡ CompactRefused.Memory → result ≡ Status.Memory }
{
    match why {
        CompactRefused::DiskFault => Status::DiskFault,
        CompactRefused::Memory => Status::Memory,
    }
}

// Compacts a store that was opened.
fn compact_over<T: Kinded, K: Sink, D: Disk + Drop, A: Address>(
    alloc: Global,
    which: Which,
    sink: &mut K,
    core: Core<T, D, A>,
    other: D,
) -> (Status, D, D)
    requires opened { core ≡ view_of (record { terms = core.terms; history = core.history })
        core.disk }
    requires settled { IsSettled D.Disk other }
    requires aside { which ≡ Which.Second → ForSome (D.contents other) (IsCurrentBy which) }
    ensures wrote { Answers (λ whole. whole
        ≡ counts_text (record { terms = core.terms; history = core.history })) (λ whole. ⊥)
        result.0 (K.given sink.old) (K.given sink.new) }
    ensures compacted { IsCompactedFrom D.Disk (value_type T.meaning T.forms T.KIND) A.address which
        (record { terms = core.terms; history = core.history }) core.disk other
        (first_of which result.1 result.2) (second_of which result.1 result.2) result.0 }
    ensures reason { (n : ℕ) → HaveReason
        (record {
          source = n;
          sink = K.faults sink.old;
          first = D.faults core.disk;
          second = D.faults other;
        })
        (record {
          source = n;
          sink = K.faults sink.new;
          first = D.faults result.1;
          second = D.faults result.2;
        }) result.0 }
    // Where the sink failed, no disk did.
    ensures no_fault { result.0 ≡ Status.WriteFault
        → (D.faults result.1 ≡ D.faults core.disk) × (D.faults result.2 ≡ D.faults other) }
{
    match compact(alloc, core, other, which) {
        Ok((counts, first, second)) => {
            let status = say_compacted(alloc, sink, counts);
            let (held, other) = placed(which, first, second);
            (status, held, other)
        }
        Err((why, first, second)) => {
            let (held, other) = placed(which, first, second);
            (status_of_refused(why), held, other)
        }
    }
}

/// Opens the store that the current disk holds, makes the store of its compact history on the other disk, over what
/// that holds, switches to it, and says how many moves stay, of how many. The current disk comes back in front of the
/// other. The listener hears of the opening.
pub(crate) fn run_compact<T: Kinded, K: Sink, D: Disk + Drop, A: Address, L: Listener>(
    alloc: Global,
    which: Which,
    sink: &mut K,
    held: D,
    other: D,
    listener: &mut L,
) -> (Status, D, D)
    requires settled { IsSettled D.Disk other }
    requires aside { which ≡ Which.Second → ForSome (D.contents other) (IsCurrentBy which) }
    ensures ran { Gives (K.given sink.old) (K.given sink.new)
        (RanCompact D.Disk (value_type T.meaning T.forms T.KIND) A.address which held result.1 other
        result.2 result.0) }
    ensures reason { (n : ℕ) → HaveReason
        (record {
          source = n;
          sink = K.faults sink.old;
          first = D.faults held;
          second = D.faults other;
        })
        (record {
          source = n;
          sink = K.faults sink.new;
          first = D.faults result.1;
          second = D.faults result.2;
        }) result.0 }
    // Where the sink failed, no disk did.
    ensures no_fault { result.0 ≡ Status.WriteFault
        → (D.faults result.1 ≡ D.faults held) × (D.faults result.2 ≡ D.faults other) }
{
    match open_store::<T, Doc1, D, A, L>(alloc, held, listener) {
        Ok(core) => compact_over(alloc, which, sink, core, other),
        Err((why, held)) => (refuse(alloc, sink, why), held, other),
    }
}
