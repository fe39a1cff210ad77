// Making a store of today's version of one of the old version.
ghost use Rattle.std.specs.Prelude.{◌≡◌, ◌⊎◌, ◌++◌, ◌↔◌, ℕ, Some, Err, OnOk, IfErr, IfSome, IsSome};
ghost use Rattle.branch_print.specs.Reports.{upgraded_text};
ghost use Rattle.branch_shell.specs.Counts.{HaveReason, SaysReason};
ghost use Rattle.branch_shell.specs.Once.{Answers};
ghost use Rattle.branch_shell.specs.Upgrading.{RanUpgrade, Gives, upgrade_refusal_text};

use crate::answer::say;
use crate::status::Status;
use branch_address::Address;
use branch_disk::Disk;
use branch_io::Sink;
use branch_print::reports::{
    put_bad_commit, put_bad_object, put_bad_record, put_no_store, put_no_upgrade, put_not_empty,
    put_truncated, put_upgraded,
};
use branch_progress::Listener;
use std::alloc::Global;
use store_upgrade::{UpgradeRefused, upgrade};

// Writes why no store was upgraded.
fn put_refusal(out: &mut Vec<u8>, why: UpgradeRefused) -> Result<(), Status>
    ensures ok { OnOk result (IfSome (upgrade_refusal_text why) (λ text. out.new.items
        ≡ out.old.items ++ text)) }
    ensures told { OnOk result (IsSome (upgrade_refusal_text why)) }
    ensures err { IfErr result (λ status. (status ≡ Status.Memory)
        ⊎ ((status ≡ Status.DiskFault) × (why ≡ UpgradeRefused.DiskFault))) }
    ensures fault { why ≡ UpgradeRefused.DiskFault → result ≡ Err Status.DiskFault }
{
    match why {
        UpgradeRefused::NotAStore => Ok(put_no_store(out)?),
        UpgradeRefused::BadRecord { number } => Ok(put_bad_record(out, number)?),
        UpgradeRefused::Truncated { part, place } => Ok(put_truncated(out, part, place)?),
        UpgradeRefused::BadObject { place } => Ok(put_bad_object(out, place)?),
        UpgradeRefused::BadCommit { number } => Ok(put_bad_commit(out, number)?),
        UpgradeRefused::NotEmpty { .. } => Ok(put_not_empty(out)?),
        UpgradeRefused::Upgrade { number } => Ok(put_no_upgrade(out, number)?),
        UpgradeRefused::DiskFault => Err(Status::DiskFault),
        UpgradeRefused::Memory => Err(Status::Memory),
    }
}

// Says why no store was upgraded.
fn refuse_upgrade<K: Sink>(alloc: Global, sink: &mut K, why: UpgradeRefused) -> Status
    ensures wrote { Answers (λ whole. ⊥) (λ whole. upgrade_refusal_text why ≡ Some whole) result
        (K.given sink.old) (K.given sink.new) }
    ensures fault { (result ≡ Status.DiskFault) ↔ (why ≡ UpgradeRefused.DiskFault) }
    ensures reason { SaysReason (K.faults sink.old) (K.faults sink.new) result }
{
    let mut text = Vec::new(alloc);
    match put_refusal(&mut text, why) {
        Ok(()) => say(sink, &text, Status::StoreRefused),
        Err(status) => status,
    }
}

// Says how many moves were made anew.
fn say_upgraded<K: Sink>(alloc: Global, sink: &mut K, moves: u64) -> Status
    ensures wrote { Answers (λ whole. whole ≡ upgraded_text moves) (λ whole. ⊥) result
        (K.given sink.old) (K.given sink.new) }
    ensures other { result ≡ Status.DiskFault → ⊥ }
    ensures reason { SaysReason (K.faults sink.old) (K.faults sink.new) result }
{
    let mut text = Vec::new(alloc);
    match put_upgraded(&mut text, moves) {
        Ok(()) => say(sink, &text, Status::Done),
        Err(_) => Status::Memory,
    }
}

/// Reads the store of the old version that the current disk holds, makes one with the same moves of the other disk,
/// which holds no bytes, and says how many moves there are. It writes nothing to the current disk. The listener hears of
/// each record that was read back.
pub(crate) fn run_upgrade<K: Sink, D: Disk + Drop, A: Address, L: Listener>(
    alloc: Global,
    sink: &mut K,
    held: D,
    other: D,
    listener: &mut L,
) -> (Status, D, D)
    ensures ran { Gives (K.given sink.old) (K.given sink.new)
        (RanUpgrade D.Disk A.address held result.1 other result.2 result.0) }
    ensures reason { (n : ℕ) → HaveReason
        (record {
          source = n;
          sink = K.faults sink.old;
          first = D.faults held;
          second = D.faults other;
        })
        (record {
          source = n;
          sink = K.faults sink.new;
          first = D.faults result.1;
          second = D.faults result.2;
        }) result.0 }
    // Where the sink failed, no disk did.
    ensures no_fault { result.0 ≡ Status.WriteFault
        → (D.faults result.1 ≡ D.faults held) × (D.faults result.2 ≡ D.faults other) }
{
    let mut held = held;
    match upgrade::<D, A, L>(alloc, &mut held, other, listener) {
        Ok((moves, other)) => (say_upgraded(alloc, sink, moves), held, other),
        Err((why, other)) => (refuse_upgrade(alloc, sink, why), held, other),
    }
}
