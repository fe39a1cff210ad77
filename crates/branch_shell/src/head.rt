// The head of a branch of a name.
ghost use Rattle.std.specs.Prelude.{◌≡◌, ◌<◌, length, Some, None, IfOk, IfSome};
ghost use Rattle.branch_names.specs.Heads.{branch_named, head_of};
ghost use Rattle.branch_history.specs.History.{store_of};
ghost use Rattle.branch_history.specs.Steps.{UnknownBranch};
ghost use Rattle.branch_print.specs.Sent.{stop_text};
ghost use Rattle.branch_shell.specs.Counts.{SaysReason};
ghost use Rattle.branch_shell.specs.Once.{Answers};

use crate::answer::say;
use crate::status::Status;
use branch_address::Address;
use branch_disk::Disk;
use branch_io::Sink;
use branch_names::Name;
use branch_print::sent::put_refused_unknown;
use mrdt_model::{Memory, Mrdt};
use std::alloc::Global;
use store_core::{Core, LookRefused};

/// The number and the head of the branch that has a name; `None` exactly where none has it.
pub(crate) fn head_named<T: Mrdt, D: Disk + Drop, A: Address>(
    core: &Core<T, D, A>,
    branch: &Name,
) -> Result<Option<(u32, u32)>, Memory>
    ensures found { IfOk result (λ found. IfSome found (λ at. branch_named
        (store_of core.now.terms.origin core.now.history).branches branch.now ≡ Some at.0)) }
    ensures head { IfOk result (λ found. IfSome found (λ at. at.1
        ≡ head_of (store_of core.now.terms.origin core.now.history).branches at.0)) }
    ensures within { IfOk result (λ found. IfSome found (λ at. at.1
        < length (store_of core.now.terms.origin core.now.history).commits)) }
    ensures none { IfOk result (λ found. found ≡ None → branch_named
        (store_of core.now.terms.origin core.now.history).branches branch.now ≡ None) }
{
    // It is a valid history: its count tells the proof so.
    let _moves = core.moves();
    match core.look(branch) {
        Ok(seen) => Ok(Some((seen.branch(), seen.head()))),
        Err(LookRefused::UnknownBranch { .. }) => Ok(None),
        Err(LookRefused::Memory) => Err(Memory),
    }
}

/// Says that no branch has a name.
pub(crate) fn say_unknown<K: Sink>(alloc: Global, sink: &mut K, branch: &Name) -> Status
    ensures wrote { Answers (λ whole. ⊥)
        (λ whole. whole ≡ stop_text 0 (UnknownBranch branch.now)) result (K.given sink.old)
        (K.given sink.new) }
    ensures other { result ≡ Status.DiskFault → ⊥ }
    ensures reason { SaysReason (K.faults sink.old) (K.faults sink.new) result }
{
    let mut text = Vec::new(alloc);
    match put_refused_unknown(&mut text, branch) {
        Ok(()) => say(sink, &text, Status::StoreRefused),
        Err(_) => Status::Memory,
    }
}
