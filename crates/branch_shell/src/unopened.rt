// Opening a store, whose files may be of the old version.
ghost use Rattle.std.specs.Prelude.{◌≡◌, false, IfOk, IfErr, IsSome, Err};
ghost use Rattle.std.specs.Option.{ForSome};
ghost use Rattle.branch_io.specs.Causes.{HasCauseOf};
ghost use Rattle.branch_disk.specs.Disk.{LeavesOnly};
ghost use Rattle.branch_machine.specs.Fixed.{fix};
ghost use Rattle.branch_machine.specs.Validity.{IsFullyValid};
ghost use Rattle.branch_files.specs.Reading.{Opens, NotAStore, ReadsAs};
ghost use Rattle.store_core.specs.Images.{AllStand};
ghost use Rattle.store_core.specs.Opens.{ReadsOnlyAs, ReadsAsNone};
ghost use Rattle.branch_shell.specs.Refusals.{UnopenedAs, FoundAs, unopened_text};

use crate::kinded::Kinded;
use branch_address::Address;
use branch_disk::Disk;
use branch_progress::Listener;
use mrdt_model::Mrdt;
use std::alloc::Global;
use store_core::{Core, OldRefused, OpenRefused, is_old};

/// Why a store is not opened.
#[derive(Clone, Copy, Debug, PartialEq, Eq)]
pub(crate) enum Unopened {
    /// The files are a store's of the old version, as far as their beginning goes.
    OldVersion,
    /// Opening them is refused.
    Refused(OpenRefused),
}

// Why files are not opened that read as no store: they may be of the old version.
fn why_no_store<U: Mrdt, D: Disk, A: Address>(alloc: Global, disk: &mut D) -> Unopened
    ensures why { ForSome (D.contents disk.old) (FoundAs U.meaning A.address result) }
    ensures same { D.contents disk.new ≡ D.contents disk.old }
    ensures any_moment { let images = D.may_leave disk.old in
        LeavesOnly D.moment D.left_since disk.old disk.new images }
    ensures cause { HasCauseOf {T = Unit {0}} (Unopened.Refused OpenRefused.DiskFault)
        (D.faults disk.old)
        (D.faults disk.new) (Err result) }
{
    match is_old::<U, D, A>(alloc, disk) {
        Ok(true) => Unopened::OldVersion,
        Ok(false) => Unopened::Refused(OpenRefused::NotAStore),
        Err(OldRefused::DiskFault) => Unopened::Refused(OpenRefused::DiskFault),
        Err(OldRefused::Memory) => Unopened::Refused(OpenRefused::Memory),
    }
}

/// Opens the store of the type's kind that a disk holds, as `Core::open` does. Where the files are no store, it looks
/// whether they are of the old version, over the documents of that. It writes nothing. An `Err` hands the disk back. The
/// listener hears of each record that was read back.
pub(crate) fn open_store<T: Kinded, U: Mrdt, D: Disk + Drop, A: Address, L: Listener>(
    alloc: Global,
    disk: D,
    listener: &mut L,
) -> Result<Core<T, D, A>, (Unopened, D)>
    ensures opened { IfOk result (λ core. core ≡ record {
      history = core.history;
      terms = core.terms;
      failed = false;
      disk = core.disk;
      opened = core.disk;
    }) }
    ensures reads { IfOk result (λ core. ForSome (D.contents disk)
        (λ f. ReadsAs T.meaning A.address f (Opens core.terms core.history))) }
    ensures only { IfOk result (λ core. ForSome (D.contents disk)
        (ReadsOnlyAs T.meaning A.address (Opens core.terms core.history))) }
    ensures kind { IfOk result (λ core. core.terms.kind ≡ T.KIND) }
    ensures valid { IfOk result (λ core.
        IsFullyValid (fix T.meaning core.terms A.address) core.history) }
    ensures stands { IfOk result (λ core.
        AllStand (fix T.meaning core.terms A.address) core.history (D.may_leave core.disk)) }
    ensures refused { IfErr result (λ e. ForSome (D.contents disk)
        (UnopenedAs T.KIND T.meaning U.meaning A.address e.0)) }
    ensures refused_only { IfErr result (λ e. IsSome (unopened_text e.0)
        → ForSome (D.contents disk) (ReadsAsNone T.KIND T.meaning A.address)) }
    ensures same { IfOk result (λ core. D.contents core.disk ≡ D.contents disk) }
    ensures same_err { IfErr result (λ e. D.contents e.1 ≡ D.contents disk) }
    ensures any_moment { IfOk result (λ core.
        LeavesOnly D.moment D.left_since disk core.disk (D.may_leave disk)) }
    ensures any_moment_err { IfErr result (λ e.
        LeavesOnly D.moment D.left_since disk e.1 (D.may_leave disk)) }
    ensures no_cause { IfOk result (λ core. D.faults core.disk ≡ D.faults disk) }
    ensures cause { IfErr result (λ e.
        HasCauseOf {T = Unit {0}} (Unopened.Refused OpenRefused.DiskFault) (D.faults disk)
        (D.faults e.1) (Err e.0)) }
{
    match Core::<T, D, A>::open(alloc, disk, T::KIND, listener) {
        Ok(core) => Ok(core),
        Err((refusal, disk)) => match refusal {
            OpenRefused::NotAStore => {
                let mut disk = disk;
                let why = why_no_store::<U, D, A>(alloc, &mut disk);
                Err((why, disk))
            }
            _ => Err((Unopened::Refused(refusal), disk)),
        },
    }
}
