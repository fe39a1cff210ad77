// Stores whose files are of version 1. Nothing is written to them.
ghost use Rattle.std.specs.Prelude.{◌≡◌, ◌≢◌, [], false, Some, take, IfOk, IfErr, OnOk, IsTrue};
ghost use Rattle.std.specs.Option.{ForSome};
ghost use Rattle.branch_io.specs.Causes.{HasCauseOf};
ghost use Rattle.branch_disk.specs.Disk.{Files, bytes_of, LeavesOnly};
ghost use Rattle.branch_wire.specs.StoredObjects.{Begins};
ghost use Rattle.branch_names.specs.declared.layout.Layout.TheVariants.{Whole};
ghost use Rattle.branch_names.specs.declared.terms.Terms.{Terms as SpecTerms};
ghost use Rattle.heads_journal.specs.Heads.{HasHeader, HasNone};
ghost use Rattle.branch_machine.specs.Fixed.{fix_in};
ghost use Rattle.branch_machine.specs.Objects.{objects_text};
ghost use Rattle.branch_machine.specs.Validity.{IsFullyValid};
ghost use Rattle.branch_files.specs.Reading.{NotAStore, Opens, ReadsIn};
ghost use Rattle.branch_files.specs.Records.{header_in, AreKnown};
ghost use Rattle.store_core.specs.Opens.{old_form, OpenRefusedIn, ReadsOnlyIn, RefusedOnlyIn, ReadsAsNoneIn};

use crate::answers::{OldRefused, OpenRefused};
use crate::reading::read_in;
use branch_address::Address;
use branch_disk::{Disk, Part};
use branch_files::forms::reads_old_as_first_kind;
use branch_history::Move;
use branch_names::{Layout, Terms};
use branch_progress::Listener;
use commit_replay::first_text;
use commit_replay::laws::{reads_as_none_of_kind, reads_as_store};
use heads_journal::{ReadAllRefused, read_all};
use mrdt_model::{Listing, Mrdt};
use std::alloc::Global;

// The version of such files.
const OLD: u32 = 1;

/// The limits with the first origin, and the moves, of the store of version 1 that a disk holds, which a crash may have
/// left. It syncs both parts and reads, and writes nothing. `Ok` and each refusal but `DiskFault` and `Memory` come
/// exactly where the files read so in version 1. The listener hears of each record that was read back.
pub fn read_old<T: Mrdt, D: Disk, A: Address, L: Listener>(
    alloc: Global,
    disk: &mut D,
    listener: &mut L,
) -> Result<(Terms, Listing<Move<T::Op, T::Reply>>), OpenRefused>
    ensures reads { let reads = ReadsIn old_form T.meaning A.address in
        IfOk result (λ r. ForSome (D.contents disk.old) (λ f. reads f (Opens r.0 r.1))) }
    ensures only { let only = ReadsOnlyIn old_form T.meaning A.address in
        IfOk result (λ r. ForSome (D.contents disk.old) (only (Opens r.0 r.1))) }
    ensures valid { IfOk result (λ r.
        IsFullyValid (fix_in old_form T.meaning r.0 A.address) r.1) }
    ensures known { IfOk result (λ r. AreKnown (fix_in old_form T.meaning r.0 A.address) r.1) }
    ensures sure { OnOk result
        ((c : Files) → D.may_leave disk.new c → D.contents disk.old ≡ Some c) }
    ensures refused { let refused = OpenRefusedIn old_form T.meaning A.address in
        IfErr result (λ e. ForSome (D.contents disk.old) (refused e)) }
    ensures refused_only { let none = ReadsAsNoneIn old_form T.meaning A.address in
        IfErr result (λ e. e ≢ OpenRefused.DiskFault → e ≢ OpenRefused.Memory
        → ForSome (D.contents disk.old) none) }
    ensures only_refused { let refused = RefusedOnlyIn old_form T.meaning A.address in
        IfErr result (λ e. ForSome (D.contents disk.old) (refused e)) }
    ensures same { D.contents disk.new ≡ D.contents disk.old }
    ensures any_moment { let images = D.may_leave disk.old in
        LeavesOnly D.moment D.left_since disk.old disk.new images }
    ensures cause { let before = D.faults disk.old in
        HasCauseOf OpenRefused.DiskFault before (D.faults disk.new) result }
{
    reads_old_as_first_kind::<T>();
    match read_in::<T, D, A, L>(alloc, disk, OLD, 0, listener) {
        Ok((_journal, recorded)) => {
            let terms = recorded.terms();
            Ok((terms, recorded.into_moves()))
        }
        Err(refused) => Err(refused),
    }
}

// Whether the heads have a header of version 1, and a byte behind it.
fn has_old_header<D: Disk>(alloc: Global, disk: &mut D) -> Result<bool, OldRefused>
    ensures has { IfOk result (λ has. IsTrue has → ForSome (D.contents disk.old) (λ f.
        (terms : SpecTerms) × HasHeader (header_in old_form terms) f.heads)) }
    ensures none { IfOk result (λ has. has ≡ false
        → ForSome (D.contents disk.old) (λ f. HasNone 1 0 f.heads)) }
    ensures same { D.contents disk.new ≡ D.contents disk.old }
    ensures any_moment { let images = D.may_leave disk.old in
        LeavesOnly D.moment D.left_since disk.old disk.new images }
    ensures cause { let before = D.faults disk.old in
        HasCauseOf OldRefused.DiskFault before (D.faults disk.new) result }
{
    match read_all(alloc, disk, OLD, 0) {
        Ok(_heads) => Ok(true),
        Err(ReadAllRefused::NotAStore) => Ok(false),
        Err(ReadAllRefused::DiskFault) => Err(OldRefused::DiskFault),
        Err(ReadAllRefused::Memory) => Err(OldRefused::Memory),
    }
}

// The first bytes of a part: so many, or all where there are fewer.
fn front_of<D: Disk>(
    alloc: Global,
    disk: &mut D,
    part: Part,
    count: u64,
) -> Result<Vec<u8>, OldRefused>
    ensures bytes { IfOk result (λ front. ForSome (D.contents disk.old) (λ f.
        front.items ≡ take count (bytes_of part f))) }
    ensures same { D.contents disk.new ≡ D.contents disk.old }
    ensures any_moment { let images = D.may_leave disk.old in
        LeavesOnly D.moment D.left_since disk.old disk.new images }
    ensures cause { let before = D.faults disk.old in
        HasCauseOf OldRefused.DiskFault before (D.faults disk.new) result }
{
    let Ok(length) = disk.length(part) else {
        return Err(OldRefused::DiskFault);
    };
    let Ok(mut bytes) = vec![in alloc; 0; length.min(count) as usize] else {
        return Err(OldRefused::Memory);
    };
    let Ok(()) = disk.read(part, 0, &mut bytes) else {
        return Err(OldRefused::DiskFault);
    };
    Ok(bytes)
}

// Whether the objects begin with those of a new store of version 1, which keeps values.
fn begins_as_old<T: Mrdt, D: Disk, A: Address>(
    alloc: Global,
    disk: &mut D,
) -> Result<bool, OldRefused>
    ensures begins { IfOk result (λ begins. IsTrue begins
        → ForSome (D.contents disk.old) (λ f. (terms : SpecTerms) → terms.layout ≡ Whole
        → Begins (objects_text (fix_in old_form T.meaning terms A.address) []) f.objects)) }
    ensures other { IfOk result (λ begins. begins ≡ false
        → ForSome (D.contents disk.old) (λ f. (terms : SpecTerms) → terms.layout ≡ Whole
        → Begins (objects_text (fix_in old_form T.meaning terms A.address) []) f.objects → ⊥)) }
    ensures same { D.contents disk.new ≡ D.contents disk.old }
    ensures any_moment { let images = D.may_leave disk.old in
        LeavesOnly D.moment D.left_since disk.old disk.new images }
    ensures cause { let before = D.faults disk.old in
        HasCauseOf OldRefused.DiskFault before (D.faults disk.new) result }
{
    let Ok(first) = first_text::<T, A>(alloc, OLD, Layout::Whole) else {
        return Err(OldRefused::Memory);
    };
    match front_of(alloc, disk, Part::Objects, first.len() as u64) {
        Ok(front) => Ok(front.starts_with(&first)),
        Err(refused) => Err(refused),
    }
}

/// Whether the files of a disk are a store's in version 1 as far as their beginning goes: the heads begin with a header
/// of version 1 and have a byte behind it, and the objects begin with those of a new store of version 1. Of the objects
/// it reads no more than that. It writes nothing.
pub fn is_old<T: Mrdt, D: Disk, A: Address>(alloc: Global, disk: &mut D) -> Result<bool, OldRefused>
    ensures old { let reads = ReadsIn old_form T.meaning A.address in
        IfOk result (λ old. IsTrue old
        → ForSome (D.contents disk.old) (λ f. ¬ reads f NotAStore)) }
    ensures other { let reads = ReadsIn old_form T.meaning A.address in
        IfOk result (λ old. old ≡ false
        → ForSome (D.contents disk.old) (λ f. reads f NotAStore)) }
    ensures same { D.contents disk.new ≡ D.contents disk.old }
    ensures any_moment { let images = D.may_leave disk.old in
        LeavesOnly D.moment D.left_since disk.old disk.new images }
    ensures cause { let before = D.faults disk.old in
        HasCauseOf OldRefused.DiskFault before (D.faults disk.new) result }
{
    reads_as_none_of_kind::<T>();
    reads_old_as_first_kind::<T>();
    reads_as_store::<T>();
    match has_old_header(alloc, disk) {
        Ok(true) => begins_as_old::<T, D, A>(alloc, disk),
        Ok(false) => Ok(false),
        Err(refused) => Err(refused),
    }
}
