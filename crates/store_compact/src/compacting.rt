// The compaction of a store: the other disk is written, and then made the current one.
ghost use Rattle.std.specs.Prelude.{◌≡◌, ◌≤◌, ◌∷◌, [], false, take, Some, IfOk, IfErr};
ghost use Rattle.branch_io.specs.Causes.{Rose};
ghost use Rattle.branch_disk.specs.Disk.{Files};
ghost use Rattle.branch_compact.specs.Switch.{is_current};
ghost use Rattle.store_compact.specs.Compacting.{first_of, second_of, IsCompacted, IsNotCompacted, HasCauseOfEither};
ghost use Rattle.store_compact.specs.Written.{BeginButFirst, IsSettledAside, LeftByFirst, LeftBySecond, MovedToFirst, MovedToSecond};

use crate::answers::{CompactRefused, Compacted, Which};
use crate::files::{CompactFiles, compact_files};
use crate::switching::{switch_to_first, switch_to_second};
use crate::writing::{write_but_first, write_store};
use branch_address::Address;
use branch_compact::laws::{compacts_fully_valid, switches_to_first, switches_to_second};
use branch_disk::{Disk, DiskFailed};
use branch_files::laws::{has_gates, reads_what_stands};
use mrdt_model::{Memory, Mrdt};
use std::alloc::Global;
use store_core::Core;

// Two disks in their order.
fn in_order<D>(current: Which, held: D, other: D) -> (D, D)
    ensures first { result.0 ≡ first_of current held other }
    ensures second { result.1 ≡ second_of current held other }
{
    match current {
        Which::First => (held, other),
        Which::Second => (other, held),
    }
}

// Writes files on a second disk, and makes it the current one. The first disk is not touched before.
fn move_to_second<D: Disk + Drop>(held: D, other: D, files: &CompactFiles) -> Result<(D, D), (D, D)>
    ensures moved { IfOk result (λ r.
        MovedToSecond D.Disk files.now.objects.items files.now.heads.items held other r.0 r.1) }
    ensures left { IfErr result (λ r.
        LeftBySecond D.Disk files.now.objects.items files.now.heads.items held other r.0 r.1) }
    ensures no_cause { IfOk result (λ r. (D.faults r.0 ≡ D.faults held)
        × (D.faults r.1 ≡ D.faults other)) }
    ensures cause { IfErr result (λ r. HasCauseOfEither (D.faults held) (D.faults r.0)
        (D.faults other) (D.faults r.1) CompactRefused.DiskFault) }
{
    let mut first = held;
    let mut second = other;
    let Ok(()) = write_store(&mut second, &files.objects, &files.heads) else {
        return Err((first, second));
    };
    match switch_to_second(&mut first, &second, &files.objects, &files.heads) {
        Ok(()) => Ok((first, second)),
        Err(DiskFailed) => Err((first, second)),
    }
}

// Writes files on a first disk that is not current, and makes it the current one.
fn move_to_first<D: Disk + Drop>(other: D, files: &CompactFiles) -> Result<D, D>
    requires aside { IsSettledAside (D.contents other) (D.may_leave other) }
    requires first { take 1 files.now.heads.items ≡ 1 ∷ [] }
    ensures moved { IfOk result (λ first.
        MovedToFirst D.Disk files.now.objects.items files.now.heads.items other first) }
    ensures left { IfErr result (λ first.
        LeftByFirst D.Disk files.now.objects.items files.now.heads.items other first) }
    ensures no_cause { IfOk result (λ first. D.faults first ≡ D.faults other) }
    ensures cause { IfErr result (λ first. (D.faults other ≤ D.faults first)
        × Rose (D.faults other) (D.faults first)) }
{
    let mut first = other;
    let Ok(()) = write_but_first(&mut first, &files.objects, &files.heads) else {
        return Err(first);
    };
    match switch_to_first(&mut first, &files.objects, &files.heads) {
        Ok(()) => Ok(first),
        Err(DiskFailed) => Err(first),
    }
}

/// Compacts the store of a core whose disk is the current one of two: writes the store of the compact history, in the
/// same layout, on the other, all of it synced, and then makes that the current one by one byte of the first. Says how
/// many moves were kept, and of how many. Both disks come back, the first one first. What the other held is written
/// over, and what stands behind is left.
///
/// After `Ok` the two disks read as the compact history, whatever a crash leaves of both. Until the switch they read
/// as the history, and while the switch is written, and after a fault, as the one or the other: as the history where
/// the disk failed before the switch. After `Memory` nothing was called of a disk.
///
/// Each disk counts its own moments, so no clause names a moment of both. While one is written the other is the same
/// value, and what is said of an image of the one is said with every image that the other may leave.
pub fn compact<T: Mrdt, D: Disk + Drop, A: Address>(
    alloc: Global,
    core: Core<T, D, A>,
    other: D,
    current: Which,
) -> Result<(Compacted, D, D), (CompactRefused, D, D)>
    requires working { core.failed ≡ false }
    requires aside { current ≡ Which.Second → (c : Files) → D.may_leave other c
        → (D.contents other ≡ Some c) × (is_current c ≡ false) }
    ensures compacted { IfOk result (λ r.
        IsCompacted D.Disk T.meaning A.address current core other r.0 r.1 r.2) }
    ensures refused { IfErr result (λ e.
        IsNotCompacted D.Disk T.meaning A.address current core other e.0 e.1 e.2) }
    ensures no_cause { IfOk result (λ r.
        (D.faults r.1 ≡ D.faults (first_of current core.disk other))
        × (D.faults r.2 ≡ D.faults (second_of current core.disk other))) }
    ensures cause { IfErr result (λ e.
        HasCauseOfEither (D.faults (first_of current core.disk other)) (D.faults e.1)
        (D.faults (second_of current core.disk other)) (D.faults e.2) e.0) }
{
    reads_what_stands::<T>();
    has_gates::<T>();
    compacts_fully_valid::<T>();
    switches_to_first::<T>();
    switches_to_second::<T>();
    let moves = core.moves();
    let (recorded, disk) = core.into_recorded();
    let files = match compact_files(alloc, recorded) {
        Ok(files) => files,
        Err(Memory) => {
            let (first, second) = in_order(current, disk, other);
            return Err((CompactRefused::Memory, first, second));
        }
    };
    let counted = Compacted {
        kept: files.moves,
        moves,
    };
    match current {
        Which::First => match move_to_second(disk, other, &files) {
            Ok((first, second)) => Ok((counted, first, second)),
            Err((first, second)) => Err((CompactRefused::DiskFault, first, second)),
        },
        Which::Second => match move_to_first(other, &files) {
            Ok(first) => Ok((counted, first, disk)),
            Err(first) => Err((CompactRefused::DiskFault, first, disk)),
        },
    }
}
