// The byte that says which of two disks is current.
ghost use Rattle.std.specs.Prelude.{◌≡◌, ◌∷◌, [], false, OnOk};
ghost use Rattle.branch_io.specs.Causes.{HasCause};
ghost use Rattle.branch_disk.specs.Disk.{Files, After, Holds, LeavesOnly, OnPart, Tells};
ghost use Rattle.branch_compact.specs.Switch.{is_current, AreTornAtFirst};
ghost use Rattle.store_compact.specs.Written.{BeginButFirst, BeginWith};

use crate::writing::put_synced;
use branch_disk::{Disk, DiskFailed, Part};

/// Makes the second disk the current one: writes the byte 2 in the first place of the first disk's heads, and syncs
/// them. What the second disk is to hold must stand on it, whatever a crash leaves of it.
pub fn switch_to_second<D: Disk>(
    first: &mut D,
    second: &D,
    objects: &[u8],
    heads: &[u8],
) -> Result<(), DiskFailed>
    requires ready { (c : Files) → D.may_leave second.now c → BeginWith objects.now heads.now c }
    ensures any_moment { LeavesOnly D.moment D.left_since first.old first.new
        (After AreTornAtFirst (D.may_leave first.old)) }
    ensures switched { OnOk result ((c : Files) → D.may_leave first.new c
        → is_current c ≡ false) }
    ensures written { OnOk result (Tells (OnPart Part.Heads (Holds 0 (2 ∷ [])))
        (D.contents first.old) (D.contents first.new)) }
    ensures cause { HasCause (D.faults first.old) (D.faults first.new) result }
{
    put_synced(first, Part::Heads, 0, &[2])
}

/// Makes the first disk the current one: writes the byte 1 in the first place of its heads, and syncs them. What it is
/// to hold must stand on it but for that byte, whatever a crash leaves of it.
pub fn switch_to_first<D: Disk>(
    first: &mut D,
    objects: &[u8],
    heads: &[u8],
) -> Result<(), DiskFailed>
    requires ready { (c : Files) → D.may_leave first.old c
        → BeginButFirst objects.now heads.now c }
    ensures any_moment { LeavesOnly D.moment D.left_since first.old first.new
        (After AreTornAtFirst (D.may_leave first.old)) }
    ensures switched { OnOk result ((c : Files) → D.may_leave first.new c
        → BeginWith objects.now heads.now c) }
    ensures written { OnOk result (Tells (OnPart Part.Heads (Holds 0 (1 ∷ [])))
        (D.contents first.old) (D.contents first.new)) }
    ensures cause { HasCause (D.faults first.old) (D.faults first.new) result }
{
    put_synced(first, Part::Heads, 0, &[1])
}
