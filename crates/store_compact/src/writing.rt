// The device calls that write a store over what a disk has.
ghost use Rattle.std.specs.Prelude.{◌≡◌, ◌+◌, ◌-◌, ◌^◌, ◌≤◌, ◌∷◌, [], false, length, take, drop, OnOk};
ghost use Rattle.std.specs.Option.{ForSome};
ghost use Rattle.branch_io.specs.Causes.{HasCause};
ghost use Rattle.branch_disk.specs.Disk.{Files, bytes_of, After, Holds, IsSure, LeavesOnly, OnPart, Tells, Torn};
ghost use Rattle.branch_compact.specs.Switch.{is_current};
ghost use Rattle.store_compact.specs.Written.{AreTorn, BeginButFirst, BeginWith, HasOtherFirst, HasPut, Hold, HoldButFirst, IsSettledAside, KeepButFirst};

use branch_disk::{Disk, DiskFailed, Part};

// Writes bytes at a place of a part, and syncs that part.
pub(crate) fn put_synced<D: Disk>(
    disk: &mut D,
    part: Part,
    at: u64,
    bytes: &[u8],
) -> Result<(), DiskFailed>
    requires within { ForSome (D.contents disk.old) (λ f. at ≤ length (bytes_of part f)) }
    requires end { at + length bytes.now ≤ 2 ^ 63 - 1 }
    ensures any_moment { LeavesOnly D.moment D.left_since disk.old disk.new
        (After (OnPart part (Torn at (length bytes.now))) (D.may_leave disk.old)) }
    ensures put { OnOk result ((c : Files) → D.may_leave disk.new c
        → HasPut part at bytes.now (D.contents disk.old) (D.may_leave disk.old) c) }
    ensures written { OnOk result (Tells (OnPart part (Holds at bytes.now)) (D.contents disk.old)
        (D.contents disk.new)) }
    ensures cause { HasCause (D.faults disk.old) (D.faults disk.new) result }
{
    disk.write_at(part, at, bytes)?;
    disk.sync(part)
}

/// Writes objects and heads over what a disk has, the objects first, and syncs each of both. What stands behind them
/// is left as it is. It takes no memory.
pub fn write_store<D: Disk>(disk: &mut D, objects: &[u8], heads: &[u8]) -> Result<(), DiskFailed>
    requires objects { length objects.now ≤ 2 ^ 63 - 1 }
    requires heads { length heads.now ≤ 2 ^ 63 - 1 }
    ensures any_moment { LeavesOnly D.moment D.left_since disk.old disk.new
        (After (AreTorn (length objects.now) (length heads.now)) (D.may_leave disk.old)) }
    ensures begin { OnOk result ((c : Files) → D.may_leave disk.new c
        → BeginWith objects.now heads.now c) }
    ensures written { OnOk result (Tells (Hold objects.now heads.now) (D.contents disk.old)
        (D.contents disk.new)) }
    ensures cause { HasCause (D.faults disk.old) (D.faults disk.new) result }
{
    put_synced(disk, Part::Objects, 0, objects)?;
    put_synced(disk, Part::Heads, 0, heads)
}

// Gives the heads a first byte that is not 1 where they have fewer than 65 bytes: so that one is sure before more is
// written behind it.
fn give_first<D: Disk>(disk: &mut D) -> Result<(), DiskFailed>
    requires aside { IsSettledAside (D.contents disk.old) (D.may_leave disk.old) }
    ensures never_current { LeavesOnly D.moment D.left_since disk.old disk.new (λ c.
        is_current c ≡ false) }
    ensures other { OnOk result ((c : Files) → D.may_leave disk.new c → HasOtherFirst c) }
    ensures kept { OnOk result (Tells KeepButFirst (D.contents disk.old) (D.contents disk.new)) }
    ensures cause { HasCause (D.faults disk.old) (D.faults disk.new) result }
{
    let length = disk.length(Part::Heads)?;
    if length < 65 {
        put_synced(disk, Part::Heads, 0, &[0])
    } else {
        Ok(())
    }
}

/// Writes objects and heads, but for the first byte of the heads, over what a first disk has that is not current, and
/// syncs each of both. Where its heads have fewer than 65 bytes, they first get a byte 0, which is synced. So no crash
/// at any moment makes the disk current. What stands behind is left as it is. It takes no memory.
pub fn write_but_first<D: Disk>(
    disk: &mut D,
    objects: &[u8],
    heads: &[u8],
) -> Result<(), DiskFailed>
    requires aside { IsSettledAside (D.contents disk.old) (D.may_leave disk.old) }
    requires first { take 1 heads.now ≡ 1 ∷ [] }
    requires objects { length objects.now ≤ 2 ^ 63 - 1 }
    requires heads { length heads.now ≤ 2 ^ 63 - 1 }
    ensures never_current { LeavesOnly D.moment D.left_since disk.old disk.new (λ c.
        is_current c ≡ false) }
    ensures begin { OnOk result ((c : Files) → D.may_leave disk.new c
        → BeginButFirst objects.now heads.now c) }
    ensures written { OnOk result (Tells (HoldButFirst objects.now heads.now)
        (D.contents disk.old) (D.contents disk.new)) }
    ensures cause { HasCause (D.faults disk.old) (D.faults disk.new) result }
{
    give_first(disk)?;
    put_synced(disk, Part::Objects, 0, objects)?;
    put_synced(disk, Part::Heads, 1, &heads[1..])
}
