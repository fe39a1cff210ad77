// A disk that a crash may have left: making what it gives sure, and reading a whole part of it.
ghost use Rattle.std.specs.Prelude.{◌≡◌, Some, length, IfOk, OnOk, Err};
ghost use Rattle.std.specs.Option.{ForSome};
ghost use Rattle.branch_io.specs.Causes.{HasCause, HasCauseOf};
ghost use Rattle.branch_disk.specs.Disk.{Files, bytes_of, LeavesOnly};

use crate::{Disk, DiskFailed, Part};
use std::alloc::Global;
use thiserror::Error;

/// Why a part was not read.
#[derive(Clone, Copy, Debug, PartialEq, Eq, Error)]
pub enum ReadRefused {
    /// The disk failed.
    #[error("the disk failed")]
    DiskFault,
    /// There was no room for the bytes.
    #[error("out of memory")]
    Memory,
}

/// Syncs both parts. After it, a crash leaves what reads give.
pub fn settle<D: Disk>(disk: &mut D) -> Result<(), DiskFailed>
    ensures durable { OnOk result ((c : Files) → D.may_leave disk.new c
        → D.contents disk.new ≡ Some c) }
    ensures same { D.contents disk.new ≡ D.contents disk.old }
    ensures any_moment { LeavesOnly D.moment D.left_since disk.old disk.new (D.may_leave disk.old) }
    ensures cause { HasCause (D.faults disk.old) (D.faults disk.new) result }
{
    disk.sync(Part::Objects)?;
    disk.sync(Part::Heads)
}

/// The bytes of a part. Where the disk fails, its count of faults rises and the answer is `DiskFault`; after any other
/// answer the count is where it was.
pub fn read_whole<D: Disk>(alloc: Global, disk: &mut D, part: Part) -> Result<Vec<u8>, ReadRefused>
    ensures bytes { IfOk result (λ v.
        ForSome (D.contents disk.old) (λ f. v.items ≡ bytes_of part f)) }
    ensures same { D.contents disk.new ≡ D.contents disk.old }
    ensures any_moment { LeavesOnly D.moment D.left_since disk.old disk.new (D.may_leave disk.old) }
    ensures cause { HasCauseOf ReadRefused.DiskFault (D.faults disk.old)
        (D.faults disk.new) result }
{
    let Ok(length) = disk.length(part) else {
        return Err(ReadRefused::DiskFault);
    };
    let Ok(mut bytes) = vec![in alloc; 0; length as usize] else {
        return Err(ReadRefused::Memory);
    };
    let Ok(()) = disk.read(part, 0, &mut bytes) else {
        return Err(ReadRefused::DiskFault);
    };
    Ok(bytes)
}
