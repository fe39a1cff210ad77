// A disk of two parts: what a read gives, and what a crash may leave.
ghost use Rattle.std.specs.Prelude.{◌≡◌, ◌+◌, ◌-◌, ◌^◌, ◌≤◌, Option, Some, ℕ, length, take, drop, IfOk, OnOk};
ghost use Rattle.std.specs.Option.{ForSome};
ghost use Rattle.branch_io.specs.Causes.{HasCause};
ghost use Rattle.branch_disk.specs.Disk.{Files, bytes_of, OnPart, Holds, Torn, After, Tells, StillTells, IsSure, LeavesOnly};

use crate::Part;
use thiserror::Error;

/// The disk failed, and its count of faults says so.
#[derive(Clone, Copy, Debug, PartialEq, Eq, Error)]
#[error("the disk failed")]
pub struct DiskFailed;

/// A disk of two parts, each a file of bytes. Places are counted in bytes from 0.
///
/// A crash may leave any of the disk's images: with what was sure at the last sync of each part, and any bytes
/// in the ranges that were written since. A disk may tell what it holds; of one that tells nothing, no image
/// is told either. Each call fails only where the count of faults rose in it, or stands at its last value, and
/// that count stays where a call goes through.
pub trait Disk {
    // The bytes that reads give, where the disk tells them.
    ghost contents: { Self → Option Files };

    // What a crash at this moment may leave.
    ghost may_leave: { Self → Files → Type 0 };

    // The moment, as a number that does not fall.
    ghost moment: { Self → ℕ };

    // What a crash at some moment from that one on might have left, during a call or between two.
    ghost left_since: { Self → ℕ → Files → Type 0 };

    // How often the disk has failed.
    ghost faults: { Self → ℕ };

    /// The number of bytes of a part.
    fn length(&mut self, part: Part) -> Result<u64, DiskFailed>
        ensures told { IfOk result (λ n.
            ForSome (contents self.old) (λ f. n ≡ length (bytes_of part f))) }
        ensures same { contents self.new ≡ contents self.old }
        ensures moments { LeavesOnly moment left_since self.old self.new (may_leave self.old) }
        ensures cause { HasCause (faults self.old) (faults self.new) result };

    /// Fills the buffer with the bytes of a part from a place on.
    fn read(&mut self, part: Part, at: u64, buf: &mut [u8]) -> Result<(), DiskFailed>
        requires { ForSome (contents self.old) (λ f.
            at + length buf.old ≤ length (bytes_of part f)) }
        ensures told { OnOk result (ForSome (contents self.old) (λ f.
            buf.new ≡ take (length buf.old) (drop at (bytes_of part f)))) }
        ensures same { contents self.new ≡ contents self.old }
        ensures moments { LeavesOnly moment left_since self.old self.new (may_leave self.old) }
        ensures cause { HasCause (faults self.old) (faults self.new) result };

    /// Writes over what is there, and past the end. Until a sync of that part, a crash may leave any bytes in the
    /// range. After a failed write, reads too may give any bytes there.
    fn write_at(&mut self, part: Part, at: u64, bytes: &[u8]) -> Result<(), DiskFailed>
        requires within { ForSome (contents self.old) (λ f. at ≤ length (bytes_of part f)) }
        requires end { at + length bytes.now ≤ 2 ^ 63 - 1 }
        ensures written { OnOk result (Tells (OnPart part (Holds at bytes.now)) (contents self.old)
            (contents self.new)) }
        ensures torn { Tells (OnPart part (Torn at (length bytes.now))) (contents self.old)
            (contents self.new) }
        ensures moments { LeavesOnly moment left_since self.old self.new
            (After (OnPart part (Torn at (length bytes.now))) (may_leave self.old)) }
        ensures cause { HasCause (faults self.old) (faults self.new) result };

    /// After it, a crash leaves of that part what a read gives.
    fn sync(&mut self, part: Part) -> Result<(), DiskFailed>
        ensures durable { OnOk result (IsSure part (contents self.old) (may_leave self.new)) }
        ensures same { contents self.new ≡ contents self.old }
        ensures moments { LeavesOnly moment left_since self.old self.new (may_leave self.old) }
        ensures cause { HasCause (faults self.old) (faults self.new) result };

    // This moment is one of those since an earlier one.
    ghost counts_now: { (disk : Self) (t : ℕ) (c : Files) → t ≤ moment disk → may_leave disk c
        → left_since disk t c };

    // Since this moment there is no other.
    ghost only_now: { (disk : Self) (c : Files) → left_since disk (moment disk) c
        → may_leave disk c };

    // The disk as it reads is one of its images.
    ghost reads_image: { (disk : Self) (f : Files) → contents disk ≡ Some f → may_leave disk f };

    // Of a disk that does not tell no image is told.
    ghost told: { (disk : Self) (c : Files) → may_leave disk c → (f : Files)
        × (contents disk ≡ Some f) };

    // Where one disk of the type tells what it holds, each does.
    ghost all_tell: { (one other : Self) → StillTells (contents one) (contents other) };
}
