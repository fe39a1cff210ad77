// What a write and a sync do to the images of a disk, as this crate's trait says it, is what the sure bytes and the
// pending ranges say, in both directions.
ghost use Rattle.std.specs.Prelude.{◌≡◌, ◌↔◌, ◌≤◌, ℕ, List, length};
ghost use Rattle.branch_disk.specs.declared.part.Part.{Part as SpecPart};
ghost use Rattle.branch_disk.specs.Disk.{Files, bytes_of, OnPart, Torn, After};
ghost use Rattle.branch_disk.specs.Image.{Held, IsImageOf, IsSound, written, half_written, synced};
ghost use Rattle.branch_disk.specs.History.{on_part};
ghost use Rattle.branch_disk.specs.Fill.{kept_of};

/// After a write, whether it went through or failed, a crash may leave exactly what it might have left before,
/// with any bytes in the range of the write.
pub fn a_write_tears_its_range()
    ensures through { (held : Held) (part : SpecPart) (at : ℕ) (bytes : List ℕ) (c : Files)
        → IsSound (kept_of part held) → at ≤ length (kept_of part held).reads
        → IsImageOf (on_part part (written at bytes) held) c
        ↔ After (OnPart part (Torn at (length bytes))) (IsImageOf held) c }
    ensures failed { (held : Held) (part : SpecPart) (at : ℕ) (bytes : List ℕ) (c : Files)
        → IsSound (kept_of part held) → at ≤ length (kept_of part held).reads
        → IsImageOf (on_part part (half_written at bytes) held) c
        ↔ After (OnPart part (Torn at (length bytes))) (IsImageOf held) c }
{}

/// After a sync, a crash may leave exactly that of what it might have left before which has in this part what
/// reads give.
pub fn a_sync_makes_its_part_sure()
    ensures { (held : Held) (part : SpecPart) (c : Files) → IsSound (kept_of part held)
        → IsImageOf (on_part part synced held) c
        ↔ (IsImageOf held c × (bytes_of part c ≡ (kept_of part held).reads)) }
{}
