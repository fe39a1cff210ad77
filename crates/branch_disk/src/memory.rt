// A disk in memory. It keeps what it had at first and each call, so it can say what a crash would have left.
ghost use Rattle.std.specs.Prelude.{◌≡◌, ◌+◌, ◌-◌, ◌^◌, ◌<◌, ◌≤◌, Some, Err, IfOk, OnOk, [], length, min, take, drop, vec_capacity};
ghost use Rattle.branch_io.specs.Causes.{HasCause};
ghost use Rattle.branch_io.specs.Counts.{failed_calls, fault_count, capped, IsNew, FailsWithoutRoom};
ghost use Rattle.branch_disk.specs.Disk.{Files, bytes_of};
ghost use Rattle.branch_disk.specs.History.{both_at_rest, replay, IsNoted, IsKeptAs, chosen};
ghost use Rattle.branch_disk.specs.Fill.{during, image_of};

use crate::call::{Call, What};
use crate::image::image_of_part;
use crate::patch::{make_room_in, put_in};
use crate::{Disk, DiskFailed, Fill, Part};
use branch_io::Faults;
use mrdt_model::Memory;
use std::alloc::Global;

/// A disk in memory, of which listed calls fail. It keeps each of its calls, and so it can say what a crash
/// would have left at any of them. A growth that is refused makes its call a failing one.
#[derive(Drop)]
pub struct MemoryDisk {
    alloc: Global,
    first_objects: Vec<u8>,
    first_heads: Vec<u8>,
    calls: Vec<Call>,
    objects: Vec<u8>,
    heads: Vec<u8>,
    faults: Faults,
    ghost is: { IsKeptAs (replay (both_at_rest first_objects.items first_heads.items) calls.items)
        (record { objects = objects.items; heads = heads.items }) },
}

// Notes a call, which fails if it is listed or if there is no room for it.
fn note(calls: &mut Vec<Call>, faults: &mut Faults, what: What) -> Result<(), DiskFailed>
    ensures noted { IsNoted what result calls.old.items calls.new.items faults.old faults.new }
    ensures calls { FailsWithoutRoom faults.old faults.new result }
    ensures cause { HasCause (fault_count faults.old) (fault_count faults.new) result }
    ensures room { length calls.old.items < vec_capacity calls.old
        → faults.new.refused ≡ faults.old.refused }
    ensures taken { vec_capacity calls.old ≤ vec_capacity calls.new }
{
    let failed = faults.fails();
    if calls.push(Call { what, failed }).is_err() {
        faults.refuse();
        return Err(DiskFailed);
    }
    if failed { Err(DiskFailed) } else { Ok(()) }
}

// Counts a call that there is no room for.
fn no_room(faults: &mut Faults) -> Result<(), DiskFailed>
    ensures fails { result ≡ Err (record {}) }
    ensures refused { faults.new.refused ≡ capped (faults.old.refused + 1) }
    ensures calls { FailsWithoutRoom faults.old faults.new result }
    ensures cause { HasCause (fault_count faults.old) (fault_count faults.new) result }
{
    let _ = faults.fails();
    faults.refuse();
    Err(DiskFailed)
}

// The bytes of a write, for which its part has room.
fn prepared(
    alloc: Global,
    objects: &mut Vec<u8>,
    heads: &mut Vec<u8>,
    part: Part,
    at: u64,
    bytes: &[u8],
) -> Result<Vec<u8>, Memory>
    requires { at
        ≤ length (bytes_of part (record { objects = objects.old.items; heads = heads.old.items })) }
    ensures objects { objects.new.items ≡ objects.old.items }
    ensures heads { heads.new.items ≡ heads.old.items }
    ensures room { IfOk result (λ copy.
        at + length bytes.now ≤ vec_capacity (chosen part objects.new heads.new)) }
    ensures copy { IfOk result (λ copy. copy.items ≡ bytes.now) }
{
    make_room_in(objects, heads, part, at, bytes.len())?;
    Ok(bytes.to_vec(alloc)?)
}

// The bytes of a part.
fn part_of<'a>(objects: &'a Vec<u8>, heads: &'a Vec<u8>, part: Part) -> &'a [u8]
    ensures { result.now ≡ bytes_of part (record {
      objects = objects.now.items;
      heads = heads.now.items;
    }) }
{
    match part {
        Part::Objects => objects.as_slice(),
        Part::Heads => heads.as_slice(),
    }
}

// Fills the buffer from a place on.
fn fill(from: &[u8], at: u64, buf: &mut [u8])
    requires { at + length buf.old ≤ length from.now }
    ensures { buf.new ≡ take (length buf.old) (drop at from.now) }
{
    let at = at as usize;
    buf.copy_from_slice(&from[at..at + buf.len()]);
}

impl MemoryDisk {
    ghost use Rattle.branch_disk.specs.Memory.{first, faults_of};

    /// How many device calls were made: those that failed too, but for those that there was no room to note.
    pub fn calls(&self) -> u64
        ensures { result ≡ ⟦<MemoryDisk as Disk>⟧.moment self.now }
    {
        self.calls.len() as u64
    }

    /// The disk that a crash leaves when so many device calls are done and the next has begun. None of its calls is
    /// listed, and none was made.
    pub fn image(&self, calls: u64, fill: Fill) -> Result<MemoryDisk, Memory>
        ensures files { IfOk result (λ d. ⟦<MemoryDisk as Disk>⟧.contents d
            ≡ Some (image_of fill (during (first self.now) self.now.calls.items
            (min calls (length self.now.calls.items))))) }
        ensures durable { IfOk result (λ d. (c : Files) → ⟦<MemoryDisk as Disk>⟧.may_leave d c
            → ⟦<MemoryDisk as Disk>⟧.contents d ≡ Some c) }
        ensures crash { IfOk result (λ d. (f : Files) → ⟦<MemoryDisk as Disk>⟧.contents d ≡ Some f
            → ⟦<MemoryDisk as Disk>⟧.left_since self.now (min calls (length self.now.calls.items))
            f) }
        ensures none { IfOk result (λ d. IsNew [] (faults_of d)
            × (⟦<MemoryDisk as Disk>⟧.moment d ≡ 0)) }
        ensures faults { IfOk result (λ d. ⟦<MemoryDisk as Disk>⟧.faults d ≡ 0) }
    {
        let k = calls.min(self.calls.len() as u64) as usize;
        let first_objects = self.first_objects.to_vec(self.alloc)?;
        let objects = image_of_part(first_objects, &self.calls, k, Part::Objects, fill)?;
        let first_heads = self.first_heads.to_vec(self.alloc)?;
        let heads = image_of_part(first_heads, &self.calls, k, Part::Heads, fill)?;
        Ok(MemoryDisk {
            alloc: self.alloc,
            first_objects: objects.to_vec(self.alloc)?,
            first_heads: heads.to_vec(self.alloc)?,
            calls: Vec::new(self.alloc),
            objects,
            heads,
            faults: Faults::new(Vec::new(self.alloc)),
        })
    }

    /// An empty disk, whose calls of these numbers fail, from 1 on.
    pub fn new(failing: Vec<u64>) -> MemoryDisk
        ensures empty { ⟦<MemoryDisk as Disk>⟧.contents result
            ≡ Some (record { objects = []; heads = [] }) }
        ensures durable { (c : Files) → ⟦<MemoryDisk as Disk>⟧.may_leave result c
            → c ≡ record { objects = []; heads = [] } }
        ensures none { IsNew failing.items (faults_of result)
            × (⟦<MemoryDisk as Disk>⟧.moment result ≡ 0) }
        ensures faults { ⟦<MemoryDisk as Disk>⟧.faults result ≡ failed_calls failing.items 0 }
    {
        let alloc = *failing.allocator();
        MemoryDisk {
            alloc,
            first_objects: Vec::new(alloc),
            first_heads: Vec::new(alloc),
            calls: Vec::new(alloc),
            objects: Vec::new(alloc),
            heads: Vec::new(alloc),
            faults: Faults::new(failing),
        }
    }
}

impl Disk for MemoryDisk {
    ghost use Rattle.std.specs.Prelude.{IfOk, OnOk, refl};
    ghost use Rattle.branch_io.specs.Causes.{HasCause};
    ghost use Rattle.branch_io.specs.Counts.{FailsWithoutRoom};
    ghost use Rattle.std.specs.Option.{ForSome};
    ghost use Rattle.branch_disk.specs.Disk.{bytes_of, OnPart, Holds, Torn, After, Tells, IsSure, LeavesOnly};
    ghost use Rattle.branch_disk.specs.Image.{IsImageOf, written, half_written, synced};
    ghost use Rattle.branch_disk.specs.History.{on_part};
    ghost use Rattle.branch_disk.specs.HistoryLaws.{now_counts, last_now};
    ghost use Rattle.branch_disk.specs.Memory.{first, held, moment, left_since, contents, faults_of, faults, Changes, TakesRoom};
    ghost use Rattle.branch_disk.specs.MemoryLaws.{reads_so};

    ghost contents = { contents };

    ghost may_leave = { λ m. IsImageOf (held m) };

    ghost moment = { moment };

    ghost left_since = { left_since };

    ghost faults = { faults };

    ghost counts_now = { λ m. now_counts (first m) m.calls.items };

    ghost only_now = { λ m. last_now (first m) m.calls.items };

    ghost reads_image = { λ m.
        reads_so (held m) (record { objects = m.objects.items; heads = m.heads.items }) m.is };

    ghost told = { λ m c image.
        (record { objects = m.objects.items; heads = m.heads.items }, refl) };

    ghost all_tell = { λ m n f is.
        (record { objects = n.objects.items; heads = n.heads.items }, refl) };

    fn length(&mut self, part: Part) -> Result<u64, DiskFailed>
        ensures told { IfOk result (λ n.
            ForSome (contents self.old) (λ f. n ≡ length (bytes_of part f))) }
        ensures same { contents self.new ≡ contents self.old }
        ensures moments { LeavesOnly moment left_since self.old self.new
            (IsImageOf (held self.old)) }
        ensures cause { HasCause (faults self.old) (faults self.new) result }
        ensures calls { FailsWithoutRoom (faults_of self.old) (faults_of self.new) result }
        ensures held { Changes (λ h. h) (λ h. h) result self.old self.new }
        ensures room { TakesRoom self.old self.new }
    {
        note(&mut self.calls, &mut self.faults, What::Look)?;
        Ok(part_of(&self.objects, &self.heads, part).len() as u64)
    }

    fn read(&mut self, part: Part, at: u64, buf: &mut [u8]) -> Result<(), DiskFailed>
        requires { ForSome (contents self.old) (λ f.
            at + length buf.old ≤ length (bytes_of part f)) }
        ensures told { OnOk result (ForSome (contents self.old) (λ f.
            buf.new ≡ take (length buf.old) (drop at (bytes_of part f)))) }
        ensures same { contents self.new ≡ contents self.old }
        ensures moments { LeavesOnly moment left_since self.old self.new
            (IsImageOf (held self.old)) }
        ensures cause { HasCause (faults self.old) (faults self.new) result }
        ensures calls { FailsWithoutRoom (faults_of self.old) (faults_of self.new) result }
        ensures held { Changes (λ h. h) (λ h. h) result self.old self.new }
        ensures room { TakesRoom self.old self.new }
    {
        note(&mut self.calls, &mut self.faults, What::Look)?;
        fill(part_of(&self.objects, &self.heads, part), at, buf);
        Ok(())
    }

    fn write_at(&mut self, part: Part, at: u64, bytes: &[u8]) -> Result<(), DiskFailed>
        requires within { ForSome (contents self.old) (λ f. at ≤ length (bytes_of part f)) }
        requires end { at + length bytes.now ≤ 2 ^ 63 - 1 }
        ensures written { OnOk result (Tells (OnPart part (Holds at bytes.now)) (contents self.old)
            (contents self.new)) }
        ensures torn { Tells (OnPart part (Torn at (length bytes.now))) (contents self.old)
            (contents self.new) }
        ensures moments { LeavesOnly moment left_since self.old self.new
            (After (OnPart part (Torn at (length bytes.now))) (IsImageOf (held self.old))) }
        ensures cause { HasCause (faults self.old) (faults self.new) result }
        ensures calls { FailsWithoutRoom (faults_of self.old) (faults_of self.new) result }
        ensures held { Changes (on_part part (written at bytes.now))
            (on_part part (half_written at bytes.now)) result self.old self.new }
    {
        let Ok(copy) = prepared(
            self.alloc,
            &mut self.objects,
            &mut self.heads,
            part,
            at,
            bytes,
        ) else {
            return no_room(&mut self.faults);
        };
        note(
            &mut self.calls,
            &mut self.faults,
            What::Write(part, at, copy),
        )?;
        put_in(&mut self.objects, &mut self.heads, part, at, bytes);
        Ok(())
    }

    fn sync(&mut self, part: Part) -> Result<(), DiskFailed>
        ensures durable { OnOk result
            (IsSure part (contents self.old) (IsImageOf (held self.new))) }
        ensures same { contents self.new ≡ contents self.old }
        ensures moments { LeavesOnly moment left_since self.old self.new
            (IsImageOf (held self.old)) }
        ensures cause { HasCause (faults self.old) (faults self.new) result }
        ensures calls { FailsWithoutRoom (faults_of self.old) (faults_of self.new) result }
        ensures held { Changes (on_part part synced) (λ h. h) result self.old self.new }
        ensures room { TakesRoom self.old self.new }
    {
        note(&mut self.calls, &mut self.faults, What::Sync(part))
    }
}
