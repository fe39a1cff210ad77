// Disks in memory: what they hold, and what a stop leaves of them.
use crate::failure::Failure;
use branch_disk::{Disk, Fill, MemoryDisk, Part, read_whole, settle};
use std::alloc::Global;

// How many calls make a disk that holds some bytes: a write and a sync of each part.
const MADE: u64 = 4;

/// The bytes of both files of a store.
#[derive(Drop)]
pub struct Pair {
    pub objects: Vec<u8>,
    pub heads: Vec<u8>,
}

/// A disk that holds these bytes, of which the listed calls from now on fail.
pub(crate) fn disk_of(
    alloc: Global,
    objects: &[u8],
    heads: &[u8],
    failing: &[u64],
) -> Result<MemoryDisk, Failure> {
    let mut numbers = Vec::new(alloc);
    for call in failing {
        numbers.push(call.saturating_add(MADE))?;
    }
    let mut disk = MemoryDisk::new(numbers);
    let wrote = disk.write_at(Part::Objects, 0, objects).is_ok()
        && disk.write_at(Part::Heads, 0, heads).is_ok();
    if wrote && settle(&mut disk).is_ok() {
        Ok(disk)
    } else {
        Err(Failure::Memory)
    }
}

/// How many calls were made of a disk since it held the first bytes.
pub(crate) fn calls_of(disk: &MemoryDisk) -> u64 {
    disk.calls().saturating_sub(MADE)
}

/// The bytes that a disk holds. None of its next four calls is to fail.
pub(crate) fn pair_of(alloc: Global, disk: &mut MemoryDisk) -> Result<Pair, Failure> {
    let objects = read_whole(alloc, disk, Part::Objects);
    let heads = read_whole(alloc, disk, Part::Heads);
    match (objects, heads) {
        (Ok(objects), Ok(heads)) => Ok(Pair { objects, heads }),
        _ => Err(Failure::Memory),
    }
}

/// The disk that a stop leaves when so many of the calls are done and the next one has begun.
pub(crate) fn stopped(disk: &MemoryDisk, calls: u64, fill: Fill) -> Result<MemoryDisk, Failure> {
    match disk.image(calls.saturating_add(MADE), fill) {
        Ok(image) => Ok(image),
        Err(_) => Err(Failure::Memory),
    }
}
