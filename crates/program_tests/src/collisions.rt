// Objects that collide: their addresses are their lengths.
use crate::runs::says;
use branch_address::WeakAddress;
use branch_disk::{Disk, MemoryDisk, Part, read_whole};
use branch_shell::Status;
use std::alloc::Global;
use std::process::Abort;
use std::test::Fail;

const READY: (Status, &[u8]) = (Status::Done, b"ready\n");

// The bytes of a part.
fn bytes_of(rt: &impl Abort, alloc: Global, disk: &mut MemoryDisk, part: Part) -> Vec<u8> {
    read_whole(alloc, disk, part).expect(rt, "the bytes of a part")
}

// The bytes between two places.
fn between(bytes: &[u8], start: usize, end: usize) -> &[u8] {
    if start <= end && end <= bytes.len() {
        &bytes[start..end]
    } else {
        &[]
    }
}

// Sets the byte at a place.
fn set(bytes: &mut [u8], place: usize, new: u8) {
    if place < bytes.len() {
        bytes[place] = new;
    }
}

// What a second `add 1` would append to the objects of the first: the value with one entry more, at the time 2.0, and a
// commit on top of the first.
fn second_region(alloc: Global, first: &[u8]) -> Result<Vec<u8>, Fail> {
    let mut region = between(first, 0, 70).to_vec(alloc)?;
    for (place, byte) in [(8, 0xa9), (16, 0x49), (41, 0x30), (49, 2)] {
        set(&mut region, place, byte);
    }
    region.extend_from_slice(&[0, 0, 0, 0, 0, 0, 0, 2, 0, 0, 0, 0, 0, 0, 0, 0, 0, 0, 0, 1])?;
    region.extend_from_slice(between(first, 70, 287))?;
    for (place, byte) in [(226, 0x81), (238, 2), (270, 0xb2)] {
        set(&mut region, place, byte);
    }
    Ok(region)
}

// The record of such a move, behind that of the first.
fn second_record(alloc: Global, first: &[u8]) -> Result<Vec<u8>, Fail> {
    let mut record = first.to_vec(alloc)?;
    set(&mut record, 16, 3);
    set(&mut record, 17, 0x11);
    record.push(0)?;
    Ok(record)
}

// The commits of all additions to one counter are as long as each other, so that the store keeps its one move. Then a
// second addition is forged behind the first one: its commit has the first one's address.
#[test]
fn colliding_objects_are_refused(rt: HostRuntime) -> Result<(), Fail> {
    let alloc = rt.alloc();
    let input = b"look a main\ndo a counter c add 1\ndo a counter c add 1\ndo a counter c add 0\n";
    let output: &[u8] =
        b"a sees main at #0\nlanded #1 at 1.0\nerror collision 0000000000000000000000000000000000000000000000000000000000000081\nerror collision 0000000000000000000000000000000000000000000000000000000000000081\n";
    let disk = MemoryDisk::new(Vec::new(alloc));
    let disk = says::<WeakAddress>(&rt, alloc, "init", b"", disk, READY)?;
    let wanted: (Status, &[u8]) = (Status::Done, output);
    let mut disk = says::<WeakAddress>(&rt, alloc, "script", input, disk, wanted)?;
    let mut objects = bytes_of(&rt, alloc, &mut disk, Part::Objects);
    let mut heads = bytes_of(&rt, alloc, &mut disk, Part::Heads);
    assert_eq!(rt; (objects.len(), heads.len()), (478, 129));
    let region = second_region(alloc, between(&objects, 191, 478))?;
    let record = second_record(alloc, between(&heads, 64, 128))?;
    objects.extend_from_slice(&region)?;
    heads.truncate(128);
    heads.extend_from_slice(&record)?;
    let mut disk = MemoryDisk::new(Vec::new(alloc));
    assert!(rt; disk.write_at(Part::Objects, 0, &objects).is_ok());
    assert!(rt; disk.write_at(Part::Heads, 0, &heads).is_ok());
    let wanted: (Status, &[u8]) = (Status::StoreRefused, b"refused commit 2\n");
    let _disk = says::<WeakAddress>(&rt, alloc, "check", b"", disk, wanted)?;
    Ok(())
}
