// Bytes put into a part in place.
ghost use Rattle.std.specs.Prelude.{◌≡◌, ◌+◌, ◌≤◌, length, IsOk, OnOk, OnErr, vec_capacity};
ghost use Rattle.branch_disk.specs.Disk.{bytes_of, OnPart, Holds, put};
ghost use Rattle.branch_disk.specs.History.{chosen};

use crate::Part;
use mrdt_model::Memory;

// Makes room for so many bytes at a place.
pub(crate) fn make_room(bytes: &mut Vec<u8>, at: u64, more: usize) -> Result<(), Memory>
    requires { at ≤ length bytes.old.items }
    ensures same { bytes.new.items ≡ bytes.old.items }
    ensures room { OnOk result (at + more ≤ vec_capacity bytes.new) }
{
    let behind = bytes.len() - at as usize;
    bytes.reserve(more.saturating_sub(behind))?;
    Ok(())
}

// Puts these bytes over what is at a place, and behind the end. A refusal changes nothing.
pub(crate) fn put_over(bytes: &mut Vec<u8>, at: u64, new: &[u8]) -> Result<(), Memory>
    ensures put { OnOk result (bytes.new.items ≡ put at new.now bytes.old.items) }
    ensures same { OnErr result (bytes.new.items ≡ bytes.old.items) }
    ensures room { at + length new.now ≤ vec_capacity bytes.old → IsOk result }
{
    let from = (at as usize).min(bytes.len());
    let over = new.len().min(bytes.len() - from);
    bytes.extend_from_slice(&new[over..])?;
    bytes[from..from + over].copy_from_slice(&new[..over]);
    Ok(())
}

// Makes room in a part.
pub(crate) fn make_room_in(
    objects: &mut Vec<u8>,
    heads: &mut Vec<u8>,
    part: Part,
    at: u64,
    more: usize,
) -> Result<(), Memory>
    requires { at
        ≤ length (bytes_of part (record { objects = objects.old.items; heads = heads.old.items })) }
    ensures objects { objects.new.items ≡ objects.old.items }
    ensures heads { heads.new.items ≡ heads.old.items }
    ensures room { OnOk result (at + more ≤ vec_capacity (chosen part objects.new heads.new)) }
{
    match part {
        Part::Objects => make_room(objects, at, more),
        Part::Heads => make_room(heads, at, more),
    }
}

// Puts bytes into a part that has room for them.
pub(crate) fn put_in(objects: &mut Vec<u8>, heads: &mut Vec<u8>, part: Part, at: u64, new: &[u8])
    requires { at + length new.now ≤ vec_capacity (chosen part objects.old heads.old) }
    ensures { OnPart part (Holds at new.now) (record {
      objects = objects.old.items;
      heads = heads.old.items;
    }) (record {
      objects = objects.new.items;
      heads = heads.new.items;
    }) }
{
    let done = match part {
        Part::Objects => put_over(objects, at, new),
        Part::Heads => put_over(heads, at, new),
    };
    match done {
        Ok(()) => {}
        Err(Memory) => unreachable!(),
    }
}
