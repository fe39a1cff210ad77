// The image that a crash leaves of a part, from the calls.
ghost use Rattle.std.specs.Prelude.{◌≡◌, ◌≤◌, ℕ, List, length, IfOk, OnOk, true};
ghost use Rattle.branch_disk.specs.Image.{Held};
ghost use Rattle.branch_disk.specs.History.{both_at_rest, replay};
ghost use Rattle.branch_disk.specs.Fill.{kept_of, same_part, reads_after, filled_after, filled_of, during, makes_sure, IsLastSync, HasNoSync};

use crate::call::{Call, What};
use crate::patch::put_over;
use crate::{Fill, Part};
use mrdt_model::Memory;
use std::alloc::Global;

fn is_same(p: Part, q: Part) -> bool
    ensures { result ≡ same_part p q }
{
    match p {
        Part::Objects => match q {
            Part::Objects => true,
            Part::Heads => false,
        },
        Part::Heads => match q {
            Part::Objects => false,
            Part::Heads => true,
        },
    }
}

// Whether a call is a sync of this part that went through.
fn is_sync(call: &Call, part: Part) -> bool
    ensures { result ≡ makes_sure part call.now }
{
    match &call.what {
        What::Look => false,
        What::Write(_, _, _) => false,
        What::Sync(p) => !call.failed && is_same(*p, part),
    }
}

// How many calls there are up to the last sync of this part that went through.
fn last_sync(calls: &[Call], part: Part) -> usize
    ensures { IsLastSync part calls.now (length calls.now) result }
{
    let mut last = 0;
    for (i, call) in calls.iter().enumerate() {
        if is_sync(call, part) {
            last = i + 1;
        }
    }
    last
}

// What reads give of a part after one call more.
fn write_one(bytes: &mut Vec<u8>, call: &Call, part: Part) -> Result<(), Memory>
    ensures { OnOk result (bytes.new.items
        ≡ reads_after part call.now.what call.now.failed bytes.old.items) }
{
    match &call.what {
        What::Write(p, at, new) => {
            if call.failed || !is_same(*p, part) {
                return Ok(());
            }
            put_over(bytes, *at, new)
        }
        _ => Ok(()),
    }
}

// What reads give of a part after some calls more.
fn write_all(bytes: &mut Vec<u8>, calls: &[Call], part: Part) -> Result<(), Memory>
    ensures { OnOk result ((held : Held) → bytes.old.items ≡ (kept_of part held).reads
        → bytes.new.items ≡ (kept_of part (replay held calls.now)).reads) }
{
    for call in calls {
        write_one(bytes, call, part)?;
    }
    Ok(())
}

// An image of a part while one call more is under way.
fn fill_one_call(bytes: &mut Vec<u8>, what: &What, part: Part, fill: Fill) -> Result<(), Memory>
    ensures { OnOk result ((reads : List ℕ)
        → bytes.new.items ≡ filled_after fill part what.now true reads bytes.old.items) }
{
    let What::Write(p, at, new) = what else {
        return Ok(());
    };
    if !is_same(*p, part) {
        return Ok(());
    }
    match fill {
        Fill::Old => Ok(()),
        Fill::New => put_over(bytes, *at, new),
        Fill::Byte(b) => {
            let filler = vec![in *bytes.allocator(); b; new.len()]?;
            put_over(bytes, *at, &filler)
        }
    }
}

// An image of a part after some calls more, of which none makes it sure.
fn fill_all(bytes: &mut Vec<u8>, calls: &[Call], part: Part, fill: Fill) -> Result<(), Memory>
    requires { HasNoSync part calls.now }
    ensures { OnOk result ((held : Held) → bytes.old.items ≡ filled_of fill (kept_of part held)
        → bytes.new.items ≡ filled_of fill (kept_of part (replay held calls.now))) }
{
    for call in calls {
        fill_one_call(bytes, &call.what, part, fill)?;
    }
    Ok(())
}

// The image of a part that a crash leaves during the call after the first k. The bytes are those that the part had
// at first.
pub(crate) fn image_of_part(
    mut bytes: Vec<u8>,
    calls: &[Call],
    k: usize,
    part: Part,
    fill: Fill,
) -> Result<Vec<u8>, Memory>
    requires { k ≤ length calls.now }
    ensures { IfOk result (λ v. (objects heads : List ℕ)
        → bytes.items ≡ (kept_of part (both_at_rest objects heads)).reads
        → v.items ≡ filled_of fill
        (kept_of part (during (both_at_rest objects heads) calls.now k))) }
{
    let done = &calls[..k];
    let last = last_sync(done, part);
    write_all(&mut bytes, &done[..last], part)?;
    fill_all(&mut bytes, &done[last..], part, fill)?;
    if k < calls.len() {
        fill_one_call(&mut bytes, &calls[k].what, part, fill)?;
    }
    Ok(bytes)
}
