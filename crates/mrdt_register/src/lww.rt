// The register that keeps the last write, and its laws.
ghost use Rattle.std.specs.Prelude.{◌≡◌, ◌↔◌, ◌∷◌, ◌++◌, Option, length, IsTrue, IfOk, OnOk, OnErr, IsErrOf, List, ℕ};
ghost use Rattle.mrdt_model.specs.Spelled.{AppendsPart, capped};
ghost use Rattle.branch_wire.specs.Fields.{time_field, field};
ghost use Rattle.live_set.specs.declared.kept.Kept.{Kept as SpecKept};
ghost use Rattle.mrdt_register.specs.Lww.{later, lww_spelling, IsLast};

use crate::op::RegisterOp;
use branch_wire::{Cursor, put_time};
use live_set::spelled::kept_length;
use live_set::{Kept, Payload, shared_text, unit_reply, whole_text};
use mrdt_model::{Bytes, Memory, Mrdt, Shared, Time, Unread};
use std::alloc::Global;
use std::marker::Model;

// The byte that tells whether a payload was written.
const UNWRITTEN: u8 = 0;

const WRITTEN: u8 = 1;

/// The payload that was written at the greatest time, with that time. Contracts see it, if there is one.
#[derive(Drop)]
pub struct Lww {
    alloc: Global,
    last: Option<Kept<Shared<Bytes>>>,
}

impl Model for Lww {
    ghost use Rattle.std.specs.Prelude.{Option, List, ℕ};
    ghost use Rattle.live_set.specs.declared.kept.Kept.{Kept};

    ghost Value = { Option (Kept (List ℕ)) };

    ghost view = { λ l. l.last };
}

/// A query of a register that keeps the last write.
#[derive(Clone, Copy, Debug, PartialEq, Eq)]
pub enum LwwQuery {
    /// The payload, if one was written.
    Get,
}

// The same payload and time.
fn copy_of(kept: &Option<Kept<Shared<Bytes>>>) -> Result<Option<Kept<Shared<Bytes>>>, Memory>
    ensures { IfOk result (λ same. same ≡ kept.now) }
{
    match kept {
        Some(kept) => Ok(Some(kept.copy()?)),
        None => Ok(None),
    }
}

// Whether two payloads and their times are the same, or there are none. Those that are spelled alike are.
fn are_same(left: &Option<Kept<Shared<Bytes>>>, right: &Option<Kept<Shared<Bytes>>>) -> bool
    ensures same { IsTrue result ↔ (left.now ≡ right.now) }
    ensures spelled { lww_spelling left.now ≡ lww_spelling right.now → left.now ≡ right.now }
{
    match (left, right) {
        (Some(mine), Some(theirs)) => mine.same(theirs),
        (None, None) => true,
        _ => false,
    }
}

// A copy of the one of the greater time; of two of one time, of the left one.
fn later_of(
    left: &Option<Kept<Shared<Bytes>>>,
    right: &Option<Kept<Shared<Bytes>>>,
) -> Result<Option<Kept<Shared<Bytes>>>, Memory>
    ensures { IfOk result (λ kept. kept ≡ later left.now right.now) }
{
    match (left, right) {
        (Some(mine), Some(other)) if mine.time.is_before(other.time) => copy_of(right),
        (None, _) => copy_of(right),
        _ => copy_of(left),
    }
}

// Writes a payload and its time.
fn put_last(last: &Option<Kept<Shared<Bytes>>>, out: &mut Vec<u8>) -> Result<(), Memory>
    ensures ok { OnOk result (out.new.items ≡ out.old.items ++ lww_spelling last.now) }
    ensures err { OnErr result (AppendsPart out.old.items out.new.items (lww_spelling last.now)) }
{
    match last {
        None => Ok(out.push(UNWRITTEN)?),
        Some(kept) => {
            out.push(WRITTEN)?;
            put_time(kept.time, out)?;
            kept.payload.put(out)
        }
    }
}

// How many bytes a payload and its time have, or 2^64 - 1 where they have more.
fn length_of(last: &Option<Kept<Shared<Bytes>>>) -> u64
    ensures { result ≡ capped (length (lww_spelling last.now)) }
{
    match last {
        None => 1,
        Some(kept) => kept_length(kept).saturating_add(1),
    }
}

// Reads a payload and its time that are the whole of the bytes.
fn get_last(alloc: Global, bytes: &[u8]) -> Result<Kept<Shared<Bytes>>, Unread>
    ensures spelled { IfOk result (λ kept. time_field kept.time ++ field kept.payload ≡ bytes.now) }
    ensures known { IfOk result IsLast }
    ensures equal { IfOk result (λ kept. (other : SpecKept (List ℕ)) → IsLast other
        → time_field other.time ++ field other.payload ≡ bytes.now → kept ≡ other) }
    ensures outside { IsErrOf result Unread.NotCanonical → (other : SpecKept (List ℕ))
        → IsLast other → time_field other.time ++ field other.payload ≡ bytes.now → ⊥ }
{
    let mut cursor = Cursor::new(bytes);
    let time = cursor.take_time()?;
    let text = cursor.take_bytes()?;
    if cursor.is_at_end() {
        let payload = shared_text(alloc, text)?;
        Ok(Kept { time, payload })
    } else {
        Err(Unread::NotCanonical)
    }
}

impl Mrdt for Lww {
    ghost use Rattle.mrdt_register.specs.Lww.{lww_meaning};
    ghost use Rattle.mrdt_register.specs.LwwLaws.{lww_laws};

    type Op = RegisterOp;

    type Query = LwwQuery;

    type Answer = Option<Bytes>;

    type Reply = ();

    ghost meaning = { lww_meaning };

    fn initial(alloc: Global) -> Lww {
        Lww { alloc, last: None }
    }

    fn copy(&self) -> Result<Lww, Memory> {
        Ok(Lww {
            alloc: self.alloc,
            last: copy_of(&self.last)?,
        })
    }

    fn same(&self, other: &Lww) -> bool {
        are_same(&self.last, &other.last)
    }

    fn apply(&self, op: &RegisterOp, time: Time) -> Result<(Lww, ()), Memory> {
        let payload = op.shared(self.alloc)?;
        let lww = Lww {
            alloc: self.alloc,
            last: Some(Kept { time, payload }),
        };
        Ok((lww, ()))
    }

    fn merge(_base: &Lww, left: &Lww, right: &Lww) -> Result<Lww, Memory> {
        Ok(Lww {
            alloc: left.alloc,
            last: later_of(&left.last, &right.last)?,
        })
    }

    fn answer(&self, query: &LwwQuery) -> Result<Option<Bytes>, Memory> {
        match query {
            LwwQuery::Get => match &self.last {
                Some(kept) => Ok(Some(kept.payload.get().copy()?)),
                None => Ok(None),
            },
        }
    }

    fn put(&self, out: &mut Vec<u8>) -> Result<(), Memory> {
        put_last(&self.last, out)
    }

    fn spelled_length(&self) -> u64 {
        length_of(&self.last)
    }

    fn get(alloc: Global, bytes: &[u8]) -> Result<Lww, Unread> {
        match bytes.split_first() {
            Some((&UNWRITTEN, [])) => Ok(Lww { alloc, last: None }),
            Some((&WRITTEN, rest)) => Ok(Lww {
                alloc,
                last: Some(get_last(alloc, rest)?),
            }),
            _ => Err(Unread::NotCanonical),
        }
    }

    fn put_op(op: &RegisterOp, out: &mut Vec<u8>) -> Result<(), Memory> {
        Ok(out.extend_from_slice(op.payload().as_slice())?)
    }

    fn get_op(alloc: Global, bytes: &[u8]) -> Result<RegisterOp, Unread> {
        Ok(RegisterOp::Set(whole_text(alloc, bytes)?))
    }

    fn put_reply(reply: &(), out: &mut Vec<u8>) -> Result<(), Memory> {
        unit_reply::put(reply, out)
    }

    fn get_reply(_alloc: Global, bytes: &[u8]) -> Result<(), Unread> {
        unit_reply::get(bytes)
    }

    ghost laws = { lww_laws };
}
