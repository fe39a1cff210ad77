// The spellings of what an operation or a merge makes.
ghost use Rattle.std.specs.Prelude.{◌≡◌, ◌+◌, length, IfOk};
ghost use Rattle.store_seen.specs.Keeps.{bytes_at, AreSpelled, IsSpelledValue};

use branch_names::Layout;
use mrdt_model::{Bytes, Memory, Mrdt};
use std::alloc::Global;
use std::marker::Model;

// How many bytes the spelling of a value has, and the spelling in the layout that keeps it.
#[derive(Drop)]
pub(crate) struct SpelledValue {
    pub(crate) size: u64,
    pub(crate) bytes: Option<Bytes>,
}

impl SpelledValue {
    // Spells a value in the layout that keeps values, and else counts the bytes alone. 2^64 - 1 bytes and more want
    // memory in either.
    pub(crate) fn new<T: Mrdt>(
        alloc: Global,
        layout: Layout,
        value: &T,
    ) -> Result<SpelledValue, Memory>
        ensures { IfOk result (IsSpelledValue T.meaning layout value.now) }
    {
        match layout {
            Layout::Whole => {
                let mut bytes = Vec::new(alloc);
                value.put(&mut bytes)?;
                Ok(SpelledValue {
                    size: bytes.len() as u64,
                    bytes: Some(Bytes::from_vec(bytes)),
                })
            }
            Layout::Changes => Ok(SpelledValue {
                size: size_of(value)?,
                bytes: None,
            }),
        }
    }

    // The spelling, where it is kept.
    pub(crate) fn bytes(&self) -> Option<&[u8]>
        ensures { bytes_at result ≡ self.now.bytes }
    {
        match &self.bytes {
            Some(bytes) => Some(bytes.as_slice()),
            None => None,
        }
    }
}

// How many bytes the spelling of a value has, which is not made.
fn size_of<T: Mrdt>(value: &T) -> Result<u64, Memory>
    ensures { IfOk result (λ size. size ≡ length (T.meaning.state_spelling value.now)) }
{
    let size = value.spelled_length();
    if size == u64::MAX {
        return Err(Memory);
    }
    Ok(size)
}

// The spelling of a value, as it is kept, and those of an operation and its reply, one behind the other. Contracts see a
// `SpelledView`: the length of the first, and the three of them.
#[derive(Drop)]
pub(crate) struct Spelled {
    value: SpelledValue,
    bytes: Vec<u8>,
    // where the reply's begins
    reply_at: usize,
}

impl Model for Spelled {
    ghost use Rattle.std.specs.Prelude.{◌≤◌, ◌<◌, ◌+◌, ◌^◌, take, drop, length};
    ghost use Rattle.store_seen.specs.Views.{SpelledView};

    ghost Value = { SpelledView };

    ghost view = { λ s. record {
      size = s.value.size;
      value = s.value.bytes;
      op = take s.reply_at s.bytes.items;
      reply = drop s.reply_at s.bytes.items;
    } };

    ghost invariant = { λ s. (s.reply_at ≤ length s.bytes.items)
        × (s.value.size + length s.bytes.items < 2 ^ 64) };
}

impl Spelled {
    // Spells the three, the value in the layout that keeps values.
    pub(crate) fn new<T: Mrdt>(
        alloc: Global,
        layout: Layout,
        value: &T,
        op: &T::Op,
        reply: &T::Reply,
    ) -> Result<Spelled, Memory>
        ensures { IfOk result (AreSpelled T.meaning layout value.now op.now reply.now) }
    {
        let value = SpelledValue::new::<T>(alloc, layout, value)?;
        let mut bytes = Vec::new(alloc);
        T::put_op(op, &mut bytes)?;
        let reply_at = bytes.len();
        T::put_reply(reply, &mut bytes)?;
        if value.size.checked_add(bytes.len() as u64).is_none() {
            return Err(Memory);
        }
        Ok(Spelled {
            value,
            bytes,
            reply_at,
        })
    }

    // How many bytes they have together.
    pub(crate) fn len(&self) -> u64
        ensures { result ≡ self.now.size + length self.now.op + length self.now.reply }
    {
        self.value.size + self.bytes.len() as u64
    }

    // How many bytes the value's spelling has.
    pub(crate) fn size(&self) -> u64
        ensures { result ≡ self.now.size }
    {
        self.value.size
    }

    // The value's spelling, where it is kept.
    pub(crate) fn value(&self) -> Option<&[u8]>
        ensures { bytes_at result ≡ self.now.value }
    {
        self.value.bytes()
    }

    // The operation's spelling.
    pub(crate) fn op(&self) -> &[u8]
        ensures { result.now ≡ self.now.op }
    {
        &self.bytes[..self.reply_at]
    }

    // The reply's spelling.
    pub(crate) fn reply(&self) -> &[u8]
        ensures { result.now ≡ self.now.reply }
    {
        &self.bytes[self.reply_at..]
    }
}
