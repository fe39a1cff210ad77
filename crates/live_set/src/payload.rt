// What a live set holds at a time.
ghost use Rattle.std.specs.Prelude.{◌≡◌, ◌↔◌, ◌++◌, [], List, ℕ, ℤ, pos, length, IsTrue, IfOk, OnOk, OnErr, IsErrOf};
ghost use Rattle.mrdt_model.specs.Spelled.{AppendsPart, capped};
ghost use Rattle.branch_wire.specs.Fields.{field, signed_number};
ghost use Rattle.branch_wire.specs.Reading.{ReadsOneWay};
ghost use Rattle.live_set.specs.Payloads.{IsNothing, nothing_spelling, IsAmount, IsShortText, nothing_way, amount_way, text_way};

use branch_wire::{Cursor, put_bytes, put_i64};
use mrdt_model::{Bytes, Memory, Shared, Unread};
use std::alloc::Global;

/// What a live set holds at a time. A payload is copied, compared, and spelled in a way that shows where it ends.
pub trait Payload: Sized + Drop {
    // The payloads in range, and how each is spelled.
    ghost fits: { Self → Type 0 };

    ghost spelling: { Self → List ℕ };

    // What it counts in the sum of a live set.
    ghost amount_of: { Self → ℤ };

    /// An equal payload.
    fn copy(&self) -> Result<Self, Memory>
        ensures { IfOk result (λ payload. payload ≡ self.now) };

    /// Whether two payloads are equal. Those whose spellings stand at the front of the same bytes are. It takes no
    /// memory.
    fn same(&self, other: &Self) -> bool
        ensures same { IsTrue result ↔ (self.now ≡ other.now) }
        ensures spelled { (a b : List ℕ) → spelling self.now ++ a ≡ spelling other.now ++ b
            → self.now ≡ other.now };

    /// Writes the spelling at the end of `out`; after `Memory`, a first part of it.
    fn put(&self, out: &mut Vec<u8>) -> Result<(), Memory>
        ensures ok { OnOk result (out.new.items ≡ out.old.items ++ spelling self.now) }
        ensures err { OnErr result (AppendsPart out.old.items out.new.items (spelling self.now)) };

    /// How many bytes the spelling has, or 2^64 - 1 where it has more. It takes no memory.
    fn spelled_length(&self) -> u64
        ensures { result ≡ capped (length (spelling self.now)) };

    /// What it counts in the sum of a live set.
    fn amount(&self) -> i128
        ensures { result ≡ amount_of self.now };

    /// Takes a payload that is spelled at the front, and leaves all bytes where it refuses. `NotCanonical` comes
    /// exactly where none is spelled there.
    fn take(alloc: Global, cursor: &mut Cursor<'_>) -> Result<Self, Unread>
        ensures fits { IfOk result fits }
        ensures ok { IfOk result (λ payload. cursor.old ≡ spelling payload ++ cursor.new) }
        ensures err { OnErr result (cursor.new ≡ cursor.old) }
        ensures outside { IsErrOf result Unread.NotCanonical → (payload : Self) (rest : List ℕ)
            → fits payload → cursor.old ≡ spelling payload ++ rest → ⊥ };

    // What stands at the front is read in one way.
    ghost one_way: { ReadsOneWay fits spelling };
}

impl Payload for () {
    ghost fits = { IsNothing };

    ghost spelling = { nothing_spelling };

    ghost amount_of = { λ _. pos 0 };

    fn copy(&self) -> Result<(), Memory> {
        Ok(())
    }

    fn same(&self, _other: &()) -> bool {
        true
    }

    fn put(&self, _out: &mut Vec<u8>) -> Result<(), Memory> {
        Ok(())
    }

    fn spelled_length(&self) -> u64 {
        0
    }

    fn amount(&self) -> i128 {
        0
    }

    fn take(_alloc: Global, _cursor: &mut Cursor<'_>) -> Result<(), Unread> {
        Ok(())
    }

    ghost one_way = { nothing_way };
}

impl Payload for i64 {
    ghost fits = { IsAmount };

    ghost spelling = { signed_number };

    ghost amount_of = { λ n. n };

    fn copy(&self) -> Result<i64, Memory> {
        Ok(*self)
    }

    fn same(&self, other: &i64) -> bool {
        *self == *other
    }

    fn put(&self, out: &mut Vec<u8>) -> Result<(), Memory> {
        put_i64(*self, out)
    }

    fn spelled_length(&self) -> u64 {
        8
    }

    fn amount(&self) -> i128 {
        i128::from(*self)
    }

    fn take(_alloc: Global, cursor: &mut Cursor<'_>) -> Result<i64, Unread> {
        Ok(cursor.take_i64()?)
    }

    ghost one_way = { amount_way };
}

/// The text that is the whole of the bytes.
pub fn whole_text(alloc: Global, bytes: &[u8]) -> Result<Bytes, Memory>
    ensures text { IfOk result (λ text. text ≡ bytes.now) }
    ensures in_range { IsShortText bytes.now }
{
    let text = Bytes::from_slice(alloc, bytes)?;
    let _text = text.as_slice();
    Ok(text)
}

/// The text that is the whole of the bytes, shared.
pub fn shared_text(alloc: Global, bytes: &[u8]) -> Result<Shared<Bytes>, Memory>
    ensures text { IfOk result (λ text. text ≡ bytes.now) }
    ensures in_range { IsShortText bytes.now }
{
    Shared::new(alloc, whole_text(alloc, bytes)?)
}

// A text that is spelled at the front.
fn text_at_front(alloc: Global, cursor: &mut Cursor<'_>) -> Result<Shared<Bytes>, Unread>
    ensures fits { IfOk result IsShortText }
    ensures ok { IfOk result (λ text. cursor.old ≡ field text ++ cursor.new) }
    ensures outside { IsErrOf result Unread.NotCanonical → (text : List ℕ) (rest : List ℕ)
        → IsShortText text → cursor.old ≡ field text ++ rest → ⊥ }
{
    let bytes = cursor.take_bytes()?;
    Ok(shared_text(alloc, bytes)?)
}

impl Payload for Shared<Bytes> {
    ghost fits = { IsShortText };

    ghost spelling = { field };

    ghost amount_of = { λ _. pos 0 };

    fn copy(&self) -> Result<Shared<Bytes>, Memory> {
        Shared::copy(self)
    }

    fn same(&self, other: &Shared<Bytes>) -> bool {
        let mine = self.get().as_slice();
        let theirs = other.get().as_slice();
        mine == theirs
    }

    fn put(&self, out: &mut Vec<u8>) -> Result<(), Memory> {
        put_bytes(self.get().as_slice(), out)
    }

    fn spelled_length(&self) -> u64 {
        (self.get().as_slice().len() as u64).saturating_add(8)
    }

    fn amount(&self) -> i128 {
        0
    }

    fn take(alloc: Global, cursor: &mut Cursor<'_>) -> Result<Shared<Bytes>, Unread> {
        let whole = cursor.take_rest();
        let mut front = Cursor::new(whole);
        let taken = text_at_front(alloc, &mut front);
        if taken.is_err() {
            front = Cursor::new(whole);
        }
        *cursor = front;
        taken
    }

    ghost one_way = { text_way };
}
