// Live sets as bytes: a count, and that many times and payloads.
ghost use Rattle.std.specs.Prelude.{◌≡◌, ◌↔◌, ◌++◌, List, ℕ, length, IsTrue, IfOk, OnOk, OnErr, IsErrOf};
ghost use Rattle.std.specs.List.{flat_map};
ghost use Rattle.mrdt_model.specs.Spelled.{AppendsPart, capped};
ghost use Rattle.live_set.specs.declared.kept.Kept.{Kept as SpecKept};
ghost use Rattle.live_set.specs.Entries.{kept_times, AllBefore};
ghost use Rattle.live_set.specs.Spelling.{kept_spelling, live_spelling, KeptFits, AreLive, IsLiveSpelling};
ghost use Rattle.live_set.specs.Reading.{TakesKept};

use crate::kept::Kept;
use crate::live::Live;
use crate::payload::Payload;
use branch_wire::{Cursor, put_time, put_u64};
use mrdt_model::{Memory, Unread};
use std::alloc::Global;

// Writes a time, and its payload.
fn put_kept<V: Payload>(kept: &Kept<V>, out: &mut Vec<u8>) -> Result<(), Memory>
    ensures ok { OnOk result (out.new.items ≡ out.old.items ++ kept_spelling V.spelling kept.now) }
    ensures err { OnErr result
        (AppendsPart out.old.items out.new.items (kept_spelling V.spelling kept.now)) }
{
    put_time(kept.time, out)?;
    kept.payload.put(out)
}

/// How many bytes a time and its payload have, or 2^64 - 1 where they have more. It takes no memory.
pub fn kept_length<V: Payload>(kept: &Kept<V>) -> u64
    ensures { result ≡ capped (length (kept_spelling V.spelling kept.now)) }
{
    kept.payload.spelled_length().saturating_add(12)
}

// Whether as many entries are equal, each to the other at its place.
#[tactic(auto, using(crate::proofs::Sharing::alike_start, crate::proofs::Sharing::alike_more, crate::proofs::Sharing::alike_end, crate::proofs::Sharing::alike_apart, crate::proofs::Sharing::alike_short, crate::proofs::Sharing::walk_shorter))]
fn are_same<V: Payload>(entries: &Live<V>, others: &Live<V>) -> bool
    requires { length entries.now ≡ length others.now }
    ensures same { IsTrue result ↔ (entries.now ≡ others.now) }
    ensures spelled { flat_map (kept_spelling V.spelling) entries.now
        ≡ flat_map (kept_spelling V.spelling) others.now → entries.now ≡ others.now }
{
    let mut mine = entries.walk();
    let mut theirs = others.walk();
    while let Some(kept) = mine.first() {
        let Some(other) = theirs.first() else {
            return false;
        };
        if !kept.same(other) {
            return false;
        }
        mine.skip();
        theirs.skip();
    }
    true
}

// Takes an entry that is later than all others, and puts it behind them.
fn take_kept<V: Payload>(
    alloc: Global,
    cursor: &mut Cursor<'_>,
    live: &mut Live<V>,
) -> Result<(), Unread>
    ensures ok { OnOk result (TakesKept V.fits V.spelling cursor.old live.old cursor.new live.new) }
    ensures outside { IsErrOf result Unread.NotCanonical → (kept : SpecKept V) (rest : List ℕ)
        → KeptFits V.fits kept → AllBefore (kept_times live.old) kept.time
        → cursor.old ≡ kept_spelling V.spelling kept ++ rest → ⊥ }
{
    let time = cursor.take_time()?;
    let payload = V::take(alloc, cursor)?;
    if live.ends_before(time) {
        Ok(live.add(time, payload)?)
    } else {
        Err(Unread::NotCanonical)
    }
}

// Takes a live set that is spelled at the front.
fn live_at_front<V: Payload>(alloc: Global, cursor: &mut Cursor<'_>) -> Result<Live<V>, Unread>
    ensures known { IfOk result (AreLive V.fits) }
    ensures ok { IfOk result (λ live. cursor.old ≡ live_spelling V.spelling live ++ cursor.new) }
    ensures outside { IsErrOf result Unread.NotCanonical
        → (entries : List (SpecKept V)) (rest : List ℕ) → AreLive V.fits entries
        → cursor.old ≡ live_spelling V.spelling entries ++ rest → ⊥ }
{
    let count = cursor.take_u64()?;
    let mut live = Live::new(alloc);
    for _index in 0..count {
        take_kept(alloc, cursor, &mut live)?;
    }
    Ok(live)
}

impl<V: Payload> Live<V> {
    /// Whether the same payloads are at the same times. Live sets that are spelled alike are the same. It takes no
    /// memory.
    pub fn same(&self, other: &Live<V>) -> bool
        ensures same { IsTrue result ↔ (self.now ≡ other.now) }
        ensures spelled { live_spelling V.spelling self.now ≡ live_spelling V.spelling other.now
            → self.now ≡ other.now }
    {
        let mine = self.len();
        let theirs = other.len();
        mine == theirs && are_same(self, other)
    }

    /// Writes the count of the payloads, and the time and the spelling of each, by rising time, at the end of
    /// `out`; after `Memory`, a first part of that.
    #[tactic(auto, using(crate::proofs::Sharing::written_more, crate::proofs::Sharing::written_part, crate::proofs::Sharing::walk_shorter, crate::proofs::Sharing::first_not))]
    pub fn put(&self, out: &mut Vec<u8>) -> Result<(), Memory>
        ensures ok { OnOk result (out.new.items
            ≡ out.old.items ++ live_spelling V.spelling self.now) }
        ensures err { OnErr result (AppendsPart out.old.items out.new.items
            (live_spelling V.spelling self.now)) }
    {
        put_u64(self.len(), out)?;
        let mut ahead = self.walk();
        while let Some(kept) = ahead.first() {
            put_kept(kept, out)?;
            ahead.skip();
        }
        Ok(())
    }

    /// How many bytes the spelling has, or 2^64 - 1 where it has more. It takes no memory.
    pub fn spelled_length(&self) -> u64
        ensures { result ≡ capped (length (live_spelling V.spelling self.now)) }
    {
        self.entries_length().saturating_add(8)
    }

    /// Takes a live set that is spelled at the front, and leaves all bytes where it refuses. `NotCanonical` comes
    /// exactly where none is spelled there: times rise, and as many follow as the count says.
    pub fn take(alloc: Global, cursor: &mut Cursor<'_>) -> Result<Live<V>, Unread>
        ensures known { IfOk result (AreLive V.fits) }
        ensures ok { IfOk result (λ live.
            cursor.old ≡ live_spelling V.spelling live ++ cursor.new) }
        ensures err { OnErr result (cursor.new ≡ cursor.old) }
        ensures outside { IsErrOf result Unread.NotCanonical
            → (entries : List (SpecKept V)) (rest : List ℕ) → AreLive V.fits entries
            → cursor.old ≡ live_spelling V.spelling entries ++ rest → ⊥ }
    {
        let whole = cursor.take_rest();
        let mut front = Cursor::new(whole);
        let taken = live_at_front(alloc, &mut front);
        if taken.is_err() {
            front = Cursor::new(whole);
        }
        *cursor = front;
        taken
    }

    /// Reads a live set whose spelling is the whole of the bytes. `NotCanonical` comes exactly where they are
    /// none.
    pub fn get(alloc: Global, bytes: &[u8]) -> Result<Live<V>, Unread>
        ensures spelled { IfOk result (λ live. live_spelling V.spelling live ≡ bytes.now) }
        ensures known { IfOk result (AreLive V.fits) }
        ensures equal { IfOk result (λ live. (entries : List (SpecKept V)) → AreLive V.fits entries
            → live_spelling V.spelling entries ≡ bytes.now → live ≡ entries) }
        ensures inside { OnOk result (IsLiveSpelling V.fits V.spelling bytes.now) }
        ensures outside { IsErrOf result Unread.NotCanonical
            → ¬ IsLiveSpelling V.fits V.spelling bytes.now }
    {
        let mut cursor = Cursor::new(bytes);
        let live = Live::take(alloc, &mut cursor)?;
        if cursor.is_at_end() {
            Ok(live)
        } else {
            Err(Unread::NotCanonical)
        }
    }
}
