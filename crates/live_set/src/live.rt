// The live set.
ghost use Rattle.std.specs.Prelude.{◌≡◌, ◌↔◌, ◌<◌, ◌++◌, ◌∷◌, [], drop, length, slice_get, IsTrue, IfOk, OnOk, OnErr};
ghost use Rattle.std.specs.List.{flat_map};
ghost use Rattle.std.specs.Option.{option_copied};
ghost use Rattle.shared_list.specs.Trees.{amounts};
ghost use Rattle.mrdt_model.specs.Spelled.{capped};
ghost use Rattle.mrdt_model.specs.Times.{is_earlier};
ghost use Rattle.live_set.specs.Effects.{has_any};
ghost use Rattle.live_set.specs.Entries.{kept_times, AllBefore, IsRising, MergesEntries};
ghost use Rattle.live_set.specs.Finding.{IsFound, LosesTime, ChangesAt};
ghost use Rattle.live_set.specs.Spelling.{kept_spelling};

use crate::kept::Kept;
use crate::payload::Payload;
use crate::spelled::kept_length;
use crate::walk::{Ahead, earlier, is_at};
use mrdt_model::{Memory, Time};
use shared_list::{Entry, Probe, SharedList, Walk};
use std::alloc::Global;
use std::marker::Model;

impl<V: Payload> Entry for Kept<V> {
    // the bytes of the spelling, and what the payload counts
    ghost weight_of = { λ k. capped (length (kept_spelling V.spelling k)) };

    ghost amount_of = { λ k. V.amount_of k.payload };

    fn copy(&self) -> Result<Kept<V>, Memory> {
        Ok(Kept {
            time: self.time,
            payload: self.payload.copy()?,
        })
    }

    fn weight(&self) -> u64 {
        kept_length(self)
    }

    fn amount(&self) -> i128 {
        self.payload.amount()
    }
}

// A time that is sought.
#[derive(Clone, Copy)]
struct Sought {
    time: Time,
}

impl<V: Payload> Probe<Kept<V>> for Sought {
    ghost precedes = { λ s k. is_earlier k.time s.time };

    fn precedes(&self, entry: &Kept<V>) -> bool {
        entry.time.is_before(self.time)
    }
}

/// Payloads by time, whose versions share their entries. Contracts see the entries, by rising time.
#[derive(Drop)]
pub struct Live<V: Payload> {
    alloc: Global,
    entries: SharedList<Kept<V>>,
}

impl<V: Payload> Model for Live<V> {
    ghost use Rattle.std.specs.Prelude.{List};
    ghost use Rattle.live_set.specs.declared.kept.Kept.{Kept};

    ghost Value = { List (Kept V) };

    ghost use Rattle.live_set.specs.Entries.{kept_times, IsRising};

    ghost view = { λ l. l.entries };

    ghost invariant = { λ l. IsRising (kept_times l.entries) };
}

impl<V: Payload> Live<V> {
    /// No payload. It takes no memory.
    pub fn new(alloc: Global) -> Live<V>
        ensures { result ≡ [] }
    {
        Live {
            alloc,
            entries: SharedList::new(alloc),
        }
    }

    /// Whether there is a payload. It takes no memory.
    #[tactic(auto, using(crate::proofs::Sharing::any_long))]
    pub fn any(&self) -> bool
        ensures { result ≡ has_any self.now }
    {
        self.entries.len() > 0
    }

    /// How many payloads there are.
    pub fn len(&self) -> u64
        ensures { result ≡ length self.now }
    {
        self.entries.len()
    }

    /// The sum of what the payloads count, with no wrapping.
    pub fn amount(&self) -> i128
        ensures { result ≡ amounts (λ k. V.amount_of k.payload) self.now }
    {
        self.entries.amount()
    }

    /// How many bytes the entries are spelled with, or 2^64 - 1 where there are more. It takes no memory.
    #[tactic(auto, using(crate::proofs::Sharing::capped_lengths))]
    pub fn entries_length(&self) -> u64
        ensures { result ≡ capped (length (flat_map (kept_spelling V.spelling) self.now)) }
    {
        self.entries.weight()
    }

    /// The entry at a place.
    pub fn entry_at(&self, place: u64) -> &Kept<V>
        requires { place < length self.now }
        ensures { slice_get self.now place ≡ Some result.now }
    {
        self.entries.get(place)
    }

    /// The first entry.
    pub fn first(&self) -> Option<&Kept<V>>
        ensures { option_copied result ≡ slice_get self.now 0 }
    {
        self.walk().first()
    }

    /// A walk over the entries, by rising time.
    pub fn walk(&self) -> Walk<'_, Kept<V>>
        ensures items { result ≡ self.now }
        ensures rising { IsRising (kept_times self.now) }
    {
        Walk::new(&self.entries, 0)
    }

    /// Whether all times are before this one. It takes no memory.
    pub fn ends_before(&self, time: Time) -> bool
        ensures { IsTrue result ↔ AllBefore (kept_times self.now) time }
    {
        let count = self.entries.len();
        count == 0 || self.entries.get(count - 1).time.is_before(time)
    }

    /// Puts a payload behind all others, at a time that is greater than theirs. After `Memory` nothing has
    /// changed.
    pub fn add(&mut self, time: Time, payload: V) -> Result<(), Memory>
        requires { AllBefore (kept_times self.old) time }
        ensures ok { OnOk result (self.new ≡ self.old ++ record {
          time = time;
          payload = payload;
        } ∷ []) }
        ensures err { OnErr result (self.new ≡ self.old) }
    {
        let entries = self.entries.push(Kept { time, payload })?;
        self.entries = entries;
        Ok(())
    }

    /// Drops all payloads. It takes no memory.
    pub fn drop_seen(&mut self)
        ensures { self.new ≡ [] }
    {
        self.entries = SharedList::new(self.alloc);
    }

    /// The same payloads at the same times. It takes no memory.
    pub fn copy(&self) -> Result<Live<V>, Memory>
        ensures { IfOk result (λ live. live ≡ self.now) }
    {
        Ok(Live {
            alloc: self.alloc,
            entries: self.entries.copy()?,
        })
    }

    /// The payloads without the first one.
    pub fn without_first(&self) -> Result<Live<V>, Memory>
        requires { 0 < length self.now }
        ensures { IfOk result (λ live. live ≡ drop 1 self.now) }
    {
        Ok(Live {
            alloc: self.alloc,
            entries: self.entries.remove(0)?,
        })
    }

    // How many entries are before a time, and whether the next one is at it.
    #[tactic(auto, using(crate::proofs::Finding::found_end, crate::proofs::Finding::found_last, crate::proofs::Finding::found_at, crate::proofs::Finding::partitioned))]
    fn find(&self, time: Time) -> (u64, bool)
        ensures { IsFound self.now time result.0 result.1 }
    {
        if self.ends_before(time) {
            return (self.entries.len(), false);
        }
        let place = self.entries.partition_point(&Sought { time });
        if place == self.entries.len() {
            return (place, false);
        }
        (place, is_at(time, self.entries.get(place).time))
    }

    /// The payloads with one more at a time, where there is none yet.
    pub fn with(&self, time: Time, payload: V) -> Result<Live<V>, Memory>
        ensures merges { IfOk result (MergesEntries [] self.now (record {
          time = time;
          payload = payload;
        } ∷ [])) }
        ensures rising { IfOk result (λ live. IsRising (kept_times live)) }
    {
        let (place, here) = self.find(time);
        if here {
            let _ahead = self.walk();
            return self.copy();
        }
        Ok(Live {
            alloc: self.alloc,
            entries: self.entries.insert(place, Kept { time, payload })?,
        })
    }

    // The payloads but for the one at a time, if there is one.
    fn without(&self, time: Time) -> Result<Live<V>, Memory>
        ensures { IfOk result (LosesTime time self.now) }
    {
        let (place, here) = self.find(time);
        if !here {
            return self.copy();
        }
        Ok(Live {
            alloc: self.alloc,
            entries: self.entries.remove(place)?,
        })
    }

    // Leaves at a time what stays there of what base, this and right have.
    #[tactic(auto, using(crate::proofs::Finding::change_put, crate::proofs::Finding::change_cut, crate::proofs::Finding::change_both, crate::proofs::Finding::change_neither))]
    fn change(&mut self, time: Time, base: Option<&V>, right: Option<&V>) -> Result<(), Memory>
        ensures { OnOk result (ChangesAt time (option_copied base.entry)
            (option_copied right.entry) self.old self.new) }
    {
        match (base, right) {
            (None, Some(payload)) => {
                *self = self.with(time, payload.copy()?)?;
            }
            (Some(_), None) => {
                *self = self.without(time)?;
            }
            (Some(_), Some(_)) | (None, None) => {}
        }
        Ok(())
    }

    // The entries, all ahead.
    fn ahead(&self) -> Ahead<'_, V>
        ensures items { result ≡ self.now }
        ensures rising { IsRising (kept_times self.now) }
    {
        Ahead::new(self.walk())
    }

    /// What all three have, and what a side has and the base has not, with the left's payload where both sides
    /// have one. It takes memory for what the right side has changed alone.
    pub fn merge(base: &Live<V>, left: &Live<V>, right: &Live<V>) -> Result<Live<V>, Memory>
        ensures merges { IfOk result (MergesEntries base.now left.now right.now) }
        ensures rising { IfOk result (λ live. IsRising (kept_times live)) }
    {
        let mut merged = left.copy()?;
        let mut base_ahead = base.ahead();
        let mut right_ahead = right.ahead();
        while let Some(time) = earlier(base_ahead.first_time(), right_ahead.first_time()) {
            let old = base_ahead.take_at(time);
            let new = right_ahead.take_at(time);
            merged.change(time, old, new)?;
        }
        let _ahead = merged.ahead();
        Ok(merged)
    }
}
