// Where a key stands among slots whose keys rise.
ghost use Rattle.std.specs.Prelude.{◌≡◌, ◌++◌, ◌∷◌, ◌↔◌, [], List, ℕ, map, IsTrue, OnOk};
ghost use Rattle.std.specs.Option.{option_copied};
ghost use Rattle.keyed_slots.specs.Slots.{IsAbove, AreRising, IsPlaceOf, IsFound, is_before};

use mrdt_model::Memory;
use shared_list::{Entry, Probe, SharedList};
use std::cmp::Ordering;

/// What stands at a key in a list that versions share.
pub trait Keyed: Entry {
    ghost key_of: { Self → List ℕ };

    /// The key.
    fn key_bytes(&self) -> &[u8]
        ensures { result.now ≡ key_of self.now };
}

// What is sought: the first slot whose key is this one or stands behind it.
#[derive(Drop)]
struct Sought<'a> {
    key: &'a [u8],
}

impl<S: Keyed> Probe<S> for Sought<'_> {
    ghost precedes = { λ p s. is_before S.key_of p.key.now s };

    #[tactic(auto, using(crate::proofs::Places::index_lt))]
    fn precedes(&self, slot: &S) -> bool {
        slot.key_bytes().cmp(&self.key) == Ordering::Less
    }
}

/// Where a key stands, or is to stand.
pub fn place_of<S: Keyed>(slots: &SharedList<S>, key: &[u8]) -> u64
    requires { AreRising S.key_of slots.now }
    ensures { IsPlaceOf S.key_of key.now slots.now result }
{
    slots.partition_point(&Sought { key })
}

/// The slot at the place of a key, where it has that key.
pub fn slot_at<'a, S: Keyed>(slots: &'a SharedList<S>, place: u64, key: &[u8]) -> Option<&'a S>
    requires rising { AreRising S.key_of slots.now }
    requires place { IsPlaceOf S.key_of key.now slots.now place }
    ensures { IsFound S.key_of key.now slots.now place (option_copied result) }
{
    if place >= slots.len() {
        return None;
    }
    let slot = slots.get(place);
    let same = slot.key_bytes() == key;
    if same { Some(slot) } else { None }
}

/// Whether the key is above the keys of all slots, whose keys rise.
pub fn is_above<S: Keyed>(key: &[u8], slots: &[S]) -> bool
    requires { AreRising S.key_of slots.now }
    ensures { IsTrue result ↔ IsAbove key.now (map S.key_of slots.now) }
{
    match slots.last() {
        None => true,
        Some(last) => last.key_bytes().cmp(&key) == Ordering::Less,
    }
}

/// Puts a slot behind all others.
pub fn put_behind<S: Drop>(slots: &mut Vec<S>, slot: S) -> Result<(), Memory>
    ensures { OnOk result (slots.new.items ≡ slots.old.items ++ slot ∷ []) }
{
    slots.push(slot)?;
    Ok(())
}
