// A few entries, found by their places or their keys, and what an entry offers.
ghost use Rattle.std.specs.Prelude.{◌≡◌, ℕ, ◌<◌, ◌≤◌, ◌↔◌, [], ◌∷◌, ◌++◌, Some, length, take, slice_get, IfOk, IfSome, IfNone, IsTrue, OnOk, OnErr};
ghost use Rattle.std.specs.declared.option.Option.{Option};
ghost use Rattle.shared_chunks.specs.Keys.{HasKey, IsIndex};

use mrdt_model::Memory;
use std::alloc::{AllocError, Global};
use std::collections::BTreeMap;
use std::marker::Model;

/// What stands in a list of chunks.
pub trait Entry: Sized + Drop {
    // The key of an entry, if it has one.
    ghost key_of: { Self → Option (ℕ × ℕ) };

    /// An equal entry.
    fn copy(&self) -> Result<Self, Memory>
        ensures { IfOk result (λ entry. entry ≡ self.now) };

    /// The pair of numbers that the entry can be found by, if it has one.
    fn key(&self) -> Option<(u32, u32)>
        ensures { result ≡ key_of self.now };
}

/// Some entries. Contracts see their list.
#[derive(Drop)]
pub(crate) struct Chunk<X: Entry> {
    entries: Vec<X>,
    // by key, the place of an entry that had it when it was put: so it is looked at before it is told
    index: BTreeMap<(u32, u32), usize>,
}

impl<X: Entry> Model for Chunk<X> {
    ghost use Rattle.std.specs.Prelude.{List};
    ghost use Rattle.shared_chunks.specs.Keys.{IsIndex};

    ghost Value = { List X };

    ghost view = { λ c. c.entries.items };

    ghost invariant = { λ c. IsIndex X.key_of c.entries.items c.index };
}

impl<X: Entry> Chunk<X> {
    // No entries. It takes no memory.
    pub(crate) fn new(alloc: Global) -> Chunk<X>
        ensures { result ≡ [] }
    {
        Chunk {
            entries: Vec::new(alloc),
            index: BTreeMap::new(alloc),
        }
    }

    // The entry at a place.
    pub(crate) fn get(&self, place: usize) -> &X
        requires { place < length self.now }
        ensures { slice_get self.now place ≡ Some result.now }
    {
        &self.entries[place]
    }

    // The place of an entry with this key among so many of the first ones, if one of these has it.
    pub(crate) fn find(&self, key: (u32, u32), count: usize) -> Option<usize>
        requires { count ≤ length self.now }
        ensures has { IfSome result (λ n. HasKey X.key_of (take count self.now) n key) }
        ensures none { IfNone result ((n : ℕ) → ¬ HasKey X.key_of (take count self.now) n key) }
    {
        find_place(&self.index, &self.entries[..count], key)
    }

    // Puts an entry behind the others.
    pub(crate) fn push(&mut self, entry: X) -> Result<(), Memory>
        ensures pushed { OnOk result (self.new ≡ self.old ++ entry ∷ []) }
        ensures kept { OnErr result (self.new ≡ self.old) }
    {
        self.entries.reserve(1)?;
        index_next(&mut self.index, &self.entries, &entry)?;
        self.entries.push_reserved(entry);
        Ok(())
    }

    // Keeps so many entries of the first ones.
    pub(crate) fn truncate(&mut self, count: usize)
        requires { count ≤ length self.old }
        ensures { self.new ≡ take count self.old }
    {
        self.entries.truncate(count);
    }
}

impl<X: Entry> Clone for Chunk<X> {
    ghost is_clone = { λ chunk copy. copy ≡ chunk };

    fn clone(&self) -> Result<Chunk<X>, AllocError> {
        match copied(*self.entries.allocator(), &self.entries) {
            Ok(chunk) => Ok(chunk),
            Err(Memory) => Err(AllocError),
        }
    }
}

// A chunk of equal entries.
fn copied<X: Entry>(alloc: Global, entries: &[X]) -> Result<Chunk<X>, Memory>
    ensures { IfOk result (λ chunk. chunk ≡ entries.now) }
{
    let mut chunk = Chunk::new(alloc);
    for entry in entries {
        chunk.push(entry.copy()?)?;
    }
    Ok(chunk)
}

// Puts the next entry into an index, if it has a key that no other entry has.
fn index_next<X: Entry>(
    index: &mut BTreeMap<(u32, u32), usize>,
    entries: &[X],
    next: &X,
) -> Result<(), Memory>
    requires { IsIndex X.key_of entries.now index.old }
    ensures kept { IsIndex X.key_of entries.now index.new }
    ensures next { OnOk result (IsIndex X.key_of (entries.now ++ next.now ∷ []) index.new) }
{
    match next.key() {
        Some(key) => index_key(index, entries, key),
        None => Ok(()),
    }
}

// Puts the next entry into an index by its key, unless another entry has this key.
fn index_key<X: Entry>(
    index: &mut BTreeMap<(u32, u32), usize>,
    entries: &[X],
    key: (u32, u32),
) -> Result<(), Memory>
    requires { IsIndex X.key_of entries.now index.old }
    ensures kept { IsIndex X.key_of entries.now index.new }
    ensures next { OnOk result ((next : X) → X.key_of next ≡ Some key
        → IsIndex X.key_of (entries.now ++ next ∷ []) index.new) }
{
    if find_place(index, entries, key).is_some() {
        return Ok(());
    }
    match index.insert(key, entries.len()) {
        Ok(_) => Ok(()),
        Err(_) => Err(Memory),
    }
}

// The place of an entry with this key, if one has it.
fn find_place<X: Entry>(
    index: &BTreeMap<(u32, u32), usize>,
    entries: &[X],
    key: (u32, u32),
) -> Option<usize>
    requires { IsIndex X.key_of entries.now index.now }
    ensures has { IfSome result (λ n. HasKey X.key_of entries.now n key) }
    ensures none { IfNone result ((n : ℕ) → ¬ HasKey X.key_of entries.now n key) }
{
    match index.get(&key).copied() {
        Some(place) => {
            if has_key(entries, place, key) {
                Some(place)
            } else {
                None
            }
        }
        None => None,
    }
}

// Whether an entry stands at a place and has this key.
fn has_key<X: Entry>(entries: &[X], place: usize, key: (u32, u32)) -> bool
    ensures { IsTrue result ↔ HasKey X.key_of entries.now place key }
{
    match entries.get(place) {
        Some(entry) => entry.key() == Some(key),
        None => false,
    }
}
