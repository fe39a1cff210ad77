// Lists kept in chunks that longer and shorter lists share.
ghost use Rattle.std.specs.Prelude.{◌≡◌, ℕ, ◌+◌, ◌/◌, ◌-◌, ◌^◌, ◌<◌, ◌≤◌, [], ◌∷◌, ◌++◌, Some, length, map, take, slice_get, IfOk, IfSome, IfNone, OnOk, OnErr};
ghost use Rattle.std.specs.Option.{option_map, option_to_list};
ghost use Rattle.std.specs.Arc.{arc_value};
ghost use Rattle.shared_chunks.specs.Chunks.{entries_of};
ghost use Rattle.shared_chunks.specs.Keys.{HasKey};

use crate::chunk::{Chunk, Entry};
use counted_steps::Steps;
use mrdt_model::Memory;
use std::alloc::Global;
use std::marker::Model;
use std::sync::Arc;
use std::sync::ledger::Ledger;

// How many entries a full chunk has.
const CHUNK: usize = 1024;

/// A list of entries. Contracts see that list.
#[derive(Drop)]
pub struct Chunks<X: Entry> {
    // each has 1,024 entries, and none is written again
    full: Vec<Arc<Chunk<X>>>,
    // what comes behind these, and entries that are no longer of these or are of another that shares the chunk
    last: Option<Arc<Chunk<X>>>,
    // how many entries of the last chunk are of these
    rest: usize,
}

impl<X: Entry> Model for Chunks<X> {
    ghost use Rattle.std.specs.Prelude.{◌++◌, List, map, take};
    ghost use Rattle.std.specs.Option.{option_map};
    ghost use Rattle.std.specs.Arc.{arc_value};
    ghost use Rattle.shared_chunks.specs.Chunks.{joined, entries_of, IsChunked};

    ghost Value = { List X };

    ghost view = { λ c.
        joined (map arc_value c.full.items) ++ take c.rest
        (entries_of (option_map arc_value c.last)) };

    ghost invariant = { λ c.
        IsChunked (map arc_value c.full.items) (option_map arc_value c.last) c.rest };
}

impl<X: Entry> Chunks<X> {
    /// No entries. It takes no memory.
    pub fn new(alloc: Global) -> Chunks<X>
        ensures { result ≡ [] }
    {
        Chunks {
            full: Vec::new(alloc),
            last: None,
            rest: 0,
        }
    }

    /// The allocator that the entries lie in.
    pub fn alloc(&self) -> Global {
        *self.full.allocator()
    }

    /// How many entries there are.
    pub fn len(&self) -> u32
        requires { length self.now < 2 ^ 32 }
        ensures { result ≡ length self.now }
    {
        (self.full.len() * CHUNK + self.rest) as u32
    }

    /// The entry with this number.
    pub fn get(&self, number: usize) -> &X
        requires { number < length self.now }
        ensures { slice_get self.now number ≡ Some result.now }
    {
        let chunk = chunk_at(&self.full, &self.last, number / CHUNK);
        chunk.get(number % CHUNK)
    }

    /// The number of an entry with this key, if one has it from `from` on. The search begins with the chunk that
    /// `from` lies in, and may find one before `from` there.
    pub fn find(&self, key: (u32, u32), from: usize) -> Option<usize>
        requires { length self.now ≤ 2 ^ 64 }
        ensures there { IfSome result (λ n. n < length self.now) }
        ensures has { IfSome result (λ n. HasKey X.key_of self.now n key) }
        ensures none { IfNone result ((n : ℕ) → from ≤ n → ¬ HasKey X.key_of self.now n key) }
    {
        for number in from / CHUNK..self.full.len() {
            let chunk = chunk_at(&self.full, &self.last, number);
            if let Some(place) = chunk.find(key, CHUNK) {
                return Some(number * CHUNK + place);
            }
        }
        match find_last(&self.last, key, self.rest) {
            Some(place) => Some(self.full.len() * CHUNK + place),
            None => None,
        }
    }

    /// Puts an entry behind the others, in place where no other shares the last chunk.
    pub fn push(&mut self, entry: X) -> Result<(), Memory>
        ensures pushed { OnOk result (self.new ≡ self.old ++ entry ∷ []) }
        ensures kept { OnErr result (self.new ≡ self.old) }
    {
        self.full.reserve(1)?;
        let alloc = *self.full.allocator();
        add_entry(alloc, &mut self.last, self.rest, entry)?;
        self.rest += 1;
        if self.rest == CHUNK {
            if let Some(chunk) = self.last.take() {
                self.full.push_reserved(chunk);
            }
            self.rest = 0;
        }
        Ok(())
    }

    /// Takes the last entry off. Its chunk is not written.
    pub fn pop(&mut self)
        requires { 0 < length self.old }
        ensures { self.new ≡ take (length self.old - 1) self.old }
    {
        if self.rest == 0 {
            self.last = self.full.pop();
            self.rest = CHUNK - 1;
        } else {
            self.rest -= 1;
        }
    }

    /// The same entries, in the same chunks.
    pub fn copy<L: Ledger>(&self, steps: &mut Steps<L>) -> Result<Chunks<X>, Memory>
        ensures { IfOk result (λ chunks. chunks ≡ self.now) }
    {
        let full = shared(*self.full.allocator(), &self.full, steps)?;
        let last = match &self.last {
            Some(chunk) => Some(Arc::try_clone(chunk)?),
            None => None,
        };
        Ok(Chunks {
            full,
            last,
            rest: self.rest,
        })
    }

    /// These entries and one more, in the same full chunks. A step is one shared chunk, or one entry, that is copied
    /// or put.
    pub fn with<L: Ledger>(&self, entry: X, steps: &mut Steps<L>) -> Result<Chunks<X>, Memory>
        ensures longer { IfOk result (λ chunks. chunks ≡ self.now ++ entry ∷ []) }
        ensures steps { steps.new ≤ steps.old + (length self.now / 1024 + 1024) }
    {
        let mut longer = Chunks {
            full: shared(*self.full.allocator(), &self.full, steps)?,
            last: None,
            rest: 0,
        };
        longer.push_rest(&self.last, self.rest, steps)?;
        steps.tick();
        longer.push(entry)?;
        Ok(longer)
    }

    // Puts the first entries of a chunk that may be there behind the others. A step is one entry.
    fn push_rest<L: Ledger>(
        &mut self,
        last: &Option<Arc<Chunk<X>>>,
        count: usize,
        steps: &mut Steps<L>,
    ) -> Result<(), Memory>
        requires { count ≤ length (entries_of (option_map arc_value last.now)) }
        ensures pushed { OnOk result
            (self.new ≡ self.old ++ take count (entries_of (option_map arc_value last.now))) }
        ensures steps { steps.new ≤ steps.old + count }
    {
        if let Some(chunk) = last {
            self.push_first(chunk, count, steps)?;
        }
        Ok(())
    }

    // Puts the first entries of a chunk behind the others. A step is one entry.
    fn push_first<L: Ledger>(
        &mut self,
        chunk: &Chunk<X>,
        count: usize,
        steps: &mut Steps<L>,
    ) -> Result<(), Memory>
        requires { count ≤ length chunk.now }
        ensures pushed { OnOk result (self.new ≡ self.old ++ take count chunk.now) }
        ensures steps { steps.new ≤ steps.old + count }
    {
        for place in 0..count {
            steps.tick();
            self.push(chunk.get(place).copy()?)?;
        }
        Ok(())
    }
}

// The full chunk with this number, or the last one behind these.
fn chunk_at<'a, X: Entry>(
    full: &'a [Arc<Chunk<X>>],
    last: &'a Option<Arc<Chunk<X>>>,
    index: usize,
) -> &'a Chunk<X>
    requires { index
        < length (map arc_value full.now ++ option_to_list (option_map arc_value last.now)) }
    ensures { slice_get
        (map arc_value full.now ++ option_to_list (option_map arc_value last.now)) index
        ≡ Some result.now }
{
    if index < full.len() {
        return &full[index];
    }
    last.as_ref().unwrap()
}

// The place of an entry with this key among the first entries of a chunk that may be there, if one of these has it.
fn find_last<X: Entry>(last: &Option<Arc<Chunk<X>>>, key: (u32, u32), count: usize) -> Option<usize>
    requires { count ≤ length (entries_of (option_map arc_value last.now)) }
    ensures has { IfSome result (λ n.
        HasKey X.key_of (take count (entries_of (option_map arc_value last.now))) n key) }
    ensures none { IfNone result ((n : ℕ)
        → ¬ HasKey X.key_of (take count (entries_of (option_map arc_value last.now))) n key) }
{
    match last {
        Some(chunk) => chunk.find(key, count),
        None => None,
    }
}

// The same chunks. A step is one chunk.
fn shared<X: Entry, L: Ledger>(
    alloc: Global,
    chunks: &[Arc<Chunk<X>>],
    steps: &mut Steps<L>,
) -> Result<Vec<Arc<Chunk<X>>>, Memory>
    ensures same { IfOk result (λ copies. map arc_value copies.items ≡ map arc_value chunks.now) }
    ensures steps { steps.new ≤ steps.old + length chunks.now }
{
    let mut copies = Vec::new(alloc);
    for chunk in chunks {
        steps.tick();
        copies.push(Arc::try_clone(chunk)?)?;
    }
    Ok(copies)
}

// Makes a chunk that is cut behind so many entries end with one more.
fn add_entry<X: Entry>(
    alloc: Global,
    last: &mut Option<Arc<Chunk<X>>>,
    rest: usize,
    entry: X,
) -> Result<(), Memory>
    requires { rest ≤ length (entries_of (option_map arc_value last.old)) }
    ensures added { OnOk result (option_map arc_value last.new
        ≡ Some (take rest (entries_of (option_map arc_value last.old)) ++ entry ∷ [])) }
    ensures kept { OnErr result (take rest (entries_of (option_map arc_value last.new))
        ≡ take rest (entries_of (option_map arc_value last.old))) }
    ensures there { OnErr result (rest ≤ length (entries_of (option_map arc_value last.new))) }
{
    match last {
        Some(chunk) => Ok(add_to_shared(chunk, rest, entry)?),
        None => {
            *last = Some(chunk_of_one(alloc, entry)?);
            Ok(())
        }
    }
}

// The same for a chunk that another may share: then it is copied first.
fn add_to_shared<X: Entry>(chunk: &mut Arc<Chunk<X>>, rest: usize, entry: X) -> Result<(), Memory>
    requires { rest ≤ length (arc_value chunk.old) }
    ensures added { OnOk result (arc_value chunk.new
        ≡ take rest (arc_value chunk.old) ++ entry ∷ []) }
    ensures kept { OnErr result (take rest (arc_value chunk.new)
        ≡ take rest (arc_value chunk.old)) }
    ensures there { OnErr result (rest ≤ length (arc_value chunk.new)) }
{
    let own = Arc::make_mut(chunk)?;
    own.truncate(rest);
    own.push(entry)?;
    Ok(())
}

// A chunk of one entry.
fn chunk_of_one<X: Entry>(alloc: Global, entry: X) -> Result<Arc<Chunk<X>>, Memory>
    ensures { IfOk result (λ chunk. arc_value chunk ≡ entry ∷ []) }
{
    let mut chunk = Chunk::new(alloc);
    chunk.push(entry)?;
    Ok(Arc::new(alloc, chunk)?)
}
