// The moves of a history, with the times of the operations that it received.
ghost use Rattle.std.specs.Prelude.{◌≡◌, ◌<◌, ◌∷◌, ◌++◌, [], Some, None, length, IfSome, IfNone, OnOk};
ghost use Rattle.branch_history.specs.declared.moves.Move.TheVariants as Move;
ghost use Rattle.store_seen.specs.Times.{IsOwn, is_timed, received_at, count_of};

use branch_history::Move;
use indexmap::IndexMap;
use mrdt_model::{Listing, Memory};
use std::alloc::Global;
use std::marker::Model;

// Moves, and the times of the operations that they received, in one table: each with its commit. Contracts see a
// `MoveListView`: the moves, and for how many more of them, and of times, there is room.
#[derive(Drop)]
pub(crate) struct MoveList<O, R> {
    items: Vec<Move<O, R>>,
    times: IndexMap<(u64, u32), u32>,
}

impl<O, R> Model for MoveList<O, R> {
    ghost use Rattle.std.specs.Prelude.{◌≡◌, ◌-◌};
    ghost use Rattle.std.specs.Vec.{vec_len, vec_capacity};
    ghost use Rattle.indexmap.specs.IndexMap.{spare};
    ghost use Rattle.branch_history.specs.declared.moves.Move.{Move};
    ghost use Rattle.store_seen.specs.Times.{MoveListView, received_times};

    ghost Value = { MoveListView (Move O R) };

    ghost view = { λ m. record {
      items = m.items.items;
      room = vec_capacity m.items - vec_len m.items;
      times_room = spare m.times;
    } };

    ghost invariant = { λ m. m.times.entries ≡ received_times m.items.items };
}

impl<O, R> MoveList<O, R> {
    // No moves. It takes no memory.
    pub(crate) fn new(alloc: Global) -> MoveList<O, R>
        ensures { result.items ≡ [] }
    {
        MoveList {
            items: Vec::new(alloc),
            times: IndexMap::new(alloc),
        }
    }

    // How many moves there are.
    pub(crate) fn len(&self) -> u64
        ensures { result ≡ length self.now.items }
    {
        self.items.len() as u64
    }

    // The moves, in order, which are lent.
    pub(crate) fn as_slice(&self) -> &[Move<O, R>]
        ensures { result.now ≡ self.now.items }
    {
        self.items.as_slice()
    }

    // The moves, in order. It takes no memory.
    pub(crate) fn into_listing(self) -> Listing<Move<O, R>>
        ensures { result ≡ self.items }
    {
        Listing::from_vec(self.items)
    }

    // The commit of the operation that was received at this time; `None` exactly where none was.
    pub(crate) fn received_at(&self, clock: u64, origin: u32) -> Option<u32>
        ensures { result ≡ received_at self.now.items (clock, origin) }
    {
        Some(*self.times.get(&(clock, origin))?)
    }

    // Makes room for one move more.
    pub(crate) fn reserve(&mut self) -> Result<(), Memory>
        ensures items { self.new.items ≡ self.old.items }
        ensures room { OnOk result (0 < self.new.room) }
    {
        self.items.reserve(1)?;
        Ok(())
    }

    // Makes room for one move more, and for a time.
    pub(crate) fn reserve_received(&mut self) -> Result<(), Memory>
        ensures items { self.new.items ≡ self.old.items }
        ensures room { OnOk result (0 < self.new.room) }
        ensures times { OnOk result (0 < self.new.times_room) }
    {
        self.times.reserve(1)?;
        self.items.reserve(1)?;
        Ok(())
    }

    // Puts a move that receives nothing behind the others.
    pub(crate) fn push_reserved(&mut self, made: Move<O, R>)
        requires room { 0 < self.old.room }
        requires own { IsOwn made }
        ensures items { self.new.items ≡ self.old.items ++ made ∷ [] }
    {
        self.items.push_reserved(made);
    }

    // Puts a commit that was received behind the others. `number` is the number that it gets.
    pub(crate) fn push_received(
        &mut self,
        parents: Listing<u32>,
        origin: u32,
        clock: u64,
        act: Option<(O, R)>,
        number: u32,
    )
        requires room { 0 < self.old.room }
        requires times { 0 < self.old.times_room }
        requires number { number ≡ count_of self.old.items }
        requires new { IfSome act (λ made. received_at self.old.items (clock, origin) ≡ None) }
        ensures items { self.new.items
            ≡ self.old.items ++ Move.Received parents origin clock act ∷ [] }
    {
        if act.is_some() {
            match self.times.insert((clock, origin), number) {
                Ok(_) => {}
                Err(_) => unreachable!(),
            }
        }
        self.items.push_reserved(Move::Received {
            parents,
            origin,
            clock,
            act,
        });
    }

    // Takes the last move off, and no memory.
    pub(crate) fn pop(&mut self) -> Option<Move<O, R>>
        ensures items { IfSome result (λ made. self.old.items ≡ self.new.items ++ made ∷ []) }
        ensures none { IfNone result (self.old.items ≡ []) }
    {
        let made = self.items.pop()?;
        if is_timed(&made) {
            let _ = self.times.pop();
        }
        Some(made)
    }
}

// Whether a move receives an operation.
fn is_timed<O, R>(made: &Move<O, R>) -> bool
    ensures { result ≡ is_timed made.now }
{
    match made {
        Move::Received { act, .. } => act.is_some(),
        Move::Fork { .. }
        | Move::Operation { .. }
        | Move::Merge { .. }
        | Move::Join { .. }
        | Move::Forward { .. }
        | Move::Place { .. }
        | Move::Drop { .. } => false,
    }
}
