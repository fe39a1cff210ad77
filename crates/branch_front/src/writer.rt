// The writer, which lies beside the history under one lock.
ghost use Rattle.std.specs.Prelude.{◌≡◌, ◌+◌, ◌<◌, ◌≤◌, ◌^◌, [], ◌∷◌, ◌++◌, length};
ghost use mathlib.Core.List.{IsPrefix};
ghost use Rattle.branch_front.specs.Lists.{RisesWithin, AreAllWithin, AreSomeWithin};
ghost use Rattle.branch_front.specs.Views.{IsIdle};

use crate::front::Front;
use crate::pass::{Pass, seat_of};
use crate::steps::At;
use crate::told::Told;
use std::marker::{Brand, Model};

/// The one that adds to the history, of which it has seen the whole. It lies beside the history, under the same lock.
/// Once the first pass is made it is idle between two calls: only within one does it hold what is a caller's.
pub struct Writer<M> {
    pub(crate) seat: At<M>,
}

impl<M> Model for Writer<M> {
    ghost use Rattle.std.specs.Prelude.{◌≡◌, true, []};
    ghost use Rattle.branch_front.specs.Views.{View, view_of};

    ghost Value = { View M };

    ghost view = { λ w. view_of w.seat.table_id w.seat.me.0 };

    ghost invariant = { λ w. (w.seat.me.1 ≡ []) × (w.seat.me.0.writes ≡ true) };
}

impl<M> Writer<M> {
    /// The first pass, which takes over all that the writer holds.
    pub fn first(&mut self, front: &Front<M>) -> Pass<M>
        requires table { self.old.table ≡ front.now.table }
        requires none { self.old.receipts ≡ 0 }
        ensures pass { result ≡ self.old }
        ensures writer { self.new ≡ record self.old {
          mine = [];
          others = [];
          parts = 0;
          receipts = 0;
        } }
    {
        let seat = front.give_over(&mut self.seat);
        Pass {
            badge: seat.into_badge(),
            receipts: 0,
        }
    }

    /// The pass sees the whole history, and as many faults of the disk as are told. Answers the length of the history.
    pub fn look<E: Told<M>>(&mut self, front: &Front<M>, pass: &mut Pass<M>) -> u64
        requires tables { (self.old.table ≡ front.now.table) × (pass.old.table ≡ front.now.table) }
        requires idle { IsIdle self.old }
        requires rise { self.old.faults ≤ E.faults }
        ensures length { result ≡ front.now.begun + length self.old.moves }
        ensures writer { self.new ≡ record self.old { faults = E.faults } }
        ensures pass { pass.new ≡ record pass.old { moves = self.old.moves; faults = E.faults } }

        // What the pass had seen is a beginning of it.
        ensures seen { IsPrefix pass.old.moves self.old.moves }
        ensures faults { pass.old.faults ≤ self.old.faults }
        ensures mine { RisesWithin front.now.begun pass.new.mine result }

        // It claims entries that came, each once.
        ensures claims { AreSomeWithin front.now.begun (pass.new.mine ++ pass.new.others) result }
    {
        let length = front.take_in::<E>(&mut self.seat, seat_of(&mut pass.badge));
        pass.badge = front.give_over(&mut self.seat).into_badge();
        length
    }

    /// Adds the entry that is told, by one `fetch_add` of 1, for the pass, which then has seen the whole history.
    /// Answers the new length, at which the entry landed.
    pub fn add<E: Told<M>>(&mut self, front: &Front<M>, pass: &mut Pass<M>) -> u64
        requires tables { (self.old.table ≡ front.now.table) × (pass.old.table ≡ front.now.table) }
        requires idle { IsIdle self.old }
        requires part { 0 < pass.old.parts }
        requires entry { length E.entry ≡ 1 }
        requires rise { self.old.faults ≤ E.faults }
        requires room { front.now.begun + length self.old.moves + 1 < 2 ^ 64 }
        ensures length { result ≡ front.now.begun + length self.new.moves }
        ensures writer { self.new ≡ record self.old {
          moves = self.old.moves ++ E.entry;
          faults = E.faults;
        } }
        ensures pass { pass.new ≡ record pass.old {
          moves = self.new.moves;
          mine = pass.old.mine ++ result ∷ [];
          faults = E.faults;
          receipts = pass.old.receipts + 1;
        } }

        // What the pass had seen is a beginning of what stands before the entry.
        ensures seen { IsPrefix pass.old.moves self.old.moves }
        ensures faults { pass.old.faults ≤ self.old.faults }
        ensures mine { RisesWithin front.now.begun pass.new.mine result }

        // It claims entries that came, each once.
        ensures claims { AreSomeWithin front.now.begun (pass.new.mine ++ pass.new.others) result }
    {
        front.take_in::<E>(&mut self.seat, seat_of(&mut pass.badge));
        let length = front.add::<E>(&mut self.seat) + 1;
        pass.badge = front.give_over(&mut self.seat).into_badge();
        pass.receipts += 1;
        length
    }

    /// The disk's faults have risen to those told, while no pass is at hand.
    pub fn note_faults<E: Told<M>>(&mut self, front: &Front<M>)
        requires table { self.old.table ≡ front.now.table }
        requires rise { self.old.faults ≤ E.faults }
        ensures { self.new ≡ record self.old { faults = E.faults } }
    {
        front.look::<E>(&mut self.seat);
    }

    /// The last pass ends, and the writer with it. Answers the pass's receipts, one for each entry that it claims. Where it
    /// holds all parts, it claims each entry that came since the front was made, once.
    pub fn close(self, front: &Front<M>, last: Pass<M>) -> u64
        requires tables { (self.table ≡ front.now.table) × (last.table ≡ front.now.table) }
        requires idle { IsIdle self }
        ensures receipts { result ≡ last.receipts }
        ensures counted { result ≡ length (last.mine ++ last.others) }
        ensures all { last.parts ≡ front.now.parts → result ≡ length self.moves }
        ensures every { last.parts ≡ front.now.parts
            → AreAllWithin front.now.begun (last.mine ++ last.others)
            (front.now.begun + length self.moves) }

        // What the pass had seen is a beginning of the history.
        ensures seen { IsPrefix last.moves self.moves }
        ensures faults { last.faults ≤ self.faults }
        ensures mine { RisesWithin front.now.begun last.mine (front.now.begun + length self.moves) }

        // It claims entries that came, each once.
        ensures claims { AreSomeWithin front.now.begun (last.mine ++ last.others)
            (front.now.begun + length self.moves) }
    {
        let Writer { mut seat } = self;
        let receipts = last.receipts();
        front.take_in::<Brand>(&mut seat, last.into_seat());
        receipts
    }
}

impl<M> Drop for Writer<M> {
    fn drop(self) {
        let Writer { seat: _ } = self;
    }
}
