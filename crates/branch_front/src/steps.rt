// The four kinds of atomic step at a front's word: the writer's adding of 1, a load, a split, and a join with the load that follows it.
ghost use Rattle.std.specs.Prelude.{◌≡◌, ◌+◌, ◌<◌, ◌≤◌, ◌^◌, ◌++◌, length, true, false};
ghost use Rattle.std.specs.List.{AllByRecursion};
ghost use mathlib.Core.List.{IsPrefix};
ghost use Rattle.branch_front.specs.SeatViews.{idle_writer, taken_over, less_parts, newcomer, with_caller, together, adopted};
ghost use Rattle.branch_front.specs.Lists.{AreApart, AreDistinct};
ghost use Rattle.branch_front.specs.Rules.{Added, WriterLooked};
ghost use Rattle.branch_front.specs.Views.{IsAt};

use crate::front::Front;
use crate::rule::{
    Adds, CallerLooks, IntoCaller, IntoOwner, IntoWriter, OffCaller, OffWriter, WriterLooks,
};
use crate::seat_view::SeatView;
use crate::told::{Keyed, Numbered, Told};
use atomic_table::Seat;
use std::marker::Brand;

/// What a thread steps with.
pub(crate) type At<M> = Seat<(), SeatView<M>>;

impl<M> Front<M> {
    /// The writer adds the entry, for the caller whose view it holds. Answers the length before.
    pub(crate) fn add<E: Told<M>>(&self, seat: &mut At<M>) -> u64
        requires seat { IsAt self.now.table seat.old }
        requires writer { (seat.old.me.0.writes ≡ true) × (0 < seat.old.me.0.parts) }
        requires entry { length E.entry ≡ 1 }
        requires room { self.now.begun + length seat.old.me.0.moves + 1 < 2 ^ 64 }
        ensures seat { IsAt self.now.table seat.new }
        ensures added { Added E.entry self.now.begun seat.old.me.0 result seat.new.me.0 }
    {
        self.add_as::<E, Brand>(seat)
    }

    fn add_as<E: Told<M>, K: Keyed>(&self, seat: &mut At<M>) -> u64
        requires key { K.begun ≡ self.now.begun }
        requires seat { IsAt self.now.table seat.old }
        requires writer { (seat.old.me.0.writes ≡ true) × (0 < seat.old.me.0.parts) }
        requires entry { length E.entry ≡ 1 }
        requires room { self.now.begun + length seat.old.me.0.moves + 1 < 2 ^ 64 }
        ensures seat { IsAt self.now.table seat.new }
        ensures added { Added E.entry self.now.begun seat.old.me.0 result seat.new.me.0 }
    {
        self.table.shared.fetch_add::<Adds<E, K>>(seat, 0, 1)
    }

    /// The writer looks, and its faults become those told. Answers the length.
    pub(crate) fn look<E: Told<M>>(&self, seat: &mut At<M>) -> u64
        requires seat { IsAt self.now.table seat.old }
        requires writer { seat.old.me.0.writes ≡ true }
        requires rise { seat.old.me.0.faults ≤ E.faults }
        ensures seat { IsAt self.now.table seat.new }
        ensures looked { WriterLooked self.now.begun self.now.parts E.faults seat.old.me.0 result
            seat.new.me.0 }
    {
        self.look_as::<E, Brand>(seat)
    }

    fn look_as<E: Told<M>, K: Keyed>(&self, seat: &mut At<M>) -> u64
        requires key { (K.begun ≡ self.now.begun) × (K.parts ≡ self.now.parts) }
        requires seat { IsAt self.now.table seat.old }
        requires writer { seat.old.me.0.writes ≡ true }
        requires rise { seat.old.me.0.faults ≤ E.faults }
        ensures seat { IsAt self.now.table seat.new }
        ensures looked { WriterLooked self.now.begun self.now.parts E.faults seat.old.me.0 result
            seat.new.me.0 }
    {
        self.table.shared.load::<WriterLooks<E, K>>(seat, 0)
    }

    /// The caller's view comes off the writer's.
    pub(crate) fn give_over(&self, seat: &mut At<M>) -> At<M>
        requires seat { IsAt self.now.table seat.old }
        requires writer { seat.old.me.0.writes ≡ true }
        ensures seats { IsAt self.now.table seat.new × IsAt self.now.table result }
        ensures writer { seat.new.me.0 ≡ idle_writer seat.old.me.0 }
        ensures caller { result.me.0 ≡ taken_over seat.old.me.0 }
    {
        self.table.shared.split_seat::<OffWriter>(seat)
    }

    /// A new caller's view comes off another's, with some of its parts.
    pub(crate) fn split_off(&self, seat: &mut At<M>, parts: u64) -> At<M>
        requires seat { IsAt self.now.table seat.old }
        requires caller { seat.old.me.0.writes ≡ false }
        requires parts { parts < seat.old.me.0.parts }
        ensures seats { IsAt self.now.table seat.new × IsAt self.now.table result }
        ensures caller { seat.new.me.0 ≡ less_parts parts seat.old.me.0 }
        ensures new { result.me.0 ≡ newcomer parts seat.old.me.0 }
    {
        self.split_off_as::<Brand>(seat, parts)
    }

    fn split_off_as<N: Numbered>(&self, seat: &mut At<M>, parts: u64) -> At<M>
        requires told { N.number ≡ parts }
        requires seat { IsAt self.now.table seat.old }
        requires caller { seat.old.me.0.writes ≡ false }
        requires parts { parts < seat.old.me.0.parts }
        ensures seats { IsAt self.now.table seat.new × IsAt self.now.table result }
        ensures caller { seat.new.me.0 ≡ less_parts parts seat.old.me.0 }
        ensures new { result.me.0 ≡ newcomer parts seat.old.me.0 }
    {
        let _ = parts;
        self.table.shared.split_seat::<OffCaller<N>>(seat)
    }

    /// A caller's view goes into the writer's, which then looks. Answers the length.
    pub(crate) fn take_in<E: Told<M>>(&self, seat: &mut At<M>, other: At<M>) -> u64
        requires seats { IsAt self.now.table seat.old × IsAt self.now.table other }
        requires roles { (seat.old.me.0.writes ≡ true) × (other.me.0.writes ≡ false) }
        requires rise { seat.old.me.0.faults ≤ E.faults }
        ensures seat { IsAt self.now.table seat.new }
        ensures looked { WriterLooked self.now.begun self.now.parts E.faults
            (with_caller seat.old.me.0 other.me.0) result seat.new.me.0 }
    {
        self.table.shared.join_seat::<IntoWriter>(seat, other);
        self.look::<E>(seat)
    }

    /// A caller's view goes into another's, which then looks.
    pub(crate) fn put_together(&self, seat: &mut At<M>, other: At<M>)
        requires seats { IsAt self.now.table seat.old × IsAt self.now.table other }
        requires roles { (seat.old.me.0.writes ≡ false) × (other.me.0.writes ≡ false) }
        ensures seat { IsAt self.now.table seat.new }
        ensures caller { seat.new.me.0 ≡ together seat.old.me.0 other.me.0 }
        ensures this { IsPrefix seat.old.me.0.moves seat.new.me.0.moves }
        ensures that { IsPrefix other.me.0.moves seat.new.me.0.moves }
        ensures once { AreDistinct (seat.new.me.0.mine ++ seat.new.me.0.others) }
        ensures apart { AreApart (seat.old.me.0.mine ++ seat.old.me.0.others)
            (other.me.0.mine ++ other.me.0.others) }
        ensures receipts { seat.new.me.0.receipts < 2 ^ 64 }
    {
        self.table.shared.join_seat::<IntoCaller>(seat, other);
        self.table.shared.load::<CallerLooks>(seat, 0);
    }

    /// The same, where the other's own entries, which came behind what the caller has seen, become the caller's own.
    pub(crate) fn adopt(&self, seat: &mut At<M>, other: At<M>)
        requires seats { IsAt self.now.table seat.old × IsAt self.now.table other }
        requires roles { (seat.old.me.0.writes ≡ false) × (other.me.0.writes ≡ false) }
        requires behind { AllByRecursion
            (λ n. self.now.begun + length seat.old.me.0.moves < n) other.me.0.mine }
        ensures seat { IsAt self.now.table seat.new }
        ensures caller { seat.new.me.0 ≡ adopted seat.old.me.0 other.me.0 }
        ensures this { IsPrefix seat.old.me.0.moves seat.new.me.0.moves }
        ensures that { IsPrefix other.me.0.moves seat.new.me.0.moves }
        ensures once { AreDistinct (seat.new.me.0.mine ++ seat.new.me.0.others) }
        ensures apart { AreApart (seat.old.me.0.mine ++ seat.old.me.0.others)
            (other.me.0.mine ++ other.me.0.others) }
        ensures receipts { seat.new.me.0.receipts < 2 ^ 64 }
    {
        self.table.shared.join_seat::<IntoOwner>(seat, other);
        self.table.shared.load::<CallerLooks>(seat, 0);
    }
}
