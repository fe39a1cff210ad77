// The passes of callers.
ghost use Rattle.std.specs.Prelude.{◌≡◌, ◌+◌, ◌-◌, ◌<◌, false, [], ◌∷◌, ◌++◌, length, max};
ghost use Rattle.std.specs.List.{AllByRecursion};
ghost use mathlib.Core.List.{IsPrefix};
ghost use Rattle.branch_front.specs.Lists.{longer, AreApart, AreDistinct};
ghost use Rattle.branch_front.specs.Views.{IsAt, view_of, only_view};

use crate::front::Front;
use crate::seat_view::SeatView;
use crate::steps::At;
use atomic_table::Badge;
use std::marker::Model;
use std::mem;

/// What a caller carries: which entries it has seen, and where its own landed. Of these it stores its receipts alone.
/// A pass that is dropped takes its parts and its receipts with it.
pub struct Pass<M> {
    pub(crate) badge: Badge<SeatView<M>>,
    pub(crate) receipts: u64,
}

impl<M> Model for Pass<M> {
    ghost use Rattle.branch_front.specs.Views.{View, view_of, only_view, IsCallers};

    ghost Value = { View M };

    ghost view = { λ p. view_of p.badge.table_id (only_view p.badge.views) };

    ghost invariant = { λ p. IsCallers p.badge.views p.receipts };
}

/// Takes the seat out of a pass's badge, for the length of a call.
pub(crate) fn seat_of<M>(badge: &mut Badge<SeatView<M>>) -> At<M>
    requires { badge.old.views ≡ only_view badge.old.views ∷ [] }
    ensures seat { IsAt badge.old.table_id result }
    ensures view { result.me.0 ≡ only_view badge.old.views }
{
    mem::replace(badge, Badge::blank()).into_seat::<()>()
}

impl<M> Pass<M> {
    /// The number of entries that landed by it and by the passes that were joined to it.
    pub fn receipts(&self) -> u64
        ensures { result ≡ self.now.receipts }
    {
        self.receipts
    }

    /// A new pass with some of the parts, which has seen as much and has landed nothing.
    pub fn split_off(&mut self, front: &Front<M>, parts: u64) -> Pass<M>
        requires table { self.old.table ≡ front.now.table }
        requires parts { parts < self.old.parts }
        ensures this { self.new ≡ record self.old { parts = self.old.parts - parts } }
        ensures new { result ≡ record self.old {
          mine = [];
          others = [];
          parts = parts;
          receipts = 0;
        } }
    {
        let mut seat = seat_of(&mut self.badge);
        let new = front.split_off(&mut seat, parts);
        self.badge = seat.into_badge();
        Pass {
            badge: new.into_badge(),
            receipts: 0,
        }
    }

    /// Takes in a pass that ends, with its parts and receipts, and has then seen what either had. What the other claims it
    /// claims as entries of others.
    pub fn join(&mut self, front: &Front<M>, other: Pass<M>)
        requires tables { (self.old.table ≡ front.now.table) × (other.table ≡ front.now.table) }
        ensures pass { self.new ≡ record self.old {
          moves = longer self.old.moves other.moves;
          others = self.old.others ++ (other.mine ++ other.others);
          faults = max self.old.faults other.faults;
          parts = self.old.parts + other.parts;
          receipts = self.old.receipts + other.receipts;
        } }

        // The longer of the two lists begins with both.
        ensures this { IsPrefix self.old.moves self.new.moves }
        ensures that { IsPrefix other.moves self.new.moves }

        // No entry is claimed twice, and none was claimed by both.
        ensures once { AreDistinct (self.new.mine ++ self.new.others) }
        ensures apart { AreApart (self.old.mine ++ self.old.others) (other.mine ++ other.others) }
    {
        let receipts = other.receipts;
        let mut seat = seat_of(&mut self.badge);
        front.put_together(&mut seat, other.into_seat());
        self.badge = seat.into_badge();
        self.receipts += receipts;
    }

    /// Takes in a pass that ends, whose own entries become its own too. They landed behind what it has seen.
    pub fn adopt(&mut self, front: &Front<M>, other: Pass<M>)
        requires tables { (self.old.table ≡ front.now.table) × (other.table ≡ front.now.table) }
        requires behind { AllByRecursion (λ n. front.now.begun + length self.old.moves < n)
            other.mine }
        ensures pass { self.new ≡ record self.old {
          moves = longer self.old.moves other.moves;
          mine = self.old.mine ++ other.mine;
          others = self.old.others ++ other.others;
          faults = max self.old.faults other.faults;
          parts = self.old.parts + other.parts;
          receipts = self.old.receipts + other.receipts;
        } }

        // The longer of the two lists begins with both.
        ensures this { IsPrefix self.old.moves self.new.moves }
        ensures that { IsPrefix other.moves self.new.moves }

        // No entry is claimed twice, and none was claimed by both.
        ensures once { AreDistinct (self.new.mine ++ self.new.others) }
        ensures apart { AreApart (self.old.mine ++ self.old.others) (other.mine ++ other.others) }
    {
        let receipts = other.receipts;
        let mut seat = seat_of(&mut self.badge);
        front.adopt(&mut seat, other.into_seat());
        self.badge = seat.into_badge();
        self.receipts += receipts;
    }

    /// The seat of a pass that ends.
    pub(crate) fn into_seat(self) -> At<M>
        ensures seat { IsAt self.table result }
        ensures view { view_of result.table_id result.me.0 ≡ self }
        ensures caller { result.me.0.writes ≡ false }
    {
        let Pass { badge, receipts: _ } = self;
        badge.into_seat::<()>()
    }
}

impl<M> Drop for Pass<M> {
    fn drop(self) {
        let Pass {
            badge: _,
            receipts: _,
        } = self;
    }
}
