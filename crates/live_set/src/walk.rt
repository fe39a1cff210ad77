// A walk over entries by rising time.
ghost use Rattle.std.specs.Prelude.{◌≡◌, Option};
ghost use Rattle.std.specs.Option.{option_copied};
ghost use Rattle.mrdt_model.specs.Times.{same_time};
ghost use Rattle.live_set.specs.Walks.{first_time, earlier_of, payload_first, behind_first};

use crate::kept::Kept;
use crate::payload::Payload;
use mrdt_model::Time;
use shared_list::Walk;
use std::marker::Model;

// The entries that a walk has still to come to. Contracts see them.
#[derive(Drop)]
pub(crate) struct Ahead<'a, V: Payload> {
    walk: Walk<'a, Kept<V>>,
}

impl<'a, V: Payload> Model for Ahead<'a, V> {
    ghost use Rattle.std.specs.Prelude.{List};
    ghost use Rattle.live_set.specs.declared.kept.Kept.{Kept};

    ghost Value = { List (Kept V) };

    ghost view = { λ a. a.walk };
}

impl<'a, V: Payload> Ahead<'a, V> {
    // All entries are ahead.
    pub(crate) fn new(walk: Walk<'a, Kept<V>>) -> Ahead<'a, V>
        ensures { result ≡ walk.entry }
    {
        Ahead { walk }
    }

    // The time of the first entry.
    #[tactic(auto, using(crate::proofs::Ahead::first_there, crate::proofs::Ahead::first_none))]
    pub(crate) fn first_time(&self) -> Option<Time>
        ensures { result ≡ first_time self.now }
    {
        match self.walk.first() {
            Some(kept) => Some(kept.time),
            None => None,
        }
    }

    // Takes the first entry's payload, where that entry is at this time.
    #[tactic(auto, using(crate::proofs::Ahead::payload_there, crate::proofs::Ahead::payload_none, crate::proofs::Ahead::behind_there, crate::proofs::Ahead::behind_none))]
    pub(crate) fn take_at(&mut self, time: Time) -> Option<&'a V>
        ensures payload { option_copied result ≡ payload_first self.old time }
        ensures rest { self.new ≡ behind_first self.old time }
    {
        match self.walk.first() {
            Some(kept) => {
                if is_at(time, kept.time) {
                    self.walk.skip();
                    Some(&kept.payload)
                } else {
                    None
                }
            }
            None => None,
        }
    }
}

// Whether two times are the same.
#[tactic(auto, unfolding(mrdt_model::specs::Times::same_time))]
pub(crate) fn is_at(time: Time, other: Time) -> bool
    ensures { result ≡ same_time time other }
{
    time == other
}

// The earlier of two times, where there are two.
pub(crate) fn earlier(left: Option<Time>, right: Option<Time>) -> Option<Time>
    ensures { result ≡ earlier_of left right }
{
    match (left, right) {
        (Some(mine), Some(other)) if other.is_before(mine) => right,
        (None, _) => right,
        _ => left,
    }
}
