// Commits of another store, made anew.
ghost use Rattle.std.specs.Prelude.{◌≡◌};
ghost use Rattle.store_seen.specs.Arrivals.{HasOrigin, IsWrittenArrival};

use crate::move_list::MoveList;
use crate::spelled::{Spelled, SpelledValue};
use branch_names::Terms;
use mrdt_model::{Listing, Mrdt};
use std::marker::Model;
use std::snapshot::Snapshot;

// What was made anew: an operation on its parent, with its clock, its reply and the value that it makes, or a merge with
// its clock and its value; and the spellings of what is written of it, with the length of the value's, which only the layout
// that keeps values spells.
#[derive(Drop)]
pub(crate) enum Arriving<T, O, R> {
    Operation {
        parent: u32,
        clock: u64,
        value: T,
        op: O,
        reply: R,
        spelled: Spelled,
    },
    Merge {
        parents: Listing<u32>,
        clock: u64,
        value: T,
        spelled: SpelledValue,
    },
}

/// A commit of another store, made anew on commits that are here. Contracts see an `ArrivalView`: the history and the
/// terms of the core then, and the step of the machine that receives it.
#[derive(Drop)]
pub struct Arrival<T: Mrdt> {
    pub(crate) history: Snapshot<MoveList<T::Op, T::Reply>>,
    pub(crate) terms: Terms,
    pub(crate) origin: u32,
    pub(crate) made: Arriving<T, T::Op, T::Reply>,
}

impl<T: Mrdt> Model for Arrival<T> {
    ghost use Rattle.store_seen.specs.Views.{ArrivalView};

    ghost Value = { ArrivalView T.Op T.Reply T.Query };

    ghost use Rattle.store_seen.specs.Arrivals.{step_in, IsArrival};

    ghost view = { λ a. record {
      history = a.history.value.items;
      terms = a.terms;
      step = step_in a.origin a.made;
    } };

    ghost invariant = { λ a. IsArrival T.meaning a.terms a.history.value.items a.origin a.made };
}

/// What is written of a commit that was made anew: of an operation its parent, its clock, the length of the value's
/// spelling, and the spellings of the value, of the operation and of the reply; of a merge its parents, its clock, the
/// length of the value's spelling, and this spelling. The value's spelling is there exactly in the layout that keeps
/// values.
#[derive(Clone, Copy)]
pub enum WrittenArrival<'a> {
    Operation {
        parent: u32,
        clock: u64,
        size: u64,
        value: Option<&'a [u8]>,
        op: &'a [u8],
        reply: &'a [u8],
    },
    Merge {
        parents: &'a [u32],
        clock: u64,
        size: u64,
        value: Option<&'a [u8]>,
    },
}

impl<T: Mrdt> Arrival<T> {
    /// The origin that it has.
    pub fn origin(&self) -> u32
        ensures { HasOrigin self.now.step result }
    {
        self.origin
    }

    /// What is written of it. The spellings are those of what the history means.
    pub fn written(&self) -> WrittenArrival<'_>
        ensures { IsWrittenArrival T.meaning self.now result }
    {
        match &self.made {
            Arriving::Operation {
                parent,
                clock,
                spelled,
                ..
            } => WrittenArrival::Operation {
                parent: *parent,
                clock: *clock,
                size: spelled.size(),
                value: spelled.value(),
                op: spelled.op(),
                reply: spelled.reply(),
            },
            Arriving::Merge {
                parents,
                clock,
                spelled,
                ..
            } => WrittenArrival::Merge {
                parents: parents.as_slice(),
                clock: *clock,
                size: spelled.size,
                value: spelled.bytes(),
            },
        }
    }
}
