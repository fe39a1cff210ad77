// What a look at a branch gives.
ghost use Rattle.std.specs.Prelude.{◌≡◌, ◌+◌, ◌<◌, length, None, IfOk, IfErr, OnOk};
ghost use Rattle.branch_history.specs.Commits.{clock_of, visible};
ghost use Rattle.branch_history.specs.History.{store_of};
ghost use Rattle.branch_history.specs.Machine.{turn, answers, operation_refusal};
ghost use Rattle.branch_history.specs.Steps as machine;
ghost use Rattle.branch_history.specs.Validity.{IsValid};
ghost use Rattle.store_seen.specs.Turns.{FromOn, PrepareRefusedAs};
ghost use Rattle.store_seen.specs.Views.{Operation};

use crate::answers::PrepareRefused;
use crate::move_list::MoveList;
use crate::prepared::{Prepared, Ready};
use crate::spelled::Spelled;
use branch_names::Terms;
use mrdt_model::{Memory, Mrdt, Time};
use std::alloc::Global;
use std::marker::Model;
use std::snapshot::Snapshot;
use std::sync::Arc;

/// What a look at a branch gives: its head, with the value there. It stays as it is while the store goes on.
/// Contracts see a `SeenView`: the history and the terms of the core at the look, the branch and the head.
#[derive(Drop)]
pub struct Seen<T: Mrdt> {
    pub(crate) alloc: Global,
    pub(crate) history: Snapshot<MoveList<T::Op, T::Reply>>,
    pub(crate) terms: Terms,
    pub(crate) moves: u64,
    pub(crate) branch: u32,
    pub(crate) head: u32,
    pub(crate) clock: u64,
    pub(crate) value: Arc<T>,
}

impl<T: Mrdt> Model for Seen<T> {
    ghost use Rattle.std.specs.Arc.{arc_value};
    ghost use Rattle.branch_history.specs.declared.moves.Move.{Move};
    ghost use Rattle.store_seen.specs.Views.{SeenView};

    ghost Value = { SeenView (Move T.Op T.Reply) };

    ghost use Rattle.store_seen.specs.Keeps.{IsLook};

    ghost view = { λ s. record {
      history = s.history.value.items;
      terms = s.terms;
      branch = s.branch;
      head = s.head;
    } };

    ghost invariant = { λ s.
        IsLook T.meaning (record {
          history = s.history.value.items;
          terms = s.terms;
          branch = s.branch;
          head = s.head;
        }) s.moves s.clock (arc_value s.value) };
}

impl<T: Mrdt> Seen<T> {
    /// The branch's number, which the history has.
    pub fn branch(&self) -> u32
        ensures branch { result ≡ self.now.branch }
        ensures within { self.now.branch
            < length (store_of self.now.terms.origin self.now.history).branches }
    {
        self.branch
    }

    /// The origin of that branch.
    pub fn origin(&self) -> u32
        ensures { result ≡ self.now.terms.origin + self.now.branch }
    {
        self.terms.origin + self.branch
    }

    /// The commit that was the branch's head.
    pub fn head(&self) -> u32
        ensures { result ≡ self.now.head }
    {
        self.head
    }

    /// The clock of that commit.
    pub fn clock(&self) -> u64
        ensures { result ≡ clock_of (store_of self.now.terms.origin self.now.history).commits
            self.now.head }
    {
        self.clock
    }

    /// The length of the history at the look, which is a valid one.
    pub fn moves(&self) -> u64
        ensures moves { result ≡ length self.now.history }
        ensures valid { IsValid T.meaning self.now.terms self.now.history }
    {
        self.moves
    }

    /// The value at the head. It stands for the events that are visible there, and its spelling is theirs.
    pub fn value(&self) -> &T
        ensures stands { T.meaning.stands result.now
            (visible (store_of self.now.terms.origin self.now.history).commits self.now.head) }
        ensures spelling { T.meaning.state_spelling result.now
            ≡ T.meaning.spelling_of
            (visible (store_of self.now.terms.origin self.now.history).commits self.now.head) }
    {
        &self.value
    }

    /// What the head answers to a query, now and however the history goes on.
    pub fn ask(&self, query: &T::Query) -> Result<T::Answer, Memory>
        ensures { IfOk result (λ answer. FromOn T.meaning self.now.terms self.now.history (λ later.
            turn T.meaning self.now.terms later (machine.Ask self.now.head query.now)
            ≡ answers (machine.Answered answer))) }
    {
        self.value.answer(query)
    }

    /// Makes an operation ready to land on the head. It is refused as the machine refuses to land it, now and
    /// however the history goes on: `Exhausted` before `ValueTooLarge`.
    pub fn prepare(&self, op: T::Op) -> Result<Prepared<T>, PrepareRefused>
        ensures prepared { IfOk result (λ made. made ≡ record {
          seen = self.now;
          work = Operation op
              (T.meaning.reply_of (visible (store_of self.now.terms.origin self.now.history).commits
              self.now.head) op);
        }) }
        ensures fits { OnOk result (operation_refusal T.meaning self.now.terms.limits
            (store_of self.now.terms.origin self.now.history).commits
            (self.now.terms.origin + self.now.branch) self.now.head op ≡ None) }
        ensures refused { IfErr result (PrepareRefusedAs T.meaning self.now op) }
    {
        if self.clock >= self.terms.limits.clock {
            return Err(PrepareRefused::Exhausted { clock: self.clock });
        }
        let origin = self.origin();
        let time = Time {
            clock: self.clock + 1,
            origin,
        };
        let (value, reply) = self.value.apply(&op, time)?;
        let spelled = Spelled::new::<T>(self.alloc, self.terms.layout, &value, &op, &reply)?;
        let length = spelled.len();
        if length > self.terms.limits.value {
            return Err(PrepareRefused::ValueTooLarge { length });
        }
        Ok(Prepared {
            seen: Snapshot::of(self),
            origin,
            branch: self.branch,
            head: self.head,
            ready: Ready::Operation {
                time,
                value,
                op,
                reply,
                spelled,
            },
        })
    }
}
