// A look paired with another commit, for a merge.
ghost use Rattle.std.specs.Prelude.{◌≡◌, ◌<◌, ◌∷◌, [], false, length, IfOk, IfErr, IfSome, IsNone};
ghost use Rattle.std.specs.Arc.{arc_value};
ghost use Rattle.branch_graph.specs.Graph.{reaches};
ghost use Rattle.branch_history.specs.Commits.{graph_of, visible_at_all};
ghost use Rattle.branch_history.specs.History.{store_of};
ghost use Rattle.store_seen.specs.Keeps.{IsMergeReady};
ghost use Rattle.store_seen.specs.Pairs.{seen_of, IsApart, IsBaseAt, IsStepOf, MergeRefusedAs};

use crate::answers::PairPrepareRefused;
use crate::prepared::{Prepared, Ready};
use crate::seen::Seen;
use crate::spelled::SpelledValue;
use branch_history::laws::{merges_lists, sees_alone};
use mrdt_model::{Memory, Mrdt};
use std::marker::Model;
use std::snapshot::Snapshot;
use std::sync::Arc;
use virtual_base::{Nodes, base};

/// A look at a branch, and a commit to merge into it. Contracts see a `PairView`: the history and the terms of
/// the core when the two were paired, the branch, the head that was seen, and the commit.
#[derive(Drop)]
pub struct Pair<T: Mrdt> {
    pub(crate) seen: Seen<T>,
    pub(crate) other: u32,
    pub(crate) clock: u64,
    pub(crate) nodes: Arc<Nodes<T>>,
    // the base of the two commits, where it was handed to the pair
    pub(crate) base: Option<T>,
}

impl<T: Mrdt> Model for Pair<T> {
    ghost use Rattle.branch_history.specs.declared.moves.Move.{Move};
    ghost use Rattle.store_seen.specs.Views.{PairView};

    ghost Value = { PairView (Move T.Op T.Reply) };

    ghost use Rattle.std.specs.Arc.{arc_value};
    ghost use Rattle.store_seen.specs.Keeps.{IsPair};

    ghost view = { λ p. record {
      history = p.seen.history;
      terms = p.seen.terms;
      branch = p.seen.branch;
      head = p.seen.head;
      other = p.other;
    } };

    ghost invariant = { λ p.
        IsPair T.meaning p.seen p.other p.clock (arc_value p.nodes) p.base };
}

/// What a pair is for.
#[derive(Drop)]
pub enum PairStep<T: Mrdt> {
    /// The commit is in the reach of the head that was seen: there is nothing to merge.
    Same,
    /// A merge, or a move up to the commit.
    Land(Prepared<T>),
}

impl<T: Mrdt> Pair<T> {
    /// Makes the merge ready to land on the head that was seen. It is refused as the machine refuses it, now and
    /// however the history goes on. All work of a merge is done here, but for a base that was handed to the pair.
    pub fn prepare(&self) -> Result<PairStep<T>, PairPrepareRefused>
        ensures step { IfOk result (IsStepOf T.meaning self.now) }
        ensures refused { IfErr result (MergeRefusedAs T.meaning self.now) }
    {
        if let Some(step) = self.unmerged()? {
            return Ok(step);
        }
        if let Some(base) = &self.base {
            return self.prepare_over(base);
        }
        let base = self.base()?;
        self.prepare_over(&base)
    }

    // The head that was seen and the commit to merge into it. Both are there.
    pub(crate) fn commits(&self) -> (u32, u32)
        ensures commits { result ≡ (self.now.head, self.now.other) }
        ensures head { self.now.head
            < length (store_of self.now.terms.origin self.now.history).commits }
        ensures other { self.now.other
            < length (store_of self.now.terms.origin self.now.history).commits }
    {
        let seen = &self.seen;
        (seen.head, self.other)
    }

    // The same pair, with the base of its commits, if there is one.
    pub(crate) fn with_base(self, base: Option<T>) -> Pair<T>
        requires { IfSome base
            (IsBaseAt T.meaning (store_of self.terms.origin self.history).commits
            self.head self.other) }
        ensures { result ≡ self }
    {
        Pair {
            seen: self.seen,
            other: self.other,
            clock: self.clock,
            nodes: self.nodes,
            base,
        }
    }

    // What the pair is for where it needs no merge: nothing, or a move up.
    pub(crate) fn unmerged(&self) -> Result<Option<PairStep<T>>, Memory>
        ensures step { IfOk result (λ found. IfSome found (IsStepOf T.meaning self.now)) }
        ensures apart { IfOk result (λ found. IsNone found → IsApart self.now) }
    {
        let seen = &self.seen;
        let (branch, head) = (seen.branch, seen.head);
        if self.nodes.reaches(head, self.other)? {
            return Ok(Some(PairStep::Same));
        }
        if self.nodes.reaches(self.other, head)? {
            return Ok(Some(PairStep::Land(Prepared {
                seen: Snapshot::of(seen),
                origin: seen.origin(),
                branch,
                head,
                ready: Ready::Forward { commit: self.other },
            })));
        }
        Ok(None)
    }

    // The base of the two commits.
    fn base(&self) -> Result<T, Memory>
        ensures { IfOk result
            (IsBaseAt T.meaning (store_of self.now.terms.origin self.now.history).commits
            self.now.head self.now.other) }
    {
        let seen = &self.seen;
        let base = base(&self.nodes, &[seen.head], &[self.other])?;
        Ok(base)
    }

    // Makes the merge over this base ready, where neither commit reaches the other.
    pub(crate) fn prepare_over(&self, base: &T) -> Result<PairStep<T>, PairPrepareRefused>
        requires apart { IsApart self.now }
        requires base { IsBaseAt T.meaning (store_of self.now.terms.origin self.now.history).commits
            self.now.head self.now.other base.now }
        ensures step { IfOk result (IsStepOf T.meaning self.now) }
        ensures refused { IfErr result (MergeRefusedAs T.meaning self.now) }
    {
        let seen = &self.seen;
        let ready = self.merged(base)?;
        Ok(PairStep::Land(Prepared {
            seen: Snapshot::of(seen),
            origin: seen.origin(),
            branch: seen.branch,
            head: seen.head,
            ready,
        }))
    }

    // The merge of the two commits over this base, of which neither reaches the other, unless its value's spelling is
    // too long.
    fn merged(&self, base: &T) -> Result<Ready<T, T::Op, T::Reply>, PairPrepareRefused>
        requires above { reaches
            (graph_of (store_of self.now.terms.origin self.now.history).commits)
            self.now.head self.now.other ≡ false }
        requires below { reaches
            (graph_of (store_of self.now.terms.origin self.now.history).commits)
            self.now.other self.now.head ≡ false }
        requires base { IsBaseAt T.meaning (store_of self.now.terms.origin self.now.history).commits
            self.now.head self.now.other base.now }
        ensures ready { IfOk result (IsMergeReady T.meaning (seen_of self.now) self.now.other) }
        ensures refused { IfErr result (MergeRefusedAs T.meaning self.now) }
    {
        let seen = &self.seen;
        let value = self.merged_value(base)?;
        let spelled = SpelledValue::new::<T>(seen.alloc, seen.terms.layout, &value)?;
        let length = spelled.size;
        if length > seen.terms.limits.value {
            return Err(PairPrepareRefused::ValueTooLarge { length });
        }
        Ok(Ready::Merge {
            commit: self.other,
            clock: seen.clock.max(self.clock),
            value,
            spelled,
        })
    }

    // The merge of the values of the two commits, over their base.
    fn merged_value(&self, base: &T) -> Result<T, Memory>
        requires { IsBaseAt T.meaning (store_of self.now.terms.origin self.now.history).commits
            self.now.head self.now.other base.now }
        ensures { IfOk result (λ value.
            T.meaning.stands value
            (visible_at_all (store_of self.now.terms.origin self.now.history).commits
            (self.now.head ∷ self.now.other ∷ []))) }
    {
        merges_lists::<T>();
        sees_alone::<T>();
        let seen = &self.seen;
        let right = self.nodes.value(self.other);
        let value = T::merge(base, &seen.value, right)?;
        Ok(value)
    }
}
