// How looks at the core's half in memory are paired and grouped with commits, and what the merge of these makes.
ghost use Rattle.std.specs.Prelude.{◌≡◌, ◌<◌, ◌≤◌, All, ◌∷◌, length, map, IfOk, IfErr};
ghost use mathlib.Core.List.{IsPrefix};
ghost use Rattle.branch_history.specs.Commits.{visible_at_all};
ghost use Rattle.branch_history.specs.History.{store_of};
ghost use Rattle.store_seen.specs.Groups.{grouped_at, AreHeads, IsGrouped, GroupRefusedAs, IsStepOfAll, MergeAllRefusedAs};
ghost use Rattle.store_seen.specs.Pairs.{IsPaired, PairRefusedAs, paired_at, IsBaseAt, IsStepOf, MergeRefusedAs};
ghost use Rattle.store_seen.specs.Turns.{at_head};

use crate::answers::{PairPrepareRefused, PairRefused};
use crate::group::Group;
use crate::pair::{Pair, PairStep};
use crate::seen::Seen;
use crate::versions::{Versions, joined};
use branch_names::Name;
use mrdt_model::{Memory, Mrdt};
use std::snapshot::Snapshot;
use std::sync::Arc;

impl<T: Mrdt> Versions<T> {
    /// Pairs a look at this core, taken now or earlier, with the head that a branch has now. `UnknownBranch` comes
    /// exactly where no branch has the name. Where neither commit reaches the other, the pair is handed their base, which
    /// is made with the folds that are kept.
    pub fn pair(&mut self, seen: &Seen<T>, from: &Name) -> Result<Pair<T>, PairRefused>
        requires history { IsPrefix seen.now.history self.old.core.history }
        requires terms { seen.now.terms ≡ self.old.core.terms }
        ensures paired { IfOk result (IsPaired T.meaning self.old.core seen.now from.now) }
        ensures refused { IfErr result (PairRefusedAs T.meaning self.old.core from.now) }
        ensures same { self.new ≡ self.old }
    {
        let pair = self.pair_named(seen, from)?;
        Ok(self.with_base(pair))
    }

    // The same, with no base.
    fn pair_named(&self, seen: &Seen<T>, from: &Name) -> Result<Pair<T>, PairRefused>
        requires history { IsPrefix seen.now.history self.now.core.history }
        requires terms { seen.now.terms ≡ self.now.core.terms }
        ensures paired { IfOk result (IsPaired T.meaning self.now.core seen.now from.now) }
        ensures refused { IfErr result (PairRefusedAs T.meaning self.now.core from.now) }
    {
        let Some(source) = self.heads.find(from) else {
            return Err(PairRefused::UnknownBranch { name: *from });
        };
        let other = self.heads.head(source);
        Ok(self.pair_at(seen, other)?)
    }

    // The same pair, with the base of its commits, where neither reaches the other and memory is there.
    fn with_base(&mut self, pair: Pair<T>) -> Pair<T>
        requires history { pair.history ≡ self.old.core.history }
        requires terms { pair.terms ≡ self.old.core.terms }
        ensures pair { result ≡ pair }
        ensures same { self.new ≡ self.old }
    {
        if let Ok(None) = pair.unmerged() {
            let (head, other) = pair.commits();
            let base = self.base_at(head, other).ok();
            return pair.with_base(base);
        }
        pair
    }

    /// Pairs a look at this core, taken now or earlier, with a commit.
    pub fn pair_at(&self, seen: &Seen<T>, other: u32) -> Result<Pair<T>, Memory>
        requires history { IsPrefix seen.now.history self.now.core.history }
        requires terms { seen.now.terms ≡ self.now.core.terms }
        requires there { other
            < length (store_of self.now.core.terms.origin self.now.core.history).commits }
        ensures { IfOk result (λ pair. pair ≡ record {
          history = self.now.core.history;
          terms = self.now.core.terms;
          branch = seen.now.branch;
          head = seen.now.head;
          other = other;
        }) }
    {
        let seen = self.seen_again(seen)?;
        Ok(Pair {
            seen,
            other,
            clock: self.clocks[other as usize],
            nodes: self.nodes.share()?,
            base: None,
        })
    }

    /// Makes the merge of a commit ready to land on a look at this core, taken now or earlier: what `pair_at` and then
    /// `prepare` make, with the folds that are kept.
    pub fn prepare_at(
        &mut self,
        seen: &Seen<T>,
        other: u32,
    ) -> Result<PairStep<T>, PairPrepareRefused>
        requires history { IsPrefix seen.now.history self.old.core.history }
        requires terms { seen.now.terms ≡ self.old.core.terms }
        requires there { other
            < length (store_of self.old.core.terms.origin self.old.core.history).commits }
        ensures step { IfOk result (IsStepOf T.meaning (paired_at self.old.core seen.now other)) }
        ensures refused { IfErr result
            (MergeRefusedAs T.meaning (paired_at self.old.core seen.now other)) }
        ensures same { self.new ≡ self.old }
    {
        let pair = self.pair_at(seen, other)?;
        if let Some(step) = pair.unmerged()? {
            return Ok(step);
        }
        let base = self.base_at(pair.seen.head, other)?;
        pair.prepare_over(&base)
    }

    /// Groups a look at this core, taken now or earlier, with the heads that branches have now, of one to eight names.
    /// `UnknownBranch` comes exactly where one of them is no branch's, and names the first such.
    pub fn group(&self, seen: &Seen<T>, from: &[Name]) -> Result<Group<T>, PairRefused>
        requires history { IsPrefix seen.now.history self.now.core.history }
        requires terms { seen.now.terms ≡ self.now.core.terms }
        requires some { 1 ≤ length from.now }
        requires few { length from.now ≤ 8 }
        ensures grouped { IfOk result (IsGrouped T.meaning self.now.core seen.now from.now) }
        ensures refused { IfErr result (GroupRefusedAs T.meaning self.now.core from.now) }
    {
        let others = self.heads_of(from)?;
        Ok(self.group_at(seen, &others)?)
    }

    // The heads of the branches with these names.
    fn heads_of(&self, from: &[Name]) -> Result<Vec<u32>, PairRefused>
        ensures heads { IfOk result (λ heads.
            AreHeads T.meaning self.now.core from.now heads.items) }
        ensures there { IfOk result (λ heads.
            All (λ n. n < length
            (store_of self.now.core.terms.origin self.now.core.history).commits) heads.items) }
        ensures counted { IfOk result (λ heads. length heads.items ≡ length from.now) }
        ensures refused { IfErr result (GroupRefusedAs T.meaning self.now.core from.now) }
    {
        let mut heads = Vec::new(self.alloc);
        for name in from {
            let Some(source) = self.heads.find(name) else {
                return Err(PairRefused::UnknownBranch { name: *name });
            };
            if heads.push(self.heads.head(source)).is_err() {
                return Err(PairRefused::Memory);
            }
        }
        Ok(heads)
    }

    /// Groups a look at this core, taken now or earlier, with one to eight commits.
    pub fn group_at(&self, seen: &Seen<T>, others: &[u32]) -> Result<Group<T>, Memory>
        requires history { IsPrefix seen.now.history self.now.core.history }
        requires terms { seen.now.terms ≡ self.now.core.terms }
        requires there { All (λ n.
            n < length (store_of self.now.core.terms.origin self.now.core.history).commits)
            others.now }
        requires some { 1 ≤ length others.now }
        requires few { length others.now ≤ 8 }
        ensures { IfOk result (λ group. group ≡ grouped_at self.now.core seen.now others.now) }
    {
        let pairs = self.pairs_of(seen, others)?;
        let seen = self.seen_again(seen)?;
        let nodes = self.nodes.share()?;
        Ok(Group { seen, pairs, nodes })
    }

    // The pairs of a look at this core, taken now or earlier, with each of several commits.
    fn pairs_of(&self, seen: &Seen<T>, others: &[u32]) -> Result<Vec<Pair<T>>, Memory>
        requires history { IsPrefix seen.now.history self.now.core.history }
        requires terms { seen.now.terms ≡ self.now.core.terms }
        requires there { All (λ n.
            n < length (store_of self.now.core.terms.origin self.now.core.history).commits)
            others.now }
        ensures { IfOk result (λ pairs.
            pairs.items ≡ map (paired_at self.now.core seen.now) others.now) }
    {
        let mut pairs = Vec::new(self.alloc);
        for other in others {
            pairs.push(self.pair_at(seen, *other)?)?;
        }
        Ok(pairs)
    }

    /// Makes the merge of one to eight commits ready to land on a look at this core, taken now or earlier: what a
    /// group of them prepares, with the folds that are kept.
    pub fn prepare_all_at(
        &mut self,
        seen: &Seen<T>,
        others: &[u32],
    ) -> Result<PairStep<T>, PairPrepareRefused>
        requires history { IsPrefix seen.now.history self.old.core.history }
        requires terms { seen.now.terms ≡ self.old.core.terms }
        requires there { All (λ n.
            n < length (store_of self.old.core.terms.origin self.old.core.history).commits)
            others.now }
        requires some { 1 ≤ length others.now }
        requires few { length others.now ≤ 8 }
        ensures step { IfOk result
            (IsStepOfAll T.meaning (grouped_at self.old.core seen.now others.now)) }
        ensures refused { IfErr result
            (MergeAllRefusedAs T.meaning (grouped_at self.old.core seen.now others.now)) }
        ensures same { self.new ≡ self.old }
    {
        let group = self.group_at(seen, others)?;
        let brought = group.brought()?;
        match brought.as_slice() {
            [] => Ok(PairStep::Same),
            [one] => self.prepare_at(seen, *one),
            _ => {
                let value = self.value_at_all(seen.head(), &brought)?;
                group.prepare_join(brought, value)
            }
        }
    }

    /// Makes the merge of a group that was grouped at this history ready to land: what the group prepares, with the folds
    /// that are kept.
    pub fn prepare_group(&mut self, group: &Group<T>) -> Result<PairStep<T>, PairPrepareRefused>
        requires history { group.now.history ≡ self.old.core.history }
        requires terms { group.now.terms ≡ self.old.core.terms }
        ensures step { IfOk result (IsStepOfAll T.meaning group.now) }
        ensures refused { IfErr result (MergeAllRefusedAs T.meaning group.now) }
        ensures same { self.new ≡ self.old }
    {
        let _head = group.head();
        let others = group.others()?;
        self.prepare_all_at(&group.seen, &others)
    }

    // The value of a head and several commits together.
    fn value_at_all(&mut self, head: u32, commits: &[u32]) -> Result<T, Memory>
        requires head { head
            < length (store_of self.old.core.terms.origin self.old.core.history).commits }
        requires commits { All (λ n.
            n < length (store_of self.old.core.terms.origin self.old.core.history).commits)
            commits.now }
        ensures value { IfOk result (λ value.
            T.meaning.stands value
            (visible_at_all (store_of self.old.core.terms.origin self.old.core.history).commits
            (head ∷ commits.now))) }
        ensures same { self.new ≡ self.old }
    {
        let _count = self.nodes.count();
        let parents = joined(self.alloc, head, commits)?;
        let value = self.nodes.value_at_all(&parents)?;
        Ok(value)
    }

    // The base of two commits.
    fn base_at(&mut self, left: u32, right: u32) -> Result<T, Memory>
        requires left { left
            < length (store_of self.old.core.terms.origin self.old.core.history).commits }
        requires right { right
            < length (store_of self.old.core.terms.origin self.old.core.history).commits }
        ensures base { IfOk result
            (IsBaseAt T.meaning (store_of self.old.core.terms.origin self.old.core.history).commits
            left right) }
        ensures same { self.new ≡ self.old }
    {
        let _count = self.nodes.count();
        let base = self.nodes.base(left, right)?;
        Ok(base)
    }

    /// Keeps at most so many folds of bases from now on, for `prepare_at`. They are kept until `drop_folds`, or
    /// until a commit is undone.
    pub fn keep_folds(&mut self, limit: u32) -> Result<(), Memory>
        requires { 0 < limit }
        ensures { self.new ≡ self.old }
    {
        self.nodes.keep_folds(limit)
    }

    /// Keeps no folds any more. It takes no memory.
    pub fn drop_folds(&mut self)
        ensures { self.new ≡ self.old }
    {
        self.nodes.drop_folds();
    }

    // The branch and the commit of a look, at the history of now.
    fn seen_again(&self, seen: &Seen<T>) -> Result<Seen<T>, Memory>
        requires history { IsPrefix seen.now.history self.now.core.history }
        requires terms { seen.now.terms ≡ self.now.core.terms }
        ensures { IfOk result (λ again.
            again ≡ at_head self.now.core seen.now.branch seen.now.head) }
    {
        Ok(Seen {
            alloc: self.alloc,
            history: Snapshot::of(&self.moves),
            terms: self.terms,
            moves: self.moves.len(),
            branch: seen.branch,
            head: seen.head,
            clock: seen.clock,
            value: Arc::try_clone(&seen.value)?,
        })
    }
}
