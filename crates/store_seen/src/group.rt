// A look grouped with several other commits, for a merge of all of them.
ghost use Rattle.std.specs.Prelude.{◌≡◌, ◌<◌, ◌≤◌, ◌∷◌, [], All, Contains, length, IfOk, IfErr};
ghost use Rattle.branch_history.specs.Commits.{clock_of, greatest_clock, visible_at_all};
ghost use Rattle.branch_history.specs.History.{store_of};
ghost use Rattle.branch_history.specs.Merging.{brought, is_below};
ghost use Rattle.store_seen.specs.Groups.{brings, brought_by, look_of, pair_in, IsStepOfAll, MergeAllRefusedAs};
ghost use Rattle.store_seen.specs.Keeps.{IsSeen, IsJoinReady};

use crate::answers::PairPrepareRefused;
use crate::pair::{Pair, PairStep};
use crate::prepared::{Prepared, Ready};
use crate::seen::Seen;
use crate::spelled::SpelledValue;
use crate::versions::joined;
use mrdt_model::{Listing, Memory, Mrdt};
use std::marker::Model;
use std::snapshot::Snapshot;
use std::sync::Arc;
use virtual_base::{Nodes, value_at_all};

/// A look at a branch, and one to eight commits to merge into it together. Contracts see a `GroupView`: the history
/// and the terms of the core when they were grouped, the branch, the head that was seen, and the commits as they were
/// given.
#[derive(Drop)]
pub struct Group<T: Mrdt> {
    pub(crate) seen: Seen<T>,
    // the pair of the look with each commit
    pub(crate) pairs: Vec<Pair<T>>,
    pub(crate) nodes: Arc<Nodes<T>>,
}

impl<T: Mrdt> Model for Group<T> {
    ghost use Rattle.branch_history.specs.declared.moves.Move.{Move};
    ghost use Rattle.store_seen.specs.Views.{GroupView};

    ghost Value = { GroupView (Move T.Op T.Reply) };

    ghost use Rattle.std.specs.Arc.{arc_value};
    ghost use Rattle.store_seen.specs.Groups.{others_of};
    ghost use Rattle.store_seen.specs.Keeps.{IsGroup};

    ghost view = { λ g. record {
      history = g.seen.history;
      terms = g.seen.terms;
      branch = g.seen.branch;
      head = g.seen.head;
      others = others_of g.pairs.items;
    } };

    ghost invariant = { λ g. IsGroup T.meaning g.seen g.pairs.items (arc_value g.nodes) };
}

impl<T: Mrdt> Group<T> {
    /// Makes the merge of all the commits ready to land on the head that was seen: a merge or a move up where it brings
    /// one commit, and a join where it brings several. It is refused as the machine refuses it, now and however the
    /// history goes on. All work of a merge is done here.
    pub fn prepare(&self) -> Result<PairStep<T>, PairPrepareRefused>
        ensures step { IfOk result (IsStepOfAll T.meaning self.now) }
        ensures refused { IfErr result (MergeAllRefusedAs T.meaning self.now) }
    {
        let brought = self.brought()?;
        match brought.as_slice() {
            [] => Ok(PairStep::Same),
            [one] => self.prepare_one(*one),
            _ => {
                let value = self.value_of(&brought)?;
                self.prepare_join(brought, value)
            }
        }
    }

    // What the merge brings, in the order in which it was given.
    pub(crate) fn brought(&self) -> Result<Vec<u32>, Memory>
        ensures brought { IfOk result (λ found. found.items ≡ brought_by self.now) }
        ensures seen { IsSeen T.meaning (look_of self.now) }
        ensures there { All (λ n.
            n < length (store_of self.now.terms.origin self.now.history).commits) self.now.others }
    {
        let head = self.head();
        let others = self.others()?;
        brought_of(&self.nodes, head, &others)
    }

    // The head that was seen. It and one to eight other commits are there.
    pub(crate) fn head(&self) -> u32
        ensures head { result ≡ self.now.head }
        ensures seen { IsSeen T.meaning (look_of self.now) }
        ensures there { All (λ n.
            n < length (store_of self.now.terms.origin self.now.history).commits) self.now.others }
        ensures few { length self.now.others ≤ 8 }
    {
        let seen = &self.seen;
        seen.head
    }

    // The value of the head and what is brought together.
    fn value_of(&self, brought: &[u32]) -> Result<T, Memory>
        requires { brought.now ≡ brought_by self.now }
        ensures { IfOk result (λ value.
            T.meaning.stands value
            (visible_at_all (store_of self.now.terms.origin self.now.history).commits
            (self.now.head ∷ brought.now))) }
    {
        let head = self.head();
        let parents = joined(self.nodes.alloc(), head, brought)?;
        let value = value_at_all(&self.nodes, &parents)?;
        Ok(value)
    }

    // The commits as they were given. They are one to eight, and there.
    pub(crate) fn others(&self) -> Result<Vec<u32>, Memory>
        ensures { IfOk result (λ others. others.items ≡ self.now.others) }
    {
        let mut others = Vec::new(self.seen.alloc);
        for pair in &self.pairs {
            others.push(pair.other)?;
        }
        Ok(others)
    }

    // Makes the merge of the one commit ready that is brought.
    pub(crate) fn prepare_one(&self, commit: u32) -> Result<PairStep<T>, PairPrepareRefused>
        requires { brought_by self.now ≡ commit ∷ [] }
        ensures step { IfOk result (IsStepOfAll T.meaning self.now) }
        ensures refused { IfErr result (MergeAllRefusedAs T.meaning self.now) }
    {
        let _head = self.head();
        self.pair_of(commit).prepare()
    }

    // The pair of the look with one of the commits.
    fn pair_of(&self, commit: u32) -> &Pair<T>
        requires { Contains self.now.others commit }
        ensures { result.now ≡ pair_in self.now commit }
    {
        for pair in &self.pairs {
            if pair.other == commit {
                return pair;
            }
        }
        unreachable!()
    }

    // The clock of one of the commits.
    fn clock_of(&self, commit: u32) -> u64
        requires { Contains self.now.others commit }
        ensures { result ≡ clock_of (store_of self.now.terms.origin self.now.history).commits
            commit }
    {
        self.pair_of(commit).clock
    }

    // The greatest clock of the head that was seen and of some of the commits.
    fn greatest_clock(&self, commits: &[u32]) -> u64
        requires { All (Contains self.now.others) commits.now }
        ensures { result ≡ greatest_clock (store_of self.now.terms.origin self.now.history).commits
            (self.now.head ∷ commits.now) }
    {
        let mut clock = self.seen.clock;
        for commit in commits {
            clock = clock.max(self.clock_of(*commit));
        }
        clock
    }

    // Makes the join of these commits ready, which are brought and several, given its value, unless the spelling of that
    // is too long.
    pub(crate) fn prepare_join(
        &self,
        brought: Vec<u32>,
        value: T,
    ) -> Result<PairStep<T>, PairPrepareRefused>
        requires brought { brought.items ≡ brought_by self.now }
        requires several { 2 ≤ length brought.items }
        requires value { T.meaning.stands value
            (visible_at_all (store_of self.now.terms.origin self.now.history).commits
            (self.now.head ∷ brought.items)) }
        ensures step { IfOk result (IsStepOfAll T.meaning self.now) }
        ensures refused { IfErr result (MergeAllRefusedAs T.meaning self.now) }
    {
        let _head = self.head();
        let seen = &self.seen;
        let ready = self.joined(brought, value)?;
        Ok(PairStep::Land(Prepared {
            seen: Snapshot::of(seen),
            origin: seen.origin(),
            branch: seen.branch,
            head: seen.head,
            ready,
        }))
    }

    // The join of these commits, which are brought and several, unless its value's spelling is too long.
    fn joined(
        &self,
        brought: Vec<u32>,
        value: T,
    ) -> Result<Ready<T, T::Op, T::Reply>, PairPrepareRefused>
        requires brought { brought.items ≡ brought_by self.now }
        requires several { 2 ≤ length brought.items }
        requires value { T.meaning.stands value
            (visible_at_all (store_of self.now.terms.origin self.now.history).commits
            (self.now.head ∷ brought.items)) }
        ensures ready { IfOk result (IsJoinReady T.meaning (look_of self.now) brought.items) }
        ensures refused { IfErr result (MergeAllRefusedAs T.meaning self.now) }
    {
        let _head = self.head();
        let seen = &self.seen;
        let spelled = SpelledValue::new::<T>(seen.alloc, seen.terms.layout, &value)?;
        let length = spelled.size;
        if length > seen.terms.limits.value {
            return Err(PairPrepareRefused::ValueTooLarge { length });
        }
        let clock = self.greatest_clock(&brought);
        Ok(Ready::Join {
            commits: Listing::from_vec(brought),
            clock,
            value,
            spelled,
        })
    }
}

// What a merge into a commit brings of several others, in the order in which they are given.
pub(crate) fn brought_of<T: Mrdt>(
    nodes: &Nodes<T>,
    head: u32,
    others: &[u32],
) -> Result<Vec<u32>, Memory>
    requires head { head < length nodes.now.graph.commits }
    requires others { All (λ n. n < length nodes.now.graph.commits) others.now }
    ensures { IfOk result (λ found. found.items ≡ brought nodes.now.graph.commits head others.now) }
{
    let mut found = Vec::new(nodes.alloc());
    for (place, commit) in others.iter().enumerate() {
        if is_brought(nodes, head, others, place)? {
            found.push(*commit)?;
        }
    }
    Ok(found)
}

// Whether the commit at this place is brought: it is the first of its number, the head does not reach it, and it lies
// below no other one.
fn is_brought<T: Mrdt>(
    nodes: &Nodes<T>,
    head: u32,
    others: &[u32],
    place: usize,
) -> Result<bool, Memory>
    requires head { head < length nodes.now.graph.commits }
    requires others { All (λ n. n < length nodes.now.graph.commits) others.now }
    requires place { place < length others.now }
    ensures { IfOk result (λ is. is ≡ brings nodes.now.graph.commits head others.now place) }
{
    let commit = others[place];
    if others[..place].contains(&commit) || nodes.reaches(head, commit)? {
        return Ok(false);
    }
    Ok(!is_below(nodes, others, commit)?)
}

// Whether a commit lies below another one of several.
fn is_below<T: Mrdt>(nodes: &Nodes<T>, others: &[u32], commit: u32) -> Result<bool, Memory>
    requires commit { commit < length nodes.now.graph.commits }
    requires others { All (λ n. n < length nodes.now.graph.commits) others.now }
    ensures { IfOk result (λ is. is ≡ is_below nodes.now.graph.commits others.now commit) }
{
    for other in others {
        if *other != commit && nodes.reaches(*other, commit)? {
            return Ok(true);
        }
    }
    Ok(false)
}
