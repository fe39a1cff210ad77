// The parents of each commit.
ghost use Rattle.std.specs.Prelude.{◌≡◌, ℕ, ◌+◌, ◌-◌, ◌/◌, ◌^◌, ◌<◌, ◌≤◌, ◌↔◌, [], ◌∷◌, ◌++◌, All, Some, length, take, IfOk, IfSome, IfNone, OnOk, OnErr, IsErrOf};
ghost use Rattle.branch_graph.specs.Graph.{parents_of, HasParents, reaches, maximal_common, IsRanked};

use crate::parents::Parents;
use crate::walk;
use counted_steps::Steps;
use mrdt_model::{Listing, Memory};
use shared_chunks::Chunks;
use std::alloc::Global;
use std::marker::{Brand, Model};
use std::sync::ledger::{Blank, Ledger};
use thiserror::Error;

/// Why a commit was not put into a graph.
#[derive(Clone, Copy, Debug, PartialEq, Eq, Error)]
pub enum PushRefused {
    /// The graph holds this many commits, and may not hold more.
    #[error("the graph holds its limit of {count} commits")]
    Full { count: u32 },
    /// Want of memory.
    #[error("out of memory")]
    Memory,
}

impl From<Memory> for PushRefused {
    ghost use Rattle.std.specs.Prelude.{◌≡◌};
    ghost use Rattle.branch_graph.specs.declared.graph.PushRefused.TheVariants as refused;

    ghost from_gives = { λ _ error. error ≡ refused.Memory };

    fn from(_: Memory) -> PushRefused {
        PushRefused::Memory
    }
}

/// The commits of a store by number, each with its parents, which have smaller numbers. Contracts see an
/// `Ancestry`: the limit and the list of the commits' lists of parents. They are kept in chunks of 1,024 commits,
/// and graphs share each full one. Each chunk knows its commits by their two parents.
#[derive(Drop)]
pub struct Graph {
    limit: u32,
    commits: Chunks<Parents>,
}

impl Model for Graph {
    ghost use Rattle.branch_graph.specs.Graph.{Ancestry, IsWithin};

    ghost Value = { Ancestry };

    ghost view = { λ g. record { limit = g.limit; commits = g.commits } };

    ghost invariant = { λ g. IsWithin g.limit g.commits };
}

impl Graph {
    /// A graph of no commits, for at most `limit`. It takes no memory.
    pub fn new(alloc: Global, limit: u32) -> Graph
        ensures { result ≡ record { limit = limit; commits = [] } }
    {
        Graph {
            limit,
            commits: Chunks::new(alloc),
        }
    }

    /// How many commits there are, which is within the limit. Parents have smaller numbers.
    pub fn count(&self) -> u32
        ensures count { result ≡ length self.now.commits }
        ensures within { length self.now.commits ≤ self.now.limit }
        ensures few { self.now.limit < 2 ^ 32 }
        ensures ranked { IsRanked self.now.commits }
    {
        self.commits.len()
    }

    /// The parents of a commit, which have smaller numbers.
    pub fn parents(&self, number: u32) -> &[u32]
        requires { number < length self.now.commits }
        ensures parents { result.now ≡ parents_of self.now.commits number }
        ensures smaller { All (λ parent. parent < number) result.now }
    {
        self.commits.get(number as usize).as_slice()
    }

    /// A commit that has these two parents, in one order or the other, if there is one.
    pub fn merge_of(&self, one: u32, other: u32) -> Option<u32>
        ensures there { IfSome result (λ n. n < length self.now.commits) }
        ensures has { IfSome result (λ n. HasParents self.now.commits n one other) }
        ensures none { IfNone result ((n : ℕ) → ¬ HasParents self.now.commits n one other) }
    {
        let pair = (one.min(other), one.max(other));
        // parents have smaller numbers
        match self.commits.find(pair, pair.1 as usize) {
            Some(number) => Some(number as u32),
            None => None,
        }
    }

    /// Puts a commit with these parents behind the others, and says its number. `Full` comes exactly where the
    /// limit is held. The last chunk is filled in place, unless another graph shares it: then it is copied.
    pub fn push(&mut self, parents: &[u32]) -> Result<u32, PushRefused>
        requires { All (λ parent. parent < length self.old.commits) parents.now }
        ensures number { IfOk result (λ number. number ≡ length self.old.commits) }
        ensures pushed { OnOk result
            (self.new ≡ record self.old { commits = self.old.commits ++ parents.now ∷ [] }) }
        ensures room { OnOk result (length self.old.commits < self.old.limit) }
        ensures full { (count : ℕ) → IsErrOf result (PushRefused.Full count)
            ↔ ((self.old.limit ≤ count) × (length self.old.commits ≡ count)) }
        ensures kept { OnErr result (self.new ≡ self.old) }
    {
        let count = self.count();
        if count >= self.limit {
            return Err(PushRefused::Full { count });
        }
        let parents = Parents::from_slice(self.commits.alloc(), parents)?;
        self.commits.push(parents)?;
        Ok(count)
    }

    /// Takes the last commit off again, and no memory: so a store that pushes a commit before it writes takes all
    /// memory first, and undoes the push where the write fails.
    pub fn pop(&mut self)
        requires { 0 < length self.old.commits }
        ensures { self.new
            ≡ record self.old { commits = take (length self.old.commits - 1) self.old.commits } }
    {
        self.commits.pop();
    }

    /// The graph with one commit more, beside this one: the full chunks are shared. It is refused as a push is. A
    /// step is one shared chunk, or one commit, that is copied or put.
    pub fn with<L: Ledger>(
        &self,
        parents: &[u32],
        steps: &mut Steps<L>,
    ) -> Result<Graph, PushRefused>
        requires { All (λ parent. parent < length self.now.commits) parents.now }
        ensures longer { IfOk result (λ graph.
            graph ≡ record self.now { commits = self.now.commits ++ parents.now ∷ [] }) }
        ensures room { OnOk result (length self.now.commits < self.now.limit) }
        ensures full { (count : ℕ) → IsErrOf result (PushRefused.Full count)
            ↔ ((self.now.limit ≤ count) × (length self.now.commits ≡ count)) }
        ensures steps { steps.new ≤ steps.old + (length self.now.commits / 1024 + 1024) }
    {
        let count = self.count();
        if self.limit <= count {
            return Err(PushRefused::Full { count });
        }
        let parents = Parents::from_slice(self.commits.alloc(), parents)?;
        let commits = self.commits.with(parents, steps)?;
        Ok(Graph {
            limit: self.limit,
            commits,
        })
    }

    /// Whether a commit is another one or lies above it.
    pub fn reaches(&self, above: u32, below: u32) -> Result<bool, Memory>
        requires above { above < length self.now.commits }
        requires below { below < length self.now.commits }
        ensures { IfOk result (λ is. is ≡ reaches self.now.commits above below) }
    {
        reaches_uncounted::<Brand>(self, above, below, Blank::new(1))
    }

    /// The same, with a count of steps: a step is one commit taken in the walk. Where `below` has the greater
    /// number, the answer takes no step.
    pub fn reaches_counted<L: Ledger>(
        &self,
        above: u32,
        below: u32,
        steps: &mut Steps<L>,
    ) -> Result<bool, Memory>
        requires above { above < length self.now.commits }
        requires below { below < length self.now.commits }
        ensures value { IfOk result (λ is. is ≡ reaches self.now.commits above below) }
        ensures none { above < below → steps.new ≡ steps.old }
        ensures steps { below ≤ above → steps.new ≤ steps.old + (above - below + 1) }
    {
        let alloc = self.commits.alloc();
        if above < below {
            return Ok(false);
        }
        walk::reaches(alloc, self, above, below, steps)
    }

    /// The maximal common ancestors of two lists of commits, by rising number: the commits that both lists
    /// reach and of which none lies below another.
    pub fn maximal_common(&self, left: &[u32], right: &[u32]) -> Result<Listing<u32>, Memory>
        requires left { All (λ n. n < length self.now.commits) left.now }
        requires right { All (λ n. n < length self.now.commits) right.now }
        ensures { IfOk result (λ listing.
            listing ≡ maximal_common self.now.commits left.now right.now) }
    {
        maximal_common_uncounted::<Brand>(self, left, right, Blank::new(1))
    }

    /// The same, with a count of steps: a step is one commit taken in the walk, and there are at most one more
    /// than the greatest number in the lists.
    pub fn maximal_common_counted<L: Ledger>(
        &self,
        left: &[u32],
        right: &[u32],
        steps: &mut Steps<L>,
    ) -> Result<Listing<u32>, Memory>
        requires left { All (λ n. n < length self.now.commits) left.now }
        requires right { All (λ n. n < length self.now.commits) right.now }
        ensures value { IfOk result (λ listing.
            listing ≡ maximal_common self.now.commits left.now right.now) }
        ensures steps { (greatest : ℕ) → All (λ n. n ≤ greatest) left.now
            → All (λ n. n ≤ greatest) right.now → steps.new ≤ steps.old + (greatest + 1) }
    {
        let mut found = walk::maximal_common(self.commits.alloc(), self, left, right, steps)?;
        found.reverse();
        Ok(Listing::from_vec(found))
    }

    /// The same graph. It shares each chunk.
    pub fn copy(&self) -> Result<Graph, Memory>
        ensures { IfOk result (λ graph. graph ≡ self.now) }
    {
        copy_uncounted::<Brand>(self, Blank::new(1))
    }
}

// The same graph, with steps that nobody counts.
fn copy_uncounted<L: Ledger>(graph: &Graph, blank: Blank) -> Result<Graph, Memory>
    requires name { blank.name ≡ L.name }
    requires parts { blank.parts ≡ L.parts }
    requires some { 0 < blank.parts }
    ensures { IfOk result (λ copy. copy ≡ graph.now) }
{
    Ok(Graph {
        limit: graph.limit,
        commits: graph.commits.copy(&mut Steps::<L>::none(blank))?,
    })
}

// Whether a commit reaches another, with steps that nobody counts.
fn reaches_uncounted<L: Ledger>(
    graph: &Graph,
    above: u32,
    below: u32,
    blank: Blank,
) -> Result<bool, Memory>
    requires name { blank.name ≡ L.name }
    requires parts { blank.parts ≡ L.parts }
    requires some { 0 < blank.parts }
    requires above { above < length graph.now.commits }
    requires below { below < length graph.now.commits }
    ensures { IfOk result (λ is. is ≡ reaches graph.now.commits above below) }
{
    graph.reaches_counted(above, below, &mut Steps::<L>::none(blank))
}

// The maximal common ancestors, with steps that nobody counts.
fn maximal_common_uncounted<L: Ledger>(
    graph: &Graph,
    left: &[u32],
    right: &[u32],
    blank: Blank,
) -> Result<Listing<u32>, Memory>
    requires name { blank.name ≡ L.name }
    requires parts { blank.parts ≡ L.parts }
    requires some { 0 < blank.parts }
    requires left { All (λ n. n < length graph.now.commits) left.now }
    requires right { All (λ n. n < length graph.now.commits) right.now }
    ensures { IfOk result (λ listing.
        listing ≡ maximal_common graph.now.commits left.now right.now) }
{
    graph.maximal_common_counted(left, right, &mut Steps::<L>::none(blank))
}
