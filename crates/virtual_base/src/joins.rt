// The value of several commits together, as a merge of all of them has it.
ghost use Rattle.std.specs.Prelude.{◌≡◌, ◌<◌, ◌≤◌, All, length, IfOk, OnOk};
ghost use Rattle.virtual_base.specs.Maximal.{maximal_at};
ghost use Rattle.virtual_base.specs.Memos.{IsMemoOf, Holds, KeepsSeveral, SameLimit};
ghost use Rattle.virtual_base.specs.Nodes.{IsFold, AreParents};

use crate::bases::fold_kept;
use crate::memo::Memo;
use crate::nodes::Nodes;
use counted_steps::Steps;
use mrdt_model::{Memory, Mrdt};
use std::marker::Brand;
use std::sync::ledger::{Blank, Ledger};

/// The value of several commits together, in whatever order they are given: in every valid history whose nodes
/// these are, it stands for the events that are visible at some of them. It is the fold of those that lie
/// below no other of them.
pub fn value_at_all<T: Mrdt>(nodes: &Nodes<T>, commits: &[u32]) -> Result<T, Memory>
    requires { All (λ n. n < length nodes.now.graph.commits) commits.now }
    ensures value { IfOk result (IsFold T.meaning nodes.now commits.now) }
    ensures folded { IfOk result (IsFold T.meaning nodes.now (maximal_at nodes.now commits.now)) }
{
    let mut memo = Memo::new(nodes.alloc(), 256)?;
    uncounted::<T, Brand>(nodes, commits, &mut memo, Blank::new(1))
}

// The same, with steps that nobody counts.
fn uncounted<T: Mrdt, L: Ledger>(
    nodes: &Nodes<T>,
    commits: &[u32],
    memo: &mut Memo<T>,
    blank: Blank,
) -> Result<T, Memory>
    requires name { blank.name ≡ L.name }
    requires parts { blank.parts ≡ L.parts }
    requires some { 0 < blank.parts }
    requires commits { All (λ n. n < length nodes.now.graph.commits) commits.now }
    requires memo { IsMemoOf T.meaning nodes.now memo.old }
    ensures value { IfOk result (IsFold T.meaning nodes.now commits.now) }
    ensures folded { IfOk result (IsFold T.meaning nodes.now (maximal_at nodes.now commits.now)) }
{
    let mut steps = Steps::<L>::none(blank);
    value_at_all_kept(nodes, commits, memo, &mut steps)
}

/// The same value, with a memo of folds, and a count of merges: a step is one merge. It takes no step where the
/// memo holds the commits that lie below no other of them, where there is one such commit at most, and where
/// they are the two parents of a commit. Where they are several, the memo holds them afterwards, unless it was
/// refused memory.
pub fn value_at_all_kept<T: Mrdt, L: Ledger>(
    nodes: &Nodes<T>,
    commits: &[u32],
    memo: &mut Memo<T>,
    steps: &mut Steps<L>,
) -> Result<T, Memory>
    requires commits { All (λ n. n < length nodes.now.graph.commits) commits.now }
    requires memo { IsMemoOf T.meaning nodes.now memo.old }
    ensures value { IfOk result (IsFold T.meaning nodes.now commits.now) }
    ensures folded { IfOk result (IsFold T.meaning nodes.now (maximal_at nodes.now commits.now)) }
    ensures memo { IsMemoOf T.meaning nodes.now memo.new }
    ensures limit { SameLimit memo.old memo.new }
    ensures keeps { OnOk result (KeepsSeveral memo.new (maximal_at nodes.now commits.now)) }
    ensures held { Holds memo.old (maximal_at nodes.now commits.now) → steps.new ≡ steps.old }
    ensures few { length (maximal_at nodes.now commits.now) ≤ 1 → steps.new ≡ steps.old }
    ensures merged { AreParents nodes.now.graph.commits (maximal_at nodes.now commits.now)
        → steps.new ≡ steps.old }
{
    let maximal = nodes.maximal(commits)?;
    fold_kept(nodes, maximal, memo, steps)
}
