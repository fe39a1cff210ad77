// The compact history of a store's, and the commits that it keeps.
ghost use Rattle.std.specs.Prelude.{◌≡◌, ℕ, length, IfOk};
ghost use Rattle.branch_history.specs.Commits.{graph_of};
ghost use Rattle.branch_history.specs.History.{store_of};
ghost use Rattle.branch_history.specs.Validity.{IsValid};
ghost use Rattle.branch_compact.specs.Compact.{compact as compact_of, is_live};
ghost use Rattle.branch_compact.specs.Marks.{is_marked};

use crate::kept::{Kept, keep_moves};
use crate::marks::mark_live;
use crate::reading::read_moves;
use branch_graph::Graph;
use branch_history::Move;
use branch_history::laws::{keeps_limits, keeps_order};
use branch_names::Terms;
use mrdt_model::{Listing, Memory, Mrdt};
use std::alloc::Global;

/// The parents of each commit of a valid history. It goes over the moves once.
pub fn graph_of_moves<T: Mrdt>(
    alloc: Global,
    terms: Terms,
    moves: &[Move<T::Op, T::Reply>],
) -> Result<Graph, Memory>
    requires { IsValid T.meaning terms moves.now }
    ensures { IfOk result (λ graph.
        graph.commits ≡ graph_of (store_of terms.origin moves.now).commits) }
{
    let read = read_moves::<T>(alloc, terms, moves)?;
    Ok(read.graph)
}

/// Marks on the commits of a valid history that are live: those that the head of a branch reaches that was not dropped.
/// There is one for each commit. It goes over the moves once, and over the parents of each commit once.
pub fn live_commits<T: Mrdt>(
    alloc: Global,
    terms: Terms,
    moves: &[Move<T::Op, T::Reply>],
) -> Result<Vec<bool>, Memory>
    requires { IsValid T.meaning terms moves.now }
    ensures count { IfOk result (λ marks.
        length marks.items ≡ length (store_of terms.origin moves.now).commits) }
    ensures live { IfOk result (λ marks. (n : ℕ) → is_marked marks.items n
        ≡ is_live (store_of terms.origin moves.now) n) }
{
    keeps_order::<T>();
    let read = read_moves::<T>(alloc, terms, moves)?;
    let marks = mark_live(alloc, &read.graph, &read.branches)?;
    Ok(marks)
}

/// The compact history of a valid one, given marks on its live commits, as `live_commits` gives them: without the
/// commits that have no mark, and numbered anew. It goes over the moves once.
pub fn compact_marked<T: Mrdt>(
    alloc: Global,
    terms: Terms,
    marks: Vec<bool>,
    moves: Listing<Move<T::Op, T::Reply>>,
) -> Result<Listing<Move<T::Op, T::Reply>>, Memory>
    requires valid { IsValid T.meaning terms moves }
    requires count { length marks.items ≡ length (store_of terms.origin moves).commits }
    requires live { (n : ℕ) → is_marked marks.items n ≡ is_live (store_of terms.origin moves) n }
    ensures { IfOk result (λ fewer. fewer ≡ compact_of terms moves) }
{
    keeps_limits::<T>();
    let kept = Kept::new(alloc, marks)?;
    let fewer = keep_moves(alloc, &kept, moves)?;
    Ok(fewer)
}

/// The compact history of a valid one, under the same terms: without the commits that no head of a
/// branch reaches that was not dropped, and numbered anew. It goes over the moves twice, and over the
/// parents of each commit once.
pub fn compact<T: Mrdt>(
    alloc: Global,
    terms: Terms,
    moves: Listing<Move<T::Op, T::Reply>>,
) -> Result<Listing<Move<T::Op, T::Reply>>, Memory>
    requires { IsValid T.meaning terms moves }
    ensures { IfOk result (λ fewer. fewer ≡ compact_of terms moves) }
{
    let marks = live_commits::<T>(alloc, terms, moves.as_slice())?;
    compact_marked::<T>(alloc, terms, marks, moves)
}
