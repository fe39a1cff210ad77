// Marks on the commits that one reaches.
ghost use Rattle.std.specs.Prelude.{◌≡◌, ℕ, ◌^◌, ◌<◌, true, false, length, replicate, slice_set, IfOk};
ghost use Rattle.branch_graph.specs.Graph.{reaches};
ghost use Rattle.branch_compact.specs.Marks.{is_marked};

use branch_compact::mark_reached;
use branch_graph::Graph;
use mrdt_model::Memory;
use std::alloc::Global;

// So many marks, of which one is on this commit.
fn one_mark(alloc: Global, count: u32, at: u32) -> Result<Vec<bool>, Memory>
    requires { at < count }
    ensures count { IfOk result (λ marks. length marks.items ≡ count) }
    ensures marks { IfOk result (λ marks.
        marks.items ≡ slice_set (replicate count false) at true) }
{
    let mut marks = vec![in alloc; false; count as usize]?;
    marks[at as usize] = true;
    Ok(marks)
}

// A mark for each commit, which is on those that this one reaches.
pub(crate) fn marks_below(alloc: Global, graph: &Graph, at: u32) -> Result<Vec<bool>, Memory>
    requires { at < length graph.now.commits }
    ensures count { IfOk result (λ marks. length marks.items ≡ length graph.now.commits) }
    ensures few { length graph.now.commits < 2 ^ 32 }
    ensures marks { IfOk result (λ marks.
        (n : ℕ) → is_marked marks.items n ≡ reaches graph.now.commits at n) }
{
    let count = graph.count();
    let mut marks = one_mark(alloc, count, at)?;
    mark_reached(graph, &mut marks);
    Ok(marks)
}
