// Marks of commits: of those that stay.
ghost use Rattle.std.specs.Prelude.{◌≡◌, ℕ, ◌^◌, ◌<◌, ◌||◌, All, true, false, length, IfOk};
ghost use Rattle.branch_graph.specs.Graph.{parents_of};
ghost use Rattle.branch_graph.specs.Paints.{is_among};
ghost use Rattle.branch_compact.specs.Marks.{is_marked, is_kept_head, is_reached, AreMarkedBelow, AreNumbered};

use branch_graph::Graph;
use branch_names::Branch;
use mrdt_model::Memory;
use std::alloc::Global;

// So many marks, which are on the heads of the branches that were not dropped.
fn mark_heads(alloc: Global, count: u32, branches: &[Branch]) -> Result<Vec<bool>, Memory>
    requires { All (λ branch. branch.head < count) branches.now }
    ensures count { IfOk result (λ marks. length marks.items ≡ count) }
    ensures marks { IfOk result (λ marks.
        (n : ℕ) → is_marked marks.items n ≡ is_kept_head branches.now n) }
{
    let mut marks = vec![in alloc; false; count as usize]?;
    for branch in branches {
        if !branch.dropped {
            marks[branch.head as usize] = true;
        }
    }
    Ok(marks)
}

// Marks the commits of these numbers too.
fn mark_all(marks: &mut [bool], numbers: &[u32])
    requires { All (λ number. number < length marks.old) numbers.now }
    ensures { (n : ℕ) → is_marked marks.new n ≡ (is_marked marks.old n || is_among numbers.now n) }
{
    for number in numbers {
        marks[*number as usize] = true;
    }
}

// Marks the parents of a commit that is marked.
fn mark_parents(graph: &Graph, marks: &mut [bool], number: u32)
    requires there { number < length graph.now.commits }
    requires count { length marks.old ≡ length graph.now.commits }
    ensures marked { is_marked marks.old number ≡ true → (n : ℕ) → is_marked marks.new n
        ≡ (is_marked marks.old n || is_among (parents_of graph.now.commits number) n) }
    ensures plain { is_marked marks.old number ≡ false → marks.new ≡ marks.old }
{
    if marks[number as usize] {
        mark_all(marks, graph.parents(number));
    }
}

// Marks all commits too that those with marks reach: from the last to the first, each that is marked
// marks its parents.
fn mark_below(graph: &Graph, marks: &mut [bool])
    requires { length marks.old ≡ length graph.now.commits }
    ensures { AreMarkedBelow graph.now.commits marks.old marks.new }
{
    let mut number = graph.count();
    while number > 0 {
        number -= 1;
        mark_parents(graph, marks, number);
    }
}

/// Marks all commits too that those with marks reach. There is a mark for each commit. It goes once over the parents of
/// each commit that is marked then.
pub fn mark_reached(graph: &Graph, marks: &mut Vec<bool>)
    requires { length marks.old.items ≡ length graph.now.commits }
    ensures count { length marks.new.items ≡ length marks.old.items }
    ensures below { AreMarkedBelow graph.now.commits marks.old.items marks.new.items }
{
    mark_below(graph, marks);
}

// Marks on the commits that the heads of branches reach that were not dropped.
pub(crate) fn mark_live(
    alloc: Global,
    graph: &Graph,
    branches: &[Branch],
) -> Result<Vec<bool>, Memory>
    requires { All (λ branch. branch.head < length graph.now.commits) branches.now }
    ensures count { IfOk result (λ marks. length marks.items ≡ length graph.now.commits) }
    ensures few { length graph.now.commits < 2 ^ 32 }
    ensures live { IfOk result (λ marks.
        (n : ℕ) → is_marked marks.items n ≡ is_reached graph.now.commits branches.now n) }
{
    let end = graph.count();
    let mut marks = mark_heads(alloc, end, branches)?;
    mark_reached(graph, &mut marks);
    Ok(marks)
}

// The new number of each commit, and of one behind the last, where the marked ones are kept.
pub(crate) fn number_marked(alloc: Global, marks: &[bool]) -> Result<Vec<u32>, Memory>
    requires { length marks.now < 2 ^ 32 }
    ensures { IfOk result (λ numbers. AreNumbered marks.now numbers.items) }
{
    let mut numbers = Vec::new(alloc);
    let mut count: u32 = 0;
    for kept in marks {
        numbers.push(count)?;
        if *kept {
            count += 1;
        }
    }
    numbers.push(count)?;
    Ok(numbers)
}
