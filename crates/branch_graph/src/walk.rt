// The walks that answer of reach: commits are taken from those that wait, the greatest number first.
ghost use Rattle.std.specs.Prelude.{◌≡◌, ℕ, ◌+◌, ◌-◌, ◌<◌, ◌≤◌, true, false, ◌||◌, ◌&&◌, ◌++◌, [], ◌∷◌, cond, filter, All, length, IfOk, OnOk};
ghost use Rattle.branch_graph.specs.Graph.{parents_of, reaches, is_maximal_common, falling};
ghost use Rattle.branch_graph.specs.Paints.{Colour, has, for_parents, is_member, is_painted, is_among, WaitsBelow};

use crate::Graph;
use crate::waiting::{Paint, Waiting};
use counted_steps::Steps;
use mrdt_model::Memory;
use std::alloc::Global;
use std::sync::ledger::Ledger;

// Whether a commit reaches another. A step is one commit taken.
pub(crate) fn reaches<L: Ledger>(
    alloc: Global,
    graph: &Graph,
    above: u32,
    below: u32,
    steps: &mut Steps<L>,
) -> Result<bool, Memory>
    requires above { above < length graph.now.commits }
    requires ordered { below ≤ above }
    ensures value { IfOk result (λ is. is ≡ reaches graph.now.commits above below) }
    ensures steps { steps.new ≤ steps.old + (above - below + 1) }
{
    let mut waiting = Waiting::new(alloc);
    waiting.paint(above, Paint::left())?;
    // each commit that waits has a smaller number
    let mut end = graph.count();
    while let Some((number, _)) = waiting.take(steps) {
        if number == below {
            return Ok(true);
        }
        waiting.paint_from(graph.parents(number), below, Paint::left())?;
        end = number;
    }
    Ok(false)
}

// The maximal common ancestors of two lists of commits, by falling number. A step is one commit taken.
pub(crate) fn maximal_common<L: Ledger>(
    alloc: Global,
    graph: &Graph,
    left: &[u32],
    right: &[u32],
    steps: &mut Steps<L>,
) -> Result<Vec<u32>, Memory>
    requires left { All (λ n. n < length graph.now.commits) left.now }
    requires right { All (λ n. n < length graph.now.commits) right.now }
    ensures found { IfOk result (λ found.
        found.items ≡ filter (is_maximal_common graph.now.commits left.now right.now)
        (falling (length graph.now.commits))) }
    ensures steps { (greatest : ℕ) → All (λ n. n ≤ greatest) left.now
        → All (λ n. n ≤ greatest) right.now → steps.new ≤ steps.old + (greatest + 1) }
{
    let mut waiting = painted(alloc, left, right)?;
    let mut found = Vec::new(alloc);
    // each commit that waits has a smaller number
    let mut end = graph.count();
    while let Some((number, paint)) = waiting.take(steps) {
        visit(graph, number, paint, &mut waiting, &mut found)?;
        end = number;
    }
    Ok(found)
}

// The commits of two lists, painted.
fn painted(alloc: Global, left: &[u32], right: &[u32]) -> Result<Waiting, Memory>
    ensures painted { IfOk result (λ waiting. (colour : Colour) (n : ℕ)
        → is_painted waiting colour n
        ≡ ((has colour (record { left = true; right = false; below = false }) && is_among left.now
        n) || (has colour (record { left = false; right = true; below = false }) && is_among
        right.now n))) }
    ensures below { IfOk result (λ waiting. (end : ℕ) → All (λ n. n < end) left.now
        → All (λ n. n < end) right.now → WaitsBelow waiting end) }
{
    let mut waiting = Waiting::new(alloc);
    waiting.paint_all(left, Paint::left())?;
    waiting.paint_all(right, Paint::right())?;
    Ok(waiting)
}

// Puts a commit that was taken behind what was found, if it is a member, and paints its parents.
fn visit(
    graph: &Graph,
    number: u32,
    paint: Paint,
    waiting: &mut Waiting,
    found: &mut Vec<u32>,
) -> Result<(), Memory>
    requires { number < length graph.now.commits }
    ensures found { OnOk result (found.new.items ≡ found.old.items ++ cond (is_member paint)
        (number ∷ []) []) }
    ensures painted { OnOk result ((colour : Colour) (n : ℕ)
        → is_painted waiting.new colour n
        ≡ (is_painted waiting.old colour n || (has colour (for_parents paint) && is_among
        (parents_of graph.now.commits number) n))) }
    ensures below { OnOk result ((end : ℕ) → number ≤ end → WaitsBelow waiting.old end
        → WaitsBelow waiting.new end) }
{
    if paint.is_member() {
        found.push(number)?;
    }
    waiting.paint_all(graph.parents(number), paint.for_parents())?;
    Ok(())
}
