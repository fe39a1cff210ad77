// Two branches merged criss-cross, and a memo of their base.
ghost use Rattle.std.specs.Prelude.{◌≡◌, ◌<◌, All, false, length};
ghost use Rattle.branch_graph.specs.Graph.{maximal_common};
ghost use Rattle.virtual_base.specs.Memos.{IsMemoOf, KeepsList};

use counted_steps::Steps;
use mrdt_counter::Sum;
use mrdt_model::{Listing, Memory, Mrdt};
use std::alloc::Global;
use std::marker::Brand;
use std::process::Abort;
use std::sync::ledger::{Blank, Ledger};
use std::test::Fail;
use virtual_base::{Memo, Nodes, base, base_kept};

fn crosses_threads<T: Send + Sync>(_value: &T) {}

// An address for a number.
fn address_of(number: u32) -> [u8; 32] {
    [(number % 251) as u8; 32]
}

// Puts a commit behind the others.
fn pushed(rt: &impl Abort, nodes: &mut Nodes<Sum>, value: Sum, parents: &[u32]) -> u32 {
    let count = nodes.count();
    assert!(rt; parents.iter().all(|parent| *parent < count));
    nodes
        .push(value, parents, address_of(count))
        .expect(rt, "room and memory")
}

// A commit that adds to the value of another.
fn add(rt: &impl Abort, nodes: &mut Nodes<Sum>, parent: u32, amount: i64) -> u32 {
    assert!(rt; parent < nodes.count());
    let value = nodes.value(parent).added(amount);
    pushed(rt, nodes, value, &[parent])
}

// A commit that merges two.
fn merge(rt: &impl Abort, nodes: &mut Nodes<Sum>, left: u32, right: u32) -> u32 {
    assert!(rt; left < nodes.count());
    assert!(rt; right < nodes.count());
    let over = base(nodes, &[left], &[right]).expect(rt, "memory");
    let value = Sum::merged(&over, nodes.value(left), nodes.value(right));
    pushed(rt, nodes, value, &[left, right])
}

// The value of a commit.
fn value_at(rt: &impl Abort, nodes: &Nodes<Sum>, number: u32) -> i128 {
    assert!(rt; number < nodes.count());
    nodes.value(number).value()
}

// Commit 0, one commit on each of two branches, two merges of these, and one commit on each merge.
fn criss_cross(rt: &impl Abort, alloc: Global) -> Nodes<Sum> {
    let mut nodes = Nodes::new(alloc, 8);
    let root = pushed(rt, &mut nodes, Sum::initial(alloc), &[]);
    let one = add(rt, &mut nodes, root, 1);
    let two = add(rt, &mut nodes, root, 10);
    let three = merge(rt, &mut nodes, one, two);
    let four = merge(rt, &mut nodes, two, one);
    let _five = add(rt, &mut nodes, three, 100);
    let _six = add(rt, &mut nodes, four, 1000);
    nodes
}

// The base of two lists that was answered before, from the same memo: no step is taken unless the memo was
// refused memory.
fn base_again<T: Mrdt, L: Ledger>(
    nodes: &Nodes<T>,
    left: &[u32],
    right: &[u32],
    memo: &mut Memo<T>,
    steps: &mut Steps<L>,
) -> Result<T, Memory>
    requires left { All (λ n. n < length nodes.now.graph.commits) left.now }
    requires right { All (λ n. n < length nodes.now.graph.commits) right.now }
    requires memo { IsMemoOf T.meaning nodes.now memo.old }
    requires kept { 1 < length (maximal_common nodes.now.graph.commits left.now right.now)
        → KeepsList memo.old (maximal_common nodes.now.graph.commits left.now right.now) }
    ensures steps { memo.old.refused ≡ false → steps.new ≡ steps.old }
{
    base_kept(nodes, left, right, memo, steps)
}

// The base of two lists, twice, over one memo.
fn base_twice<T: Mrdt, L: Ledger>(
    nodes: &Nodes<T>,
    left: &[u32],
    right: &[u32],
    memo: &mut Memo<T>,
    blank: Blank,
) -> Result<(T, T), Memory>
    requires name { blank.name ≡ L.name }
    requires parts { blank.parts ≡ L.parts }
    requires some { 0 < blank.parts }
    requires left { All (λ n. n < length nodes.now.graph.commits) left.now }
    requires right { All (λ n. n < length nodes.now.graph.commits) right.now }
    requires memo { IsMemoOf T.meaning nodes.now memo.old }
{
    let mut steps = Steps::<L>::none(blank);
    let first = base_kept(nodes, left, right, memo, &mut steps)?;
    let second = base_again(nodes, left, right, memo, &mut steps)?;
    Ok((first, second))
}

// A merge over two maximal common ancestors. A memo keeps the fold of these.
#[test]
fn criss_cross_merges_have_a_virtual_base(rt: HostRuntime) -> Result<(), Fail> {
    let alloc = rt.alloc();
    let mut nodes = criss_cross(&rt, alloc);
    let mut memo = Memo::new(alloc, 8)?;
    crosses_threads(&nodes);
    crosses_threads(&memo);
    assert!(rt; nodes.count() == 7);
    assert!(rt; value_at(&rt, &nodes, 3) == 11 && value_at(&rt, &nodes, 4) == 11);
    assert!(rt; nodes.reaches(5, 2)? && !nodes.reaches(5, 6)?);
    let list = Listing::from_vec(vec![in alloc; 1, 2]?);
    assert!(rt; !memo.holds(&list));
    let (first, second) = base_twice::<Sum, Brand>(&nodes, &[5], &[6], &mut memo, Blank::new(1))?;
    assert!(rt; first.value() == 11 && second.value() == 11);
    assert!(rt; memo.holds(&list) && memo.count() == 1);
    let seven = merge(&rt, &mut nodes, 5, 6);
    assert!(rt; value_at(&rt, &nodes, seven) == 1111);
    Ok(())
}
