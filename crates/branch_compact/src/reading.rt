// The parents of each commit of a history, and its branches.
ghost use Rattle.std.specs.Prelude.{◌≡◌, ◌+◌, ◌<◌, ◌≤◌, All, ◌∷◌, ◌++◌, [], length, IfOk, OnOk};
ghost use Rattle.branch_names.specs.Heads.{head_of, with_head, with_branch, with_drop, main_alone};
ghost use Rattle.branch_history.specs.History.{store_of};
ghost use Rattle.branch_history.specs.Validity.{IsValid};
ghost use Rattle.branch_compact.specs.Compact.{commits_made as commits_made_by};
ghost use Rattle.branch_compact.specs.Marks.{IsReadOf, HasParts, HasHead, parents_after, branches_after};

use branch_graph::{Graph, PushRefused};
use branch_history::Move;
use branch_history::laws::{keeps_limits, keeps_order};
use branch_names::{Branch, Name, Terms};
use mrdt_model::{Memory, Mrdt};
use std::alloc::Global;

// The parents of each commit, and the branches.
#[derive(Drop)]
pub(crate) struct Read {
    pub(crate) graph: Graph,
    pub(crate) branches: Vec<Branch>,
}

// Puts a commit with these parents behind the others, and says its number.
fn push_commit(graph: &mut Graph, parents: &[u32]) -> Result<u32, Memory>
    requires there { All (λ parent. parent < length graph.old.commits) parents.now }
    requires room { length graph.old.commits < graph.old.limit }
    ensures number { IfOk result (λ number. number ≡ length graph.old.commits) }
    ensures pushed { OnOk result
        (graph.new ≡ record graph.old { commits = graph.old.commits ++ parents.now ∷ [] }) }
{
    match graph.push(parents) {
        Ok(number) => Ok(number),
        Err(PushRefused::Full { .. }) => unreachable!(),
        Err(PushRefused::Memory) => Err(Memory),
    }
}

// The head of a branch.
fn head_at(branches: &[Branch], branch: u32) -> u32
    requires { branch < length branches.now }
    ensures { result ≡ head_of branches.now branch }
{
    branches[branch as usize].head
}

// Moves the head of a branch.
fn move_head(branches: &mut Vec<Branch>, branch: u32, head: u32)
    requires { branch < length branches.old.items }
    ensures { branches.new.items ≡ with_head branches.old.items branch head }
{
    branches[branch as usize].head = head;
}

// Drops a branch.
fn drop_branch(branches: &mut Vec<Branch>, branch: u32)
    requires { branch < length branches.old.items }
    ensures { branches.new.items ≡ with_drop branches.old.items branch }
{
    branches[branch as usize].dropped = true;
}

// Puts a new branch with a head behind the others.
fn push_branch(branches: &mut Vec<Branch>, name: Name, head: u32) -> Result<(), Memory>
    ensures { OnOk result (branches.new.items ≡ with_branch branches.old.items name head) }
{
    branches.push(Branch {
        name,
        head,
        dropped: false,
    })?;
    Ok(())
}

// A number in front of others.
fn in_front(alloc: Global, first: u32, others: &[u32]) -> Result<Vec<u32>, Memory>
    ensures { IfOk result (λ all. all.items ≡ first ∷ others.now) }
{
    let mut all = Vec::new(alloc);
    all.push(first)?;
    all.extend_from_slice(others)?;
    Ok(all)
}

// Puts a commit behind the others, as the head of a branch: its parents are the old head, and others.
fn push_head(
    alloc: Global,
    graph: &mut Graph,
    branches: &mut Vec<Branch>,
    branch: u32,
    others: &[u32],
) -> Result<(), Memory>
    requires head { HasHead graph.old.commits branches.old.items branch }
    requires there { All (λ parent. parent < length graph.old.commits) others.now }
    requires room { length graph.old.commits < graph.old.limit }
    ensures pushed { let head = head_of branches.old.items branch in
        OnOk result (graph.new
        ≡ record graph.old { commits = graph.old.commits ++ (head ∷ others.now) ∷ [] }) }
    ensures moved { OnOk result
        (branches.new.items ≡ with_head branches.old.items branch (length graph.old.commits)) }
{
    let head = head_at(branches, branch);
    let parents = in_front(alloc, head, others)?;
    let number = push_commit(graph, &parents)?;
    move_head(branches, branch, number);
    Ok(())
}

// Reads one move more.
fn read_move<O, R>(
    alloc: Global,
    graph: &mut Graph,
    branches: &mut Vec<Branch>,
    made: &Move<O, R>,
) -> Result<(), Memory>
    requires there { HasParts graph.old.commits branches.old.items made.now }
    requires room { length graph.old.commits + commits_made_by made.now ≤ graph.old.limit }
    ensures parents { OnOk result
        (graph.new.commits ≡ parents_after graph.old.commits branches.old.items made.now) }
    ensures branches { OnOk result
        (branches.new.items ≡ branches_after graph.old.commits branches.old.items made.now) }
    ensures limit { OnOk result (graph.new.limit ≡ graph.old.limit) }
{
    match made {
        Move::Fork { name, from, .. } => {
            let head = head_at(branches, *from);
            push_branch(branches, *name, head)
        }
        Move::Operation { branch, .. } => push_head(alloc, graph, branches, *branch, &[]),
        Move::Merge { branch, commit } => push_head(alloc, graph, branches, *branch, &[*commit]),
        Move::Join { branch, commits } => {
            push_head(alloc, graph, branches, *branch, commits.as_slice())
        }
        Move::Forward { branch, commit } => {
            move_head(branches, *branch, *commit);
            Ok(())
        }
        Move::Received { parents, .. } => {
            let _ = push_commit(graph, parents.as_slice())?;
            Ok(())
        }
        Move::Place { name, commit, .. } => push_branch(branches, *name, *commit),
        Move::Drop { branch } => {
            drop_branch(branches, *branch);
            Ok(())
        }
    }
}

// What is read of a history before any move.
fn read_none(alloc: Global, limit: u32) -> Result<Read, Memory>
    requires { 0 < limit }
    ensures graph { IfOk result (λ read. read.graph ≡ record { limit = limit; commits = [] ∷ [] }) }
    ensures branches { IfOk result (λ read. read.branches.items ≡ main_alone) }
{
    let mut graph = Graph::new(alloc, limit);
    let _ = push_commit(&mut graph, &[])?;
    let mut branches = Vec::new(alloc);
    push_branch(&mut branches, Name::main(), 0)?;
    Ok(Read { graph, branches })
}

// The parents of each commit of a valid history, and its branches.
pub(crate) fn read_moves<T: Mrdt>(
    alloc: Global,
    terms: Terms,
    moves: &[Move<T::Op, T::Reply>],
) -> Result<Read, Memory>
    requires { IsValid T.meaning terms moves.now }
    ensures { IfOk result (λ read.
        IsReadOf (store_of terms.origin moves.now) read.graph.commits read.branches.items) }
{
    keeps_limits::<T>();
    keeps_order::<T>();
    let mut read = read_none(alloc, terms.limits.commits)?;
    for made in moves {
        read_move(alloc, &mut read.graph, &mut read.branches, made)?;
    }
    Ok(read)
}
