// A history as a graph in the language DOT.
ghost use Rattle.std.specs.Prelude.{◌≡◌, ◌<◌, ◌++◌, [], length, OnOk};
ghost use Rattle.std.specs.List.{flat_map};
ghost use Rattle.std.specs.Option.{option_map_or};
ghost use Rattle.branch_history.specs.History.{store_of};
ghost use Rattle.branch_history.specs.Validity.{IsValid};
ghost use Rattle.branch_log.specs.Graphs.{edge_text, label_time, commit_node, commits_text, head_node};
ghost use Rattle.branch_log.specs.Made.{event_told, told_at};

use crate::pieces::put_time;
use crate::reading::{Commits, Made, read_commits};
use branch_history::Move;
use branch_names::{Name, Terms};
use branch_print::pieces::{put_pieces, put_text};
use itoa::Buffer;
use mrdt_model::{Memory, Mrdt};
use std::alloc::Global;

// An edge from a commit to a parent.
fn put_edge(out: &mut Vec<u8>, number: u32, parent: u32) -> Result<(), Memory>
    ensures { OnOk result (out.new.items ≡ out.old.items ++ edge_text number parent) }
{
    let mut number_digits = Buffer::new();
    let mut parent_digits = Buffer::new();
    put_pieces(
        out,
        &[
            b"  c",
            number_digits.format(number).as_bytes(),
            b" -> c",
            parent_digits.format(parent).as_bytes(),
            b";\n",
        ],
    )
}

// The edges from a commit to its parents.
fn put_edges(out: &mut Vec<u8>, number: u32, parents: &[u32]) -> Result<(), Memory>
    ensures { OnOk result
        (out.new.items ≡ out.old.items ++ flat_map (edge_text number) parents.now) }
{
    for parent in parents {
        put_edge(out, number, *parent)?;
    }
    Ok(())
}

// The time of a commit's operation behind the number of the commit, if it has one.
fn put_label_time<O, R>(out: &mut Vec<u8>, moves: &[Move<O, R>], made: Made) -> Result<(), Memory>
    ensures { OnOk result
        (out.new.items ≡ out.old.items ++ label_time (event_told moves.now made)) }
{
    if made.act(moves).is_none() {
        return Ok(());
    }
    put_text(out, b" ")?;
    put_time(out, made.time())
}

// A commit and the edges to its parents.
fn put_commit<O, R>(
    out: &mut Vec<u8>,
    moves: &[Move<O, R>],
    commits: &Commits,
    number: u32,
) -> Result<(), Memory>
    requires made { number < length commits.now.made.items }
    requires parents { number < length commits.now.graph.commits }
    ensures { OnOk result (out.new.items ≡ out.old.items ++ option_map_or (commit_node number)
        (told_at moves.now commits.now.graph.commits commits.now.made.items number) []) }
{
    let mut digits = Buffer::new();
    let digits = digits.format(number).as_bytes();
    put_pieces(out, &[b"  c", digits, b" [label=\"#", digits])?;
    put_label_time(out, moves, commits.made[number as usize])?;
    put_text(out, b"\"];\n")?;
    put_edges(out, number, commits.graph.parents(number))
}

/// All commits of a history by rising number, each with the edges to its parents behind it:
/// `  c3 [label="#3 2.1"];`, `  c3 -> c1;`. It goes over the moves twice and over the commits once.
pub fn put_commits<T: Mrdt>(
    alloc: Global,
    out: &mut Vec<u8>,
    terms: Terms,
    moves: &[Move<T::Op, T::Reply>],
) -> Result<(), Memory>
    requires { IsValid T.meaning terms moves.now }
    ensures { OnOk result (out.new.items
        ≡ out.old.items ++ commits_text (store_of terms.origin moves.now).commits) }
{
    let commits = read_commits::<T>(alloc, terms, moves)?;
    for number in 0..commits.graph.count() {
        put_commit(out, moves, &commits, number)?;
    }
    Ok(())
}

/// A branch and the edge to its head: `  b1 [label="draft" shape=box];`, `  b1 -> c3;`.
pub fn put_branch(out: &mut Vec<u8>, number: u32, name: &Name, head: u32) -> Result<(), Memory>
    ensures { OnOk result (out.new.items ≡ out.old.items ++ head_node number name.now head) }
{
    let mut number_digits = Buffer::new();
    let mut head_digits = Buffer::new();
    let number_digits = number_digits.format(number).as_bytes();
    put_pieces(
        out,
        &[
            b"  b",
            number_digits,
            b" [label=\"",
            name.as_bytes(),
            b"\" shape=box];\n  b",
            number_digits,
            b" -> c",
            head_digits.format(head).as_bytes(),
            b";\n",
        ],
    )
}
