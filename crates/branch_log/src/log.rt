// The commits that one reaches, a line each.
ghost use Rattle.std.specs.Prelude.{◌≡◌, ◌<◌, ◌-◌, ◌++◌, [], codes, decimal, length, cond, IfOk, OnOk};
ghost use Rattle.branch_compact.specs.Marks.{is_marked};
ghost use Rattle.branch_history.specs.History.{store_of};
ghost use Rattle.branch_history.specs.Validity.{IsValid};
ghost use Rattle.branch_log.specs.Logs.{parents_text, merge_text, event_text, act_text, log_text};
ghost use Rattle.branch_log.specs.Made.{event_told};
ghost use Rattle.branch_log.specs.Told.{line_told, lines_told};

use crate::marks::marks_below;
use crate::pieces::put_time;
use crate::reading::{Commits, Made, read_commits};
use branch_history::Move;
use branch_names::Terms;
use branch_print::pieces::{put_number, put_text};
use branch_print::replies::{put_reply, takes_item};
use branch_tells::Tells;
use branch_words::put_op;
use mrdt_model::{Memory, Time};
use std::alloc::Global;

// A parent of a merge.
fn put_parent(out: &mut Vec<u8>, parent: u32) -> Result<(), Memory>
    ensures { OnOk result (out.new.items ≡ out.old.items ++ (codes " #" ++ decimal parent)) }
{
    put_text(out, b" #")?;
    put_number(out, u64::from(parent))
}

// The parents of a merge, in order.
fn put_parents(out: &mut Vec<u8>, parents: &[u32]) -> Result<(), Memory>
    ensures { OnOk result (out.new.items ≡ out.old.items ++ parents_text parents.now) }
{
    for parent in parents {
        put_parent(out, *parent)?;
    }
    Ok(())
}

// A commit without an operation.
fn put_merge(out: &mut Vec<u8>, parents: &[u32]) -> Result<(), Memory>
    ensures { OnOk result (out.new.items ≡ out.old.items ++ merge_text parents.now) }
{
    if parents.is_empty() {
        return put_text(out, b"root");
    }
    put_text(out, b"merge")?;
    put_parents(out, parents)
}

// An operation: its time, its words, and what its reply adds to them.
fn put_event<T: Tells>(
    out: &mut Vec<u8>,
    time: Time,
    op: &T::Op,
    reply: &T::Reply,
) -> Result<(), Memory>
    ensures { OnOk result (out.new.items ≡ out.old.items ++ event_text T.plain_op T.forms.reply
        (record { time = time; operation = op.now; reply = reply.now; seen = [] })) }
{
    let plain_op = T::plain_op(op)?;
    let plain_reply = T::plain_reply(reply)?;
    put_time(out, time)?;
    put_text(out, b" ")?;
    put_op(out, &plain_op)?;
    put_reply(out, takes_item(&plain_op), &plain_reply)
}

// What a commit with these parents did.
fn put_act<T: Tells>(
    out: &mut Vec<u8>,
    moves: &[Move<T::Op, T::Reply>],
    parents: &[u32],
    made: Made,
) -> Result<(), Memory>
    ensures { OnOk result (out.new.items ≡ out.old.items
        ++ act_text T.plain_op T.forms.reply (event_told moves.now made) parents.now) }
{
    match made.act(moves) {
        Some((op, reply)) => put_event::<T>(out, made.time(), op, reply),
        None => put_merge(out, parents),
    }
}

// The line of a commit.
fn put_line<T: Tells>(
    out: &mut Vec<u8>,
    moves: &[Move<T::Op, T::Reply>],
    commits: &Commits,
    number: u32,
) -> Result<(), Memory>
    requires made { number < length commits.now.made.items }
    requires parents { number < length commits.now.graph.commits }
    ensures { OnOk result (out.new.items ≡ out.old.items
        ++ line_told T.plain_op T.forms.reply moves.now commits.now.graph.commits
        commits.now.made.items number) }
{
    let made = commits.made[number as usize];
    let parents = commits.graph.parents(number);
    put_text(out, b"#")?;
    put_number(out, u64::from(number))?;
    put_text(out, b" ")?;
    put_act::<T>(out, moves, parents, made)?;
    put_text(out, b"\n")
}

// Writes the line of a commit if it is marked, and says how many lines are left to write.
fn put_marked<T: Tells>(
    out: &mut Vec<u8>,
    moves: &[Move<T::Op, T::Reply>],
    commits: &Commits,
    marks: &[bool],
    number: u32,
    left: u64,
) -> Result<u64, Memory>
    requires made { number < length commits.now.made.items }
    requires parents { number < length commits.now.graph.commits }
    requires marks { number < length marks.now }
    requires more { 0 < left }
    ensures line { OnOk result (out.new.items ≡ out.old.items ++ cond (is_marked marks.now number)
        (line_told T.plain_op T.forms.reply moves.now commits.now.graph.commits
        commits.now.made.items number) []) }
    ensures left { IfOk result (λ fewer.
        fewer ≡ cond (is_marked marks.now number) (left - 1) left) }
{
    if !marks[number as usize] {
        return Ok(left);
    }
    put_line::<T>(out, moves, commits, number)?;
    Ok(left - 1)
}

// The lines of the commits that are marked, the greatest number first, or so many of the first.
fn put_lines<T: Tells>(
    out: &mut Vec<u8>,
    moves: &[Move<T::Op, T::Reply>],
    commits: &Commits,
    marks: &[bool],
    count: u64,
) -> Result<(), Memory>
    requires made { length commits.now.made.items ≡ length commits.now.graph.commits }
    requires marks { length marks.now ≡ length commits.now.graph.commits }
    ensures { OnOk result (out.new.items ≡ out.old.items
        ++ lines_told T.plain_op T.forms.reply moves.now commits.now.graph.commits
        commits.now.made.items marks.now count (length marks.now)) }
{
    let mut number = commits.graph.count();
    let mut left = count;
    while number > 0 && left > 0 {
        number -= 1;
        left = put_marked::<T>(out, moves, commits, marks, number, left)?;
    }
    Ok(())
}

/// The commits that one reaches, the greatest number first, a line each, as `#3 2.1 set tags add red`, `#4 merge #2 #3` and
/// `#0 root`; or the first `count` of these lines. It goes over the moves twice and over the commits once, and asks no value.
pub fn put_log<T: Tells>(
    alloc: Global,
    out: &mut Vec<u8>,
    terms: Terms,
    moves: &[Move<T::Op, T::Reply>],
    at: u32,
    count: Option<u64>,
) -> Result<(), Memory>
    requires valid { IsValid T.meaning terms moves.now }
    requires there { at < length (store_of terms.origin moves.now).commits }
    ensures { OnOk result (out.new.items ≡ out.old.items
        ++ log_text T.plain_op T.forms.reply (store_of terms.origin moves.now).commits at count) }
{
    let commits = read_commits::<T>(alloc, terms, moves)?;
    let marks = marks_below(alloc, &commits.graph, at)?;
    put_lines::<T>(out, moves, &commits, &marks, count.unwrap_or(u64::MAX))
}
