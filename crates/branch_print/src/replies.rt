// The replies to steps that were not refused. After `Memory` a first part of the text has been written.
ghost use Rattle.std.specs.Prelude.{◌≡◌, ◌++◌, codes, decimal, true, false, if◌then◌else◌, OnOk, OnErr};
ghost use Rattle.mrdt_model.specs.Spelled.{AppendsPart};
ghost use Rattle.branch_print.specs.Texts.{time_text, sees_text, forked_text, took_text, takes_item, named_text, reply_text, landed_text, merged_text, joined_text, forward_text, same_text, dropped_text, items_text, entries_text, at_most_one, answer_text, line_end};

use crate::pieces::{
    put_count, put_entries, put_entry, put_items, put_number, put_pieces, put_signed, put_text,
};
use branch_doc::{PlainAnswer, PlainOp, PlainReply};
use branch_names::Name;
use itoa::Buffer;
use live_set::Kept;
use mrdt_model::{Bytes, Memory, Time};

/// What a session sees: `a sees main at #0`.
pub fn put_sees(out: &mut Vec<u8>, session: &Name, branch: &Name, head: u32) -> Result<(), Memory>
    ensures ok { OnOk result (out.new.items
        ≡ out.old.items ++ (sees_text session.now branch.now head ++ line_end)) }
    ensures err { OnErr result
        (AppendsPart out.old.items out.new.items
        (sees_text session.now branch.now head ++ line_end)) }
{
    let mut head_digits = Buffer::new();
    put_pieces(
        out,
        &[
            session.as_bytes(),
            b" sees ",
            branch.as_bytes(),
            b" at #",
            head_digits.format(head).as_bytes(),
            b"\n",
        ],
    )
}

/// A new branch: `forked l as 1 at #0`.
pub fn put_forked(out: &mut Vec<u8>, new: &Name, number: u32, head: u32) -> Result<(), Memory>
    ensures ok { OnOk result (out.new.items
        ≡ out.old.items ++ (forked_text new.now number head ++ line_end)) }
    ensures err { OnErr result
        (AppendsPart out.old.items out.new.items (forked_text new.now number head ++ line_end)) }
{
    let mut number_digits = Buffer::new();
    let mut head_digits = Buffer::new();
    put_pieces(
        out,
        &[
            b"forked ",
            new.as_bytes(),
            b" as ",
            number_digits.format(number).as_bytes(),
            b" at #",
            head_digits.format(head).as_bytes(),
            b"\n",
        ],
    )
}

// What a Dequeue took.
fn put_took(out: &mut Vec<u8>, took: &Option<Kept<Bytes>>) -> Result<(), Memory>
    ensures ok { OnOk result (out.new.items ≡ out.old.items ++ took_text took.now) }
    ensures err { OnErr result (AppendsPart out.old.items out.new.items (took_text took.now)) }
{
    match took {
        None => put_text(out, b" took nothing"),
        Some(entry) => put_entry(out, b" took ", entry),
    }
}

// A text and a time.
fn put_at(out: &mut Vec<u8>, text: &[u8], time: Time) -> Result<(), Memory>
    ensures ok { OnOk result (out.new.items ≡ out.old.items ++ (text.now ++ time_text time)) }
    ensures err { OnErr result
        (AppendsPart out.old.items out.new.items (text.now ++ time_text time)) }
{
    let mut clock_digits = Buffer::new();
    let mut origin_digits = Buffer::new();
    put_pieces(
        out,
        &[
            text,
            clock_digits.format(time.clock).as_bytes(),
            b".",
            origin_digits.format(time.origin).as_bytes(),
        ],
    )
}

// The item after which an insert put another.
fn put_after(out: &mut Vec<u8>, named: Option<Time>) -> Result<(), Memory>
    ensures ok { OnOk result (out.new.items ≡ out.old.items ++ named_text false named) }
    ensures err { OnErr result (AppendsPart out.old.items out.new.items (named_text false named)) }
{
    match named {
        None => put_text(out, b" at start"),
        Some(item) => put_at(out, b" after ", item),
    }
}

// The item that a delete took out.
fn put_gone(out: &mut Vec<u8>, named: Option<Time>) -> Result<(), Memory>
    ensures ok { OnOk result (out.new.items ≡ out.old.items ++ named_text true named) }
    ensures err { OnErr result (AppendsPart out.old.items out.new.items (named_text true named)) }
{
    match named {
        None => put_text(out, b" nothing"),
        Some(item) => put_at(out, b" gone ", item),
    }
}

// What was done to a sequence.
fn put_named(out: &mut Vec<u8>, takes: bool, named: Option<Time>) -> Result<(), Memory>
    ensures ok { OnOk result (out.new.items ≡ out.old.items ++ named_text takes named) }
    ensures err { OnErr result (AppendsPart out.old.items out.new.items (named_text takes named)) }
{
    if takes {
        put_gone(out, named)
    } else {
        put_after(out, named)
    }
}

/// Whether an operation takes an item out of a sequence.
pub fn takes_item(op: &PlainOp) -> bool
    ensures { result ≡ takes_item op.now }
{
    matches!(op, PlainOp::SequenceDelete { .. })
}

/// What the reply to an operation adds to its text, by whether that takes an item out of a sequence: of a Dequeue what it took,
/// of an operation on a sequence what it did, and of all others nothing.
pub fn put_reply(out: &mut Vec<u8>, takes: bool, reply: &PlainReply) -> Result<(), Memory>
    ensures ok { OnOk result (out.new.items ≡ out.old.items ++ reply_text takes reply.now) }
    ensures err { OnErr result
        (AppendsPart out.old.items out.new.items (reply_text takes reply.now)) }
{
    match reply {
        PlainReply::QueueTook(took) => put_took(out, took),
        PlainReply::Sequence(named) => put_named(out, takes, *named),
        _ => Ok(()),
    }
}

// The commit of an operation, and its time.
fn put_commit(out: &mut Vec<u8>, commit: u32, time: Time) -> Result<(), Memory>
    ensures ok { OnOk result (out.new.items
        ≡ out.old.items ++ (codes "landed #" ++ decimal commit ++ codes " at " ++ time_text time)) }
    ensures err { OnErr result
        (AppendsPart out.old.items out.new.items
        (codes "landed #" ++ decimal commit ++ codes " at " ++ time_text time)) }
{
    let mut commit_digits = Buffer::new();
    let mut clock_digits = Buffer::new();
    let mut origin_digits = Buffer::new();
    put_pieces(
        out,
        &[
            b"landed #",
            commit_digits.format(commit).as_bytes(),
            b" at ",
            clock_digits.format(time.clock).as_bytes(),
            b".",
            origin_digits.format(time.origin).as_bytes(),
        ],
    )
}

/// An operation that landed: `landed #1 at 1.0`. A Dequeue adds ` took 1.0 x`, or ` took nothing`; an insert into a sequence
/// adds ` after 1.0`, or ` at start`, and an operation that takes an item out of one ` gone 1.0`, or ` nothing`.
pub fn put_landed(
    out: &mut Vec<u8>,
    commit: u32,
    time: Time,
    takes: bool,
    reply: &PlainReply,
) -> Result<(), Memory>
    ensures ok { OnOk result (out.new.items
        ≡ out.old.items ++ (landed_text commit time takes reply.now ++ line_end)) }
    ensures err { OnErr result
        (AppendsPart out.old.items out.new.items
        (landed_text commit time takes reply.now ++ line_end)) }
{
    put_commit(out, commit, time)?;
    put_reply(out, takes, reply)?;
    put_text(out, b"\n")
}

/// A merge that made a commit: `merged #3`.
pub fn put_merged(out: &mut Vec<u8>, commit: u32) -> Result<(), Memory>
    ensures ok { OnOk result (out.new.items ≡ out.old.items ++ (merged_text commit ++ line_end)) }
    ensures err { OnErr result
        (AppendsPart out.old.items out.new.items (merged_text commit ++ line_end)) }
{
    put_count(out, b"merged #", u64::from(commit))
}

/// A merge of several commits at once: `joined #4`.
pub fn put_joined(out: &mut Vec<u8>, commit: u32) -> Result<(), Memory>
    ensures ok { OnOk result (out.new.items ≡ out.old.items ++ (joined_text commit ++ line_end)) }
    ensures err { OnErr result
        (AppendsPart out.old.items out.new.items (joined_text commit ++ line_end)) }
{
    put_count(out, b"joined #", u64::from(commit))
}

/// A merge that moved the branch up to a commit: `forward #1`.
pub fn put_forward(out: &mut Vec<u8>, commit: u32) -> Result<(), Memory>
    ensures ok { OnOk result (out.new.items ≡ out.old.items ++ (forward_text commit ++ line_end)) }
    ensures err { OnErr result
        (AppendsPart out.old.items out.new.items (forward_text commit ++ line_end)) }
{
    put_count(out, b"forward #", u64::from(commit))
}

/// A merge of what is there already: `same`.
pub fn put_same(out: &mut Vec<u8>) -> Result<(), Memory>
    ensures ok { OnOk result (out.new.items ≡ out.old.items ++ (same_text ++ line_end)) }
    ensures err { OnErr result (AppendsPart out.old.items out.new.items (same_text ++ line_end)) }
{
    put_text(out, b"same\n")
}

/// A branch was dropped, at its last head: `dropped q at #1`.
pub fn put_dropped_branch(out: &mut Vec<u8>, branch: &Name, head: u32) -> Result<(), Memory>
    ensures ok { OnOk result (out.new.items ≡ out.old.items
        ++ (dropped_text branch.now head ++ line_end)) }
    ensures err { OnErr result (AppendsPart out.old.items out.new.items
        (dropped_text branch.now head ++ line_end)) }
{
    let mut digits = Buffer::new();
    put_pieces(
        out,
        &[
            b"dropped ",
            branch.as_bytes(),
            b" at #",
            digits.format(head).as_bytes(),
            b"\n",
        ],
    )
}

// One of two words.
fn put_either(out: &mut Vec<u8>, test: bool, yes: &[u8], no: &[u8]) -> Result<(), Memory>
    ensures ok { OnOk result (out.new.items ≡ out.old.items ++ (if test then yes.now else no.now)) }
    ensures err { OnErr result
        (AppendsPart out.old.items out.new.items (if test then yes.now else no.now)) }
{
    put_text(out, if test { yes } else { no })
}

// A list of the item that there is, or of none.
fn put_item(out: &mut Vec<u8>, item: &Option<Bytes>) -> Result<(), Memory>
    ensures ok { OnOk result (out.new.items ≡ out.old.items ++ items_text (at_most_one item.now)) }
    ensures err { OnErr result
        (AppendsPart out.old.items out.new.items (items_text (at_most_one item.now))) }
{
    put_items(out, item.as_slice())
}

// A list of the entry that there is, or of none.
fn put_first(out: &mut Vec<u8>, entry: &Option<Kept<Bytes>>) -> Result<(), Memory>
    ensures ok { OnOk result (out.new.items ≡ out.old.items ++ entries_text
        (at_most_one entry.now)) }
    ensures err { OnErr result
        (AppendsPart out.old.items out.new.items (entries_text (at_most_one entry.now))) }
{
    put_entries(out, entry.as_slice())
}

/// The text of an answer without the end of the line.
pub fn put_answer_text(out: &mut Vec<u8>, answer: &PlainAnswer) -> Result<(), Memory>
    ensures ok { OnOk result (out.new.items ≡ out.old.items ++ answer_text answer.now) }
    ensures err { OnErr result (AppendsPart out.old.items out.new.items (answer_text answer.now)) }
{
    match answer {
        PlainAnswer::CounterValue(value) => put_signed(out, *value),
        PlainAnswer::FlagIsOn(is_on) => put_either(out, *is_on, b"on", b"off"),
        PlainAnswer::LwwGet(payload) => put_item(out, payload),
        PlainAnswer::MultiValues(payloads) => put_items(out, payloads.as_slice()),
        PlainAnswer::SetContains(is_in) => put_either(out, *is_in, b"yes", b"no"),
        PlainAnswer::SetMembers(members) => put_items(out, members.as_slice()),
        PlainAnswer::SetSize(size) => put_number(out, *size),
        PlainAnswer::LogRead(entries) => put_entries(out, entries.as_slice()),
        PlainAnswer::LogLength(length) => put_number(out, *length),
        PlainAnswer::QueuePeek(first) => put_first(out, first),
        PlainAnswer::QueueItems(entries) => put_entries(out, entries.as_slice()),
        PlainAnswer::QueueLength(length) => put_number(out, *length),
        PlainAnswer::SequenceRead(entries) => put_entries(out, entries.as_slice()),
        PlainAnswer::SequenceLength(length) => put_number(out, *length),
        PlainAnswer::Keys(_, keys) => put_items(out, keys.as_slice()),
    }
}

/// The answer to a query: a number, `on` or `off`, `yes` or `no`, a list as `[2] u v`, or a list with times as
/// `[2] 1.2 v 1.1 u`.
pub fn put_answer(out: &mut Vec<u8>, answer: &PlainAnswer) -> Result<(), Memory>
    ensures ok { OnOk result (out.new.items
        ≡ out.old.items ++ (answer_text answer.now ++ line_end)) }
    ensures err { OnErr result
        (AppendsPart out.old.items out.new.items (answer_text answer.now ++ line_end)) }
{
    put_answer_text(out, answer)?;
    put_text(out, b"\n")
}
