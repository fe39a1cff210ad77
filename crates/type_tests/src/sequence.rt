// Sequences.
use crate::steps::{
    after, after_all, are_listed, at, does_reply, is_op_spelled, is_op_spelling, is_reply_spelling,
    is_spelled, is_spelling, merged,
};
use mrdt_model::{Bytes, Memory, Mrdt, Time};
use mrdt_sequence::{Sequence, SequenceAnswer, SequenceOp, SequenceQuery};
use std::alloc::Global;
use std::test::Fail;

// `b` at 3.1, `a` at 3.0 and `i` at 2.0.
const MERGED: &[u8] = b"\
\x00\x00\x00\x00\x00\x00\x00\x03\x00\x00\x00\x01b\
\x00\x00\x00\x00\x00\x00\x00\x03\x00\x00\x00\x00a\
\x00\x00\x00\x00\x00\x00\x00\x02\x00\x00\x00\x00i";

// A node at 1.0, which was deleted, and behind it `i` at 2.0.
const DELETED: &[u8] = b"\
\x00\x00\x00\x00\x00\x00\x00\x02\
\x00\x00\x00\x00\x00\x00\x00\x01\x00\x00\x00\x00\
\x00\
\x01\
\x00\x00\x00\x00\x00\x00\x00\x00\
\x00\x00\x00\x00\x00\x00\x00\x02\x00\x00\x00\x00\
\x01\x00\x00\x00\x00\x00\x00\x00\x01\x00\x00\x00\x00\
\x00\
\x00\x00\x00\x00\x00\x00\x00\x01i";

// The reply that names 1.0.
const FIRST: &[u8] = b"\x01\x00\x00\x00\x00\x00\x00\x00\x01\x00\x00\x00\x00";

const INSERT_A: &[u8] = b"\x01\x00\x00\x00\x01a";

const INSERT_B: &[u8] = b"\x01\x00\x00\x00\x01b";

const DELETE_FIRST: &[u8] = b"\x02\x00\x00\x00\x00";

// `h` at 1.0, and behind it `i` at 2.0.
const WORD: [(&[u8], Time); 2] = [
    (
        b"\x01\x00\x00\x00\x00h",
        Time {
            clock: 1,
            origin: 0,
        },
    ),
    (
        b"\x01\x00\x00\x00\x07i",
        Time {
            clock: 2,
            origin: 0,
        },
    ),
];

fn insert(alloc: Global, place: u32, payload: &[u8]) -> Result<SequenceOp, Memory> {
    Ok(SequenceOp::Insert(place, Bytes::from_slice(alloc, payload)?))
}

fn has_items(alloc: Global, sequence: &Sequence, want: &[u8]) -> bool {
    match sequence.answer(&SequenceQuery::Read) {
        Ok(SequenceAnswer::OnItems(items)) => are_listed(alloc, items.as_slice(), want),
        _ => false,
    }
}

// A sequence with 498 more items, each behind the one before it, the first of them at this place.
fn typed(alloc: Global, base: &Sequence, first: u32, origin: u32) -> Result<Sequence, Memory> {
    let mut sequence = base.copy()?;
    let mut place = first;
    for clock in 3..501 {
        sequence = after(&sequence, &insert(alloc, place, b"")?, at(clock, origin))?;
        place = place.saturating_add(1);
    }
    Ok(sequence)
}

// Two sides insert behind the same item, and one of them deletes it.
#[test]
fn two_inserts_behind_a_deleted_item(rt: HostRuntime) -> Result<(), Fail> {
    let alloc = rt.alloc();
    let left = [(INSERT_A, at(3, 0))];
    let right = [(INSERT_B, at(3, 1)), (DELETE_FIRST, at(4, 1))];
    let one: Sequence = merged(alloc, &WORD, &left, &right)?;
    assert!(rt; has_items(alloc, &one, MERGED) && one.length() == 3);
    let other: Sequence = merged(alloc, &WORD, &right, &left)?;
    assert!(rt; one.copy()?.same(&other) && !one.same(&Sequence::initial(alloc)));
    Ok(())
}

#[test]
fn sequences_are_spelled(rt: HostRuntime) -> Result<(), Fail> {
    let alloc = rt.alloc();
    let base: Sequence = after_all(alloc, &Sequence::initial(alloc), &WORD)?;
    assert!(rt; does_reply(alloc, &base, &SequenceOp::Delete(0), FIRST));
    let one = after_all(alloc, &base, &[(DELETE_FIRST, at(3, 0))])?;
    assert!(rt; is_spelled(alloc, &one, DELETED) && is_spelling(alloc, DELETED));
    let answer = one.answer(&SequenceQuery::Length);
    assert!(rt; matches!(answer, Ok(SequenceAnswer::OnLength(1))));
    Ok(())
}

#[test]
fn operations_and_replies_of_sequences_are_read(rt: HostRuntime) -> Result<(), Fail> {
    let alloc = rt.alloc();
    let op = insert(alloc, 1, b"x")?;
    assert!(rt; is_op_spelled(alloc, &op, b"\x01\x00\x00\x00\x01x"));
    let delete = SequenceOp::Delete(2);
    assert!(rt; is_op_spelled(alloc, &delete, b"\x02\x00\x00\x00\x02"));
    for bytes in [b"\x01\x00\x00\x00\x01x".as_slice(), b"\x02\x00\x00\x00\x02"] {
        assert!(rt; is_op_spelling(alloc, bytes));
    }
    for bytes in [b"\x00".as_slice(), FIRST] {
        assert!(rt; is_reply_spelling(alloc, bytes));
    }
    Ok(())
}

// Two sides of 500 nodes each, typed in two places, merge to the same value in both orders.
#[test]
fn long_sides_merge_in_both_orders(rt: HostRuntime) -> Result<(), Fail> {
    let alloc = rt.alloc();
    let base: Sequence = after_all(alloc, &Sequence::initial(alloc), &WORD)?;
    let left = typed(alloc, &base, 1, 0)?;
    let right = typed(alloc, &base, 2, 1)?;
    let one = Sequence::merge(&base, &left, &right)?;
    let other = Sequence::merge(&base, &right, &left)?;
    assert!(rt; one.length() == 998 && one.same(&other));
    Ok(())
}
