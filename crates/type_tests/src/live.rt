// Live sets.
use crate::steps::{are_listed, at};
use branch_wire::Cursor;
use live_set::texts::{own_copy, push_texts};
use live_set::{Kept, Live, Payload, shared_text};
use mrdt_model::{Bytes, Memory, Shared};
use std::alloc::Global;
use std::test::Fail;

// 5 at 1.0, 7 at 2.0 and -2 at 3.0.
const THREE: &[u8] = b"\
\x00\x00\x00\x00\x00\x00\x00\x03\
\x00\x00\x00\x00\x00\x00\x00\x01\x00\x00\x00\x00\
\x00\x00\x00\x00\x00\x00\x00\x05\
\x00\x00\x00\x00\x00\x00\x00\x02\x00\x00\x00\x00\
\x00\x00\x00\x00\x00\x00\x00\x07\
\x00\x00\x00\x00\x00\x00\x00\x03\x00\x00\x00\x00\
\xff\xff\xff\xff\xff\xff\xff\xfe";

// 7 at 2.0 and -2 at 3.0, and a byte more.
const TWO: &[u8] = b"\
\x00\x00\x00\x00\x00\x00\x00\x02\
\x00\x00\x00\x00\x00\x00\x00\x02\x00\x00\x00\x00\
\x00\x00\x00\x00\x00\x00\x00\x07\
\x00\x00\x00\x00\x00\x00\x00\x03\x00\x00\x00\x00\
\xff\xff\xff\xff\xff\xff\xff\xfe\
\x2a";

// `a` at 1.0 and `b` at 2.0.
const TEXTS: &[u8] = b"\
\x00\x00\x00\x00\x00\x00\x00\x01\x00\x00\x00\x00a\
\x00\x00\x00\x00\x00\x00\x00\x02\x00\x00\x00\x00b";

// With a payload behind all others.
fn added<V: Payload>(live: &Live<V>, clock: u64, payload: V) -> Result<Live<V>, Memory> {
    let mut longer = live.copy()?;
    let time = at(clock, 0);
    if longer.ends_before(time) {
        longer.add(time, payload)?;
    }
    Ok(longer)
}

// Without the first payload.
fn behind<V: Payload>(live: &Live<V>) -> Result<Live<V>, Memory> {
    if live.len() > 0 {
        live.without_first()
    } else {
        live.copy()
    }
}

// Whether the live set is spelled by these bytes.
fn is_put<V: Payload>(alloc: Global, live: &Live<V>, bytes: &[u8]) -> bool {
    let mut out = Vec::new(alloc);
    live.put(&mut out).is_ok()
        && out.as_slice() == bytes
        && live.spelled_length() == bytes.len() as u64
}

// Whether the live set is spelled at the front of these bytes, with so many behind it.
fn is_taken<V: Payload>(alloc: Global, live: &Live<V>, bytes: &[u8], rest: usize) -> bool {
    let mut cursor = Cursor::new(bytes);
    match Live::take(alloc, &mut cursor) {
        Ok(taken) => taken.same(live) && cursor.take_rest().len() == rest,
        Err(_) => false,
    }
}

// Three amounts, the second of which is put between the others, and what was there before it.
fn base_and_left(alloc: Global) -> Result<(Live<i64>, Live<i64>), Memory> {
    let base = added(&added(&Live::new(alloc), 1, 5)?, 3, -2)?;
    let left = base.with(at(2, 0), 7)?;
    Ok((base, left))
}

// Whether the three amounts have their sums, are spelled so and read again.
fn is_three(alloc: Global, left: &Live<i64>) -> bool {
    let has_sums = left.amount() == 10 && left.entries_length() == 60;
    let is_read = match Live::get(alloc, THREE) {
        Ok(three) => three.same(left),
        Err(_) => false,
    };
    has_sums && is_read && is_put(alloc, left, THREE)
}

// Whether a payload at a time that is there changes nothing.
fn keeps_its_first(left: &Live<i64>) -> bool {
    match left.with(at(2, 0), 8) {
        Ok(again) => again.same(left),
        Err(_) => false,
    }
}

// The side that added merged with the one that took its first away, in both orders.
fn both_ways(base: &Live<i64>, left: &Live<i64>) -> Result<(Live<i64>, Live<i64>), Memory> {
    let right = behind(base)?;
    let one = Live::merge(base, left, &right)?;
    let other = Live::merge(base, &right, left)?;
    Ok((one, other))
}

#[test]
fn amounts_are_merged(rt: HostRuntime) -> Result<(), Fail> {
    let alloc = rt.alloc();
    let (base, left) = base_and_left(alloc)?;
    assert_eq!(rt; base.amount(), 3);
    assert!(rt; is_three(alloc, &left));
    assert!(rt; keeps_its_first(&left));
    let (one, other) = both_ways(&base, &left)?;
    assert!(rt; is_taken(alloc, &one, TWO, 1));
    assert!(rt; one.same(&behind(&left)?));
    assert!(rt; other.same(&one));
    assert!(rt; !other.same(&base));
    Ok(())
}

#[test]
fn texts_are_copied(rt: HostRuntime) -> Result<(), Fail> {
    let alloc = rt.alloc();
    let one = added(&Live::new(alloc), 1, shared_text(alloc, b"a")?)?;
    let two: Live<Shared<Bytes>> = added(&one, 2, shared_text(alloc, b"b")?)?;
    let mut list = Vec::new(alloc);
    push_texts(&two, &mut list)?;
    assert!(rt; are_listed(alloc, list.as_slice(), TEXTS));
    let mut first: Vec<Kept<Bytes>> = Vec::new(alloc);
    if let Some(kept) = two.first() {
        first.push(own_copy(&kept.copy()?)?)?;
    }
    assert!(rt; are_listed(alloc, first.as_slice(), &TEXTS[..13]));
    Ok(())
}
