// Steps that the tests take with sequences, by the calls of a mergeable type alone.
use branch_wire::put_time;
use live_set::Kept;
use mrdt_model::{Bytes, Memory, Mrdt, Time, Unread};
use mrdt_sequence::{Sequence, SequenceOp};
use std::alloc::Global;

pub(crate) fn at(clock: u64, origin: u32) -> Time {
    Time { clock, origin }
}

// The value after an operation.
pub(crate) fn after(state: &Sequence, op: &SequenceOp, time: Time) -> Result<Sequence, Memory> {
    let (next, _) = state.apply(op, time)?;
    Ok(next)
}

// The value after an operation that is spelled by these bytes.
fn next(alloc: Global, state: &Sequence, bytes: &[u8], time: Time) -> Result<Sequence, Unread> {
    let op = Sequence::get_op(alloc, bytes)?;
    Ok(after(state, &op, time)?)
}

// The value after operations, each as its bytes and its time.
pub(crate) fn after_all(
    alloc: Global,
    state: &Sequence,
    steps: &[(&[u8], Time)],
) -> Result<Sequence, Unread> {
    let mut value = state.copy()?;
    for (bytes, time) in steps {
        value = next(alloc, &value, bytes, *time)?;
    }
    Ok(value)
}

// The merge of two sides over what they begin with, each by its operations.
pub(crate) fn merged(
    alloc: Global,
    base: &[(&[u8], Time)],
    left: &[(&[u8], Time)],
    right: &[(&[u8], Time)],
) -> Result<Sequence, Unread> {
    let base = after_all(alloc, &Sequence::initial(alloc), base)?;
    let left = after_all(alloc, &base, left)?;
    let right = after_all(alloc, &base, right)?;
    Ok(Sequence::merge(&base, &left, &right)?)
}

// Whether the value is spelled by these bytes.
pub(crate) fn is_spelled(alloc: Global, state: &Sequence, bytes: &[u8]) -> bool {
    let mut out = Vec::new(alloc);
    state.put(&mut out).is_ok() && out.as_slice() == bytes
}

// Whether these bytes are read, and the value that they say is spelled by them.
pub(crate) fn is_spelling(alloc: Global, bytes: &[u8]) -> bool {
    match Sequence::get(alloc, bytes) {
        Ok(state) => is_spelled(alloc, &state, bytes),
        Err(_) => false,
    }
}

// Whether the operation is spelled by these bytes.
pub(crate) fn is_op_spelled(alloc: Global, op: &SequenceOp, bytes: &[u8]) -> bool {
    let mut out = Vec::new(alloc);
    Sequence::put_op(op, &mut out).is_ok() && out.as_slice() == bytes
}

// Whether these bytes are read as an operation, and it is spelled by them.
pub(crate) fn is_op_spelling(alloc: Global, bytes: &[u8]) -> bool {
    match Sequence::get_op(alloc, bytes) {
        Ok(op) => is_op_spelled(alloc, &op, bytes),
        Err(_) => false,
    }
}

// Whether the reply is spelled by these bytes.
pub(crate) fn is_reply_spelled(alloc: Global, reply: &Option<Time>, bytes: &[u8]) -> bool {
    let mut out = Vec::new(alloc);
    Sequence::put_reply(reply, &mut out).is_ok() && out.as_slice() == bytes
}

// Whether these bytes are read as a reply, and it is spelled by them.
pub(crate) fn is_reply_spelling(alloc: Global, bytes: &[u8]) -> bool {
    match Sequence::get_reply(alloc, bytes) {
        Ok(reply) => is_reply_spelled(alloc, &reply, bytes),
        Err(_) => false,
    }
}

// Whether the value replies what is spelled by these bytes.
pub(crate) fn does_reply(alloc: Global, state: &Sequence, op: &SequenceOp, bytes: &[u8]) -> bool {
    let time = at(u64::MAX, 0);
    match state.apply(op, time) {
        Ok((_, reply)) => is_reply_spelled(alloc, &reply, bytes),
        Err(_) => false,
    }
}

// Each entry as its time and its payload.
pub(crate) fn listed(alloc: Global, entries: &[Kept<Bytes>]) -> Result<Vec<u8>, Memory> {
    let mut text = Vec::new(alloc);
    for kept in entries {
        put_time(kept.time, &mut text)?;
        text.extend_from_slice(kept.payload.as_slice())?;
    }
    Ok(text)
}

// Whether these are the entries, each as its time and its payload.
pub(crate) fn are_listed(alloc: Global, entries: &[Kept<Bytes>], want: &[u8]) -> bool {
    match listed(alloc, entries) {
        Ok(text) => text.as_slice() == want,
        Err(_) => false,
    }
}
