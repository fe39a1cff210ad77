// How operations and replies are spelled.
ghost use Rattle.std.specs.Prelude.{◌≡◌, ◌++◌, ◌∷◌, IfOk, OnOk, OnErr, IsErrOf};
ghost use Rattle.mrdt_model.specs.Spelled.{AppendsPart};
ghost use Rattle.mrdt_queue.specs.declared.op.QueueOp.{QueueOp as SpecOp};
ghost use Rattle.mrdt_queue.specs.declared.op.QueueReply.{QueueReply as SpecReply};
ghost use Rattle.mrdt_queue.specs.Queue.{IsOp, IsReply, op_spelling, reply_spelling, IsOpSpelling, IsReplySpelling};

use crate::op::{QueueOp, QueueReply};
use branch_wire::{Cursor, put_time};
use live_set::{Kept, whole_text};
use mrdt_model::{Memory, Unread};
use std::alloc::Global;

const ENQUEUE: u8 = 1;

const DEQUEUE: u8 = 2;

const NOTHING: u8 = 0;

const TOOK: u8 = 1;

// Writes an operation.
pub(crate) fn put_op(op: &QueueOp, out: &mut Vec<u8>) -> Result<(), Memory>
    ensures ok { OnOk result (out.new.items ≡ out.old.items ++ op_spelling op.now) }
    ensures err { OnErr result (AppendsPart out.old.items out.new.items (op_spelling op.now)) }
{
    match op {
        QueueOp::Enqueue(payload) => {
            out.push(ENQUEUE)?;
            Ok(out.extend_from_slice(payload.as_slice())?)
        }
        QueueOp::Dequeue => Ok(out.push(DEQUEUE)?),
    }
}

// Reads an operation that is the whole of the bytes.
pub(crate) fn get_op(alloc: Global, bytes: &[u8]) -> Result<QueueOp, Unread>
    ensures spelled { IfOk result (λ op. op_spelling op ≡ bytes.now) }
    ensures known { IfOk result IsOp }
    ensures equal { IfOk result (λ op. (other : SpecOp) → IsOp other → op_spelling other ≡ bytes.now
        → op ≡ other) }
    ensures inside { OnOk result (IsOpSpelling bytes.now) }
    ensures outside { IsErrOf result Unread.NotCanonical → ¬ IsOpSpelling bytes.now }
    ensures refused { ¬ IsOpSpelling bytes.now → IsErrOf result Unread.NotCanonical }
{
    match bytes.split_first() {
        Some((&ENQUEUE, rest)) => Ok(QueueOp::Enqueue(whole_text(alloc, rest)?)),
        Some((&DEQUEUE, [])) => Ok(QueueOp::Dequeue),
        _ => Err(Unread::NotCanonical),
    }
}

// Writes a reply.
pub(crate) fn put_reply(reply: &QueueReply, out: &mut Vec<u8>) -> Result<(), Memory>
    ensures ok { OnOk result (out.new.items ≡ out.old.items ++ reply_spelling reply.now) }
    ensures err { OnErr result
        (AppendsPart out.old.items out.new.items (reply_spelling reply.now)) }
{
    match reply {
        QueueReply::Enqueued => Ok(()),
        QueueReply::Nothing => Ok(out.push(NOTHING)?),
        QueueReply::Took(kept) => {
            out.push(TOOK)?;
            put_time(kept.time, out)?;
            Ok(out.extend_from_slice(kept.payload.as_slice())?)
        }
    }
}

// Reads a payload with its time that is the whole of the bytes.
fn get_taken(alloc: Global, bytes: &[u8]) -> Result<QueueReply, Unread>
    ensures spelled { IfOk result (λ reply. reply_spelling reply ≡ 1 ∷ bytes.now) }
    ensures known { IfOk result IsReply }
    ensures equal { IfOk result (λ reply. (other : SpecReply) → IsReply other
        → reply_spelling other ≡ 1 ∷ bytes.now → reply ≡ other) }
    ensures inside { OnOk result (IsReplySpelling (1 ∷ bytes.now)) }
    ensures outside { IsErrOf result Unread.NotCanonical → ¬ IsReplySpelling (1 ∷ bytes.now) }
{
    let mut cursor = Cursor::new(bytes);
    let time = cursor.take_time()?;
    let payload = whole_text(alloc, cursor.take_rest())?;
    Ok(QueueReply::Took(Kept { time, payload }))
}

// Reads a reply that is the whole of the bytes.
pub(crate) fn get_reply(alloc: Global, bytes: &[u8]) -> Result<QueueReply, Unread>
    ensures spelled { IfOk result (λ reply. reply_spelling reply ≡ bytes.now) }
    ensures known { IfOk result IsReply }
    ensures equal { IfOk result (λ reply. (other : SpecReply) → IsReply other
        → reply_spelling other ≡ bytes.now → reply ≡ other) }
    ensures inside { OnOk result (IsReplySpelling bytes.now) }
    ensures outside { IsErrOf result Unread.NotCanonical → ¬ IsReplySpelling bytes.now }
{
    match bytes.split_first() {
        None => Ok(QueueReply::Enqueued),
        Some((&NOTHING, [])) => Ok(QueueReply::Nothing),
        Some((&TOOK, rest)) => get_taken(alloc, rest),
        _ => Err(Unread::NotCanonical),
    }
}
