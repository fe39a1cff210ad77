// How sequences, operations and replies are spelled.
ghost use Rattle.std.specs.Prelude.{◌≡◌, ◌≤◌, ◌++◌, ◌∷◌, Option, List, ℕ, length, IfOk, OnOk, OnErr, IsErrOf};
ghost use Rattle.mrdt_model.specs.Spelled.{AppendsPart, capped};
ghost use Rattle.mrdt_model.specs.declared.time.Time.{Time as SpecTime};
ghost use Rattle.branch_wire.specs.Fields.{field};
ghost use Rattle.mrdt_sequence.specs.declared.op.SequenceOp.{SequenceOp as SpecOp};
ghost use Rattle.mrdt_sequence.specs.Sequence.{IsOp, IsReply, named_time, hidden_field, node_spelling, op_spelling, IsOpSpelling, IsReplySpelling};

use crate::node::Node;
use crate::op::SequenceOp;
use branch_wire::{Cursor, put_bytes, put_time, put_u32};
use live_set::{Payload, whole_text};
use mrdt_model::{Memory, Time, Unread};
use std::alloc::Global;

const INSERT: u8 = 1;

const DELETE: u8 = 2;

pub(crate) const NONE: u8 = 0;

pub(crate) const SOME: u8 = 1;

// Writes a byte that tells whether there is a time, and the time.
pub(crate) fn put_named(time: Option<Time>, out: &mut Vec<u8>) -> Result<(), Memory>
    ensures ok { OnOk result (out.new.items ≡ out.old.items ++ named_time time) }
    ensures err { OnErr result (AppendsPart out.old.items out.new.items (named_time time)) }
{
    match time {
        Some(time) => {
            out.push(SOME)?;
            put_time(time, out)
        }
        None => Ok(out.push(NONE)?),
    }
}

// Writes a byte that tells whether a node is hidden, and its payload.
fn put_payload(node: &Node, out: &mut Vec<u8>) -> Result<(), Memory>
    ensures ok { OnOk result (out.new.items
        ≡ out.old.items ++ (hidden_field node.now.hidden ++ field node.now.payload)) }
    ensures err { OnErr result
        (AppendsPart out.old.items out.new.items
        (hidden_field node.now.hidden ++ field node.now.payload)) }
{
    out.push(node.hidden as u8)?;
    put_bytes(node.payload.get().as_slice(), out)
}

// Writes a node's parent, and what follows it.
fn put_rest(node: &Node, out: &mut Vec<u8>) -> Result<(), Memory>
    ensures ok { OnOk result (out.new.items
        ≡ out.old.items ++ (named_time node.now.parent ++ (hidden_field node.now.hidden ++ field
        node.now.payload))) }
    ensures err { OnErr result
        (AppendsPart out.old.items out.new.items
        (named_time node.now.parent ++ (hidden_field node.now.hidden ++ field node.now.payload))) }
{
    put_named(node.parent, out)?;
    put_payload(node, out)
}

// Writes a node.
pub(crate) fn put_node(node: &Node, out: &mut Vec<u8>) -> Result<(), Memory>
    ensures ok { OnOk result (out.new.items ≡ out.old.items ++ node_spelling node.now) }
    ensures err { OnErr result (AppendsPart out.old.items out.new.items (node_spelling node.now)) }
{
    put_time(node.time, out)?;
    put_rest(node, out)
}

// How many bytes a time that may be none is spelled with.
fn named_length(time: Option<Time>) -> u64
    ensures value { result ≡ length (named_time time) }
    ensures few { result ≤ 13 }
{
    match time {
        Some(_) => 13,
        None => 1,
    }
}

// How many bytes a node's spelling has, or 2^64 - 1 where it has more. It takes no memory.
pub(crate) fn length_of(node: &Node) -> u64
    ensures { result ≡ capped (length (node_spelling node.now)) }
{
    let named = named_length(node.parent);
    node.payload.spelled_length().saturating_add(13 + named)
}

// Writes an operation.
pub(crate) fn put_op(op: &SequenceOp, out: &mut Vec<u8>) -> Result<(), Memory>
    ensures ok { OnOk result (out.new.items ≡ out.old.items ++ op_spelling op.now) }
    ensures err { OnErr result (AppendsPart out.old.items out.new.items (op_spelling op.now)) }
{
    match op {
        SequenceOp::Insert(place, payload) => {
            out.push(INSERT)?;
            put_u32(*place, out)?;
            Ok(out.extend_from_slice(payload.as_slice())?)
        }
        SequenceOp::Delete(place) => {
            out.push(DELETE)?;
            put_u32(*place, out)
        }
    }
}

// Reads an insert behind its first byte.
fn get_insert(alloc: Global, bytes: &[u8]) -> Result<SequenceOp, Unread>
    ensures spelled { IfOk result (λ op. op_spelling op ≡ 1 ∷ bytes.now) }
    ensures known { IfOk result IsOp }
    ensures equal { IfOk result (λ op. (other : SpecOp) → IsOp other
        → op_spelling other ≡ 1 ∷ bytes.now → op ≡ other) }
    ensures inside { OnOk result (IsOpSpelling (1 ∷ bytes.now)) }
    ensures outside { IsErrOf result Unread.NotCanonical → ¬ IsOpSpelling (1 ∷ bytes.now) }
{
    let mut cursor = Cursor::new(bytes);
    let place = cursor.take_u32()?;
    let payload = whole_text(alloc, cursor.take_rest())?;
    Ok(SequenceOp::Insert(place, payload))
}

// Reads a delete behind its first byte.
fn get_delete(bytes: &[u8]) -> Result<SequenceOp, Unread>
    ensures spelled { IfOk result (λ op. op_spelling op ≡ 2 ∷ bytes.now) }
    ensures known { IfOk result IsOp }
    ensures equal { IfOk result (λ op. (other : SpecOp) → IsOp other
        → op_spelling other ≡ 2 ∷ bytes.now → op ≡ other) }
    ensures inside { OnOk result (IsOpSpelling (2 ∷ bytes.now)) }
    ensures outside { IsErrOf result Unread.NotCanonical → ¬ IsOpSpelling (2 ∷ bytes.now) }
{
    let mut cursor = Cursor::new(bytes);
    let place = cursor.take_u32()?;
    if cursor.is_at_end() {
        Ok(SequenceOp::Delete(place))
    } else {
        Err(Unread::NotCanonical)
    }
}

// Reads an operation that is the whole of the bytes.
pub(crate) fn get_op(alloc: Global, bytes: &[u8]) -> Result<SequenceOp, Unread>
    ensures spelled { IfOk result (λ op. op_spelling op ≡ bytes.now) }
    ensures known { IfOk result IsOp }
    ensures equal { IfOk result (λ op. (other : SpecOp) → IsOp other → op_spelling other ≡ bytes.now
        → op ≡ other) }
    ensures inside { OnOk result (IsOpSpelling bytes.now) }
    ensures outside { IsErrOf result Unread.NotCanonical → ¬ IsOpSpelling bytes.now }
{
    match bytes.split_first() {
        Some((&INSERT, rest)) => get_insert(alloc, rest),
        Some((&DELETE, rest)) => get_delete(rest),
        _ => Err(Unread::NotCanonical),
    }
}

// Reads a time that is the whole of the bytes, as a reply that names it.
fn get_named(bytes: &[u8]) -> Result<Option<Time>, Unread>
    ensures spelled { IfOk result (λ reply. named_time reply ≡ 1 ∷ bytes.now) }
    ensures known { IfOk result IsReply }
    ensures equal { IfOk result (λ reply. (other : Option SpecTime) → IsReply other
        → named_time other ≡ 1 ∷ bytes.now → reply ≡ other) }
    ensures inside { OnOk result (IsReplySpelling (1 ∷ bytes.now)) }
    ensures outside { IsErrOf result Unread.NotCanonical → ¬ IsReplySpelling (1 ∷ bytes.now) }
{
    let mut cursor = Cursor::new(bytes);
    let time = cursor.take_time()?;
    if cursor.is_at_end() {
        Ok(Some(time))
    } else {
        Err(Unread::NotCanonical)
    }
}

// Reads a reply that is the whole of the bytes.
pub(crate) fn get_reply(bytes: &[u8]) -> Result<Option<Time>, Unread>
    ensures spelled { IfOk result (λ reply. named_time reply ≡ bytes.now) }
    ensures known { IfOk result IsReply }
    ensures equal { IfOk result (λ reply. (other : Option SpecTime) → IsReply other
        → named_time other ≡ bytes.now → reply ≡ other) }
    ensures inside { OnOk result (IsReplySpelling bytes.now) }
    ensures outside { IsErrOf result Unread.NotCanonical → ¬ IsReplySpelling bytes.now }
{
    match bytes.split_first() {
        Some((&NONE, [])) => Ok(None),
        Some((&SOME, rest)) => get_named(rest),
        _ => Err(Unread::NotCanonical),
    }
}
