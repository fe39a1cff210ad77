// Sequences read from bytes.
ghost use Rattle.std.specs.Prelude.{◌≡◌, ◌++◌, ◌∷◌, ◌↔◌, [], Option, List, ℕ, length, reverse, IsTrue, IfOk, OnOk, MatchOption, IsErrOf};
ghost use Rattle.mrdt_model.specs.declared.time.Time.{Time as SpecTime};
ghost use Rattle.mrdt_sequence.specs.declared.node.Node.{Node as SpecNode};
ghost use Rattle.branch_wire.specs.Reading.{ReadsBack};
ghost use Rattle.mrdt_sequence.specs.Order.{nearest_earlier, AreDifferent};
ghost use Rattle.mrdt_sequence.specs.Reading.{IsAny, IsPath, IsSortedByTime, AreOrdered};
ghost use Rattle.mrdt_sequence.specs.Sequence.{IsReply, NodeFits, AreNodes, node_times, named_time, hidden_field, node_spelling, sequence_spelling, IsSequenceSpelling};

use crate::compare::is_same_parent;
use crate::node::Node;
use crate::spelling::{NONE, SOME};
use branch_wire::Cursor;
use live_set::shared_text;
use mrdt_model::{Memory, Time, Unread};
use std::alloc::Global;

// Takes a byte and, where it tells so, a time.
fn take_named(cursor: &mut Cursor<'_>) -> Result<Option<Time>, Unread>
    ensures known { IfOk result IsReply }
    ensures ok { IfOk result (λ time. cursor.old ≡ named_time time ++ cursor.new) }
    ensures back { ReadsBack IsReply named_time (λ time. time) cursor.old result cursor.new }
{
    match cursor.take_u8()? {
        NONE => Ok(None),
        SOME => Ok(Some(cursor.take_time()?)),
        _ => Err(Unread::NotCanonical),
    }
}

// Takes a byte that tells whether a node is hidden.
fn take_hidden(cursor: &mut Cursor<'_>) -> Result<bool, Unread>
    ensures ok { IfOk result (λ hidden. cursor.old ≡ hidden_field hidden ++ cursor.new) }
    ensures back { ReadsBack IsAny hidden_field (λ hidden. hidden) cursor.old result cursor.new }
{
    match cursor.take_u8()? {
        0 => Ok(false),
        1 => Ok(true),
        _ => Err(Unread::NotCanonical),
    }
}

// Takes a node. A hidden one has no payload.
fn take_node(alloc: Global, cursor: &mut Cursor<'_>) -> Result<Node, Unread>
    ensures known { IfOk result NodeFits }
    ensures ok { IfOk result (λ node. cursor.old ≡ node_spelling node ++ cursor.new) }
    ensures outside { IsErrOf result Unread.NotCanonical → (node : SpecNode) (rest : List ℕ)
        → NodeFits node → cursor.old ≡ node_spelling node ++ rest → ⊥ }
{
    let time = cursor.take_time()?;
    let parent = take_named(cursor)?;
    let hidden = take_hidden(cursor)?;
    let bytes = cursor.take_bytes()?;
    if hidden && !bytes.is_empty() {
        return Err(Unread::NotCanonical);
    }
    let payload = shared_text(alloc, bytes)?;
    Ok(Node {
        time,
        parent,
        hidden,
        payload,
    })
}

// The last time.
fn last_of(path: &[Time]) -> Option<Time>
    ensures { MatchOption result (path.now ≡ []) (λ last. (others : List SpecTime)
        × (path.now ≡ others ++ last ∷ [])) }
{
    match path.split_last() {
        Some((last, _)) => Some(*last),
        None => None,
    }
}

// Takes the times that are not earlier off the end of a path. The answer is the one that is then at its end,
// the nearest earlier one.
fn drop_later(path: &mut Vec<Time>, time: Time) -> Option<Time>
    ensures same { (t : SpecTime)
        → nearest_earlier t (time ∷ reverse path.new.items)
        ≡ nearest_earlier t (time ∷ reverse path.old.items) }
    ensures nearest { result ≡ nearest_earlier time (reverse path.old.items) }
{
    while let Some(last) = last_of(path) {
        if last.is_before(time) {
            return Some(last);
        }
        path.pop();
    }
    None
}

// Puts a time at the end of a path, and tells the nearest earlier one.
fn follow(path: &mut Vec<Time>, time: Time) -> Result<Option<Time>, Memory>
    ensures { IfOk result (λ nearest. (before : List SpecTime) → IsPath path.old.items before
        → (nearest ≡ nearest_earlier time before) × IsPath path.new.items (time ∷ before)) }
{
    let nearest = drop_later(path, time);
    path.push(time)?;
    Ok(nearest)
}

// Whether times that are sorted all differ.
fn all_rise(times: &[Time]) -> bool
    requires { IsSortedByTime times.now }
    ensures { IsTrue result ↔ AreDifferent times.now }
{
    for index in 1..times.len() {
        if !times[index - 1].is_before(times[index]) {
            return false;
        }
    }
    true
}

// Whether all times differ.
fn all_differ(alloc: Global, nodes: &[Node]) -> Result<bool, Memory>
    ensures { IfOk result (λ differ. IsTrue differ ↔ AreDifferent (node_times nodes.now)) }
{
    let mut times = Vec::new(alloc);
    for node in nodes {
        times.push(node.time)?;
    }
    times.sort()?;
    Ok(all_rise(&times))
}

// Puts a node behind all others.
fn add(nodes: &mut Vec<Node>, node: Node) -> Result<(), Memory>
    ensures { OnOk result (nodes.new.items ≡ nodes.old.items ++ node ∷ []) }
{
    Ok(nodes.push(node)?)
}

// Takes the number of the nodes, and the nodes in order.
fn take_nodes(alloc: Global, cursor: &mut Cursor<'_>) -> Result<Vec<Node>, Unread>
    ensures known { IfOk result (λ nodes. AreOrdered nodes.items) }
    ensures ok { IfOk result (λ nodes. cursor.old ≡ sequence_spelling nodes.items ++ cursor.new) }
    ensures outside { IsErrOf result Unread.NotCanonical → (nodes : List SpecNode) (rest : List ℕ)
        → AreOrdered nodes → cursor.old ≡ sequence_spelling nodes ++ rest → ⊥ }
{
    let count = cursor.take_u64()?;
    let mut nodes = Vec::new(alloc);
    let mut path = Vec::new(alloc);
    for _index in 0..count {
        let node = take_node(alloc, cursor)?;
        let nearest = follow(&mut path, node.time)?;
        if !is_same_parent(nearest, node.parent) {
            return Err(Unread::NotCanonical);
        }
        add(&mut nodes, node)?;
    }
    Ok(nodes)
}

// Reads nodes whose spelling is the whole of the bytes. `NotCanonical` comes exactly where they are none.
pub(crate) fn get_nodes(alloc: Global, bytes: &[u8]) -> Result<Vec<Node>, Unread>
    ensures spelled { IfOk result (λ nodes. sequence_spelling nodes.items ≡ bytes.now) }
    ensures known { IfOk result (λ nodes. AreNodes nodes.items) }
    ensures equal { IfOk result (λ nodes. (others : List SpecNode) → AreNodes others
        → sequence_spelling others ≡ bytes.now → nodes.items ≡ others) }
    ensures inside { OnOk result (IsSequenceSpelling bytes.now) }
    ensures outside { IsErrOf result Unread.NotCanonical → ¬ IsSequenceSpelling bytes.now }
{
    let mut cursor = Cursor::new(bytes);
    let nodes = take_nodes(alloc, &mut cursor)?;
    if !cursor.is_at_end() {
        return Err(Unread::NotCanonical);
    }
    if all_differ(alloc, &nodes)? {
        Ok(nodes)
    } else {
        Err(Unread::NotCanonical)
    }
}
