// Nodes that are walked and made.
ghost use Rattle.std.specs.Prelude.{◌≡◌, ◌<◌, ◌^◌, true, length, IfOk};
ghost use Rattle.mrdt_sequence.specs.Edits.{SettlesAt};
ghost use Rattle.mrdt_sequence.specs.Sequence.{marked, items_of};

use crate::node::Node;
use crate::nodes::Nodes;
use crate::walk::Walk;
use live_set::Kept;
use mrdt_model::{Bytes, Memory, Shared, Time};
use std::alloc::Global;

// How many nodes in front are newer.
pub(crate) fn newer_in_front(nodes: &mut Walk<'_>, time: Time) -> u64
    requires { length nodes.old < 2 ^ 64 }
    ensures { SettlesAt time nodes.old result }
{
    let mut count = 0;
    while let Some(node) = nodes.next() {
        if !time.is_before(node.time) {
            return count;
        }
        count += 1;
    }
    count
}

// The same node, hidden.
pub(crate) fn bare_copy(alloc: Global, node: &Node) -> Result<Node, Memory>
    ensures { IfOk result (λ made. made ≡ marked true node.now) }
{
    Ok(Node {
        time: node.time,
        parent: node.parent,
        hidden: true,
        payload: Shared::new(alloc, Bytes::from_vec(Vec::new(alloc)))?,
    })
}

// The items in order.
pub(crate) fn items(alloc: Global, nodes: &Nodes) -> Result<Vec<Kept<Bytes>>, Memory>
    ensures { IfOk result (λ list. list.items ≡ items_of nodes.now) }
{
    let mut ahead = nodes.walk();
    let mut list = Vec::new(alloc);
    while let Some(node) = ahead.next() {
        if !node.hidden {
            list.push(Kept {
                time: node.time,
                payload: node.payload.get().copy()?,
            })?;
        }
    }
    Ok(list)
}
