// Nodes compared.
ghost use Rattle.std.specs.Prelude.{◌≡◌, ◌↔◌, ◌++◌, List, ℕ, length, IsTrue};
ghost use Rattle.std.specs.List.{flat_map};
ghost use Rattle.mrdt_model.specs.Times.{IsTime, same_time};
ghost use Rattle.mrdt_sequence.specs.Sequence.{IsReply, node_spelling};

use crate::node::Node;
use crate::nodes::Nodes;
use live_set::Payload;
use mrdt_model::Time;

// Whether two times are the same.
#[tactic(auto, unfolding(mrdt_model::specs::Times::same_time))]
pub(crate) fn is_same_time(mine: Time, theirs: Time) -> bool
    ensures test { result ≡ same_time mine theirs }
    ensures same { IsTrue result ↔ (mine ≡ theirs) }
    ensures in_range { IsTime mine × IsTime theirs }
{
    mine == theirs
}

// Whether two nodes' parents are the same, or neither has one.
pub(crate) fn is_same_parent(mine: Option<Time>, theirs: Option<Time>) -> bool
    ensures same { IsTrue result ↔ (mine ≡ theirs) }
    ensures in_range { IsReply mine × IsReply theirs }
{
    mine == theirs
}

// Whether two nodes are equal but for what was put.
fn is_same_place(mine: &Node, theirs: &Node) -> bool
    ensures same { IsTrue result
        ↔ ((mine.now.time ≡ theirs.now.time) × (mine.now.parent ≡ theirs.now.parent)
        × (mine.now.hidden ≡ theirs.now.hidden)) }
    ensures times { IsTime mine.now.time × IsTime theirs.now.time }
    ensures parents { IsReply mine.now.parent × IsReply theirs.now.parent }
{
    let times = is_same_time(mine.time, theirs.time);
    let parents = is_same_parent(mine.parent, theirs.parent);
    times && parents && mine.hidden == theirs.hidden
}

// Whether two nodes are equal. Those whose spellings stand at the front of the same bytes are.
pub(crate) fn is_same_node(mine: &Node, theirs: &Node) -> bool
    ensures same { IsTrue result ↔ (mine.now ≡ theirs.now) }
    ensures spelled { (a b : List ℕ) → node_spelling mine.now ++ a ≡ node_spelling theirs.now ++ b
        → mine.now ≡ theirs.now }
{
    is_same_place(mine, theirs) && mine.payload.same(&theirs.payload)
}

// Whether as many nodes are equal, each to the other at its place.
pub(crate) fn are_same(nodes: &Nodes, others: &Nodes) -> bool
    requires { length nodes.now ≡ length others.now }
    ensures same { IsTrue result ↔ (nodes.now ≡ others.now) }
    ensures spelled { flat_map node_spelling nodes.now ≡ flat_map node_spelling others.now
        → nodes.now ≡ others.now }
{
    let mut mine = nodes.walk();
    let mut theirs = others.walk();
    while let Some(node) = mine.next() {
        match theirs.next() {
            Some(other) => {
                if !is_same_node(node, other) {
                    return false;
                }
            }
            None => return false,
        }
    }
    true
}
