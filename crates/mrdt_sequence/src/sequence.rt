// The sequence and its laws.
ghost use Rattle.std.specs.Prelude.{◌≡◌, length, IfOk};
ghost use Rattle.mrdt_sequence.specs.Order.{AreDifferent, woven};
ghost use Rattle.mrdt_sequence.specs.Sequence.{items_of, node_times, nodes_behind, reply_at, answer_at};

use crate::compare::are_same;
use crate::edit::items;
use crate::nodes::Nodes;
use crate::op::{SequenceAnswer, SequenceOp, SequenceQuery};
use crate::reading::get_nodes;
use crate::spelling::{get_op, get_reply, put_named, put_op};
use live_set::shared_text;
use mrdt_model::{Listing, Memory, Mrdt, Time, Unread};
use std::alloc::Global;
use std::marker::Model;

/// Payloads in an order that each insert chooses. Contracts see all nodes in that order, hidden ones too.
#[derive(Drop)]
pub struct Sequence {
    nodes: Nodes,
}

impl Model for Sequence {
    ghost use Rattle.std.specs.Prelude.{List};
    ghost use Rattle.mrdt_sequence.specs.declared.node.Node.{Node};

    ghost Value = { List Node };

    ghost view = { λ s. s.nodes };
}

impl Sequence {
    /// The number of the items. It takes no memory.
    pub fn length(&self) -> u64
        ensures { result ≡ length (items_of self.now) }
    {
        self.nodes.count()
    }

    // A sequence of the same nodes, with payloads that both share.
    fn shared(&self) -> Result<Sequence, Memory>
        ensures { IfOk result (λ sequence. sequence ≡ self.now) }
    {
        Ok(Sequence {
            nodes: self.nodes.shared()?,
        })
    }

    // The sequence behind an operation, and what the operation replies.
    fn behind(&self, op: &SequenceOp, time: Time) -> Result<(Sequence, Option<Time>), Memory>
        ensures nodes { IfOk result (λ made. AreDifferent (node_times self.now)
            → made.0 ≡ nodes_behind time op.now made.1 self.now) }
        ensures reply { IfOk result (λ made. made.1 ≡ reply_at self.now op.now) }
    {
        let (nodes, reply) = match op {
            SequenceOp::Insert(place, payload) => {
                let shared = shared_text(self.nodes.alloc(), payload.as_slice())?;
                self.nodes.inserted(*place, time, shared)?
            }
            SequenceOp::Delete(place) => self.nodes.deleted(*place)?,
        };
        Ok((Sequence { nodes }, reply))
    }

    // Two sequences, woven.
    fn joined(left: &Sequence, right: &Sequence) -> Result<Sequence, Memory>
        ensures { IfOk result (λ made. made ≡ woven left.now right.now) }
    {
        Ok(Sequence {
            nodes: Nodes::woven(&left.nodes, &right.nodes)?,
        })
    }

    // What it answers.
    fn answered(&self, query: &SequenceQuery) -> Result<SequenceAnswer, Memory>
        ensures { IfOk result (λ answer. answer ≡ answer_at self.now query.now) }
    {
        match query {
            SequenceQuery::Read => {
                let list = items(self.nodes.alloc(), &self.nodes)?;
                Ok(SequenceAnswer::OnItems(Listing::from_vec(list)))
            }
            SequenceQuery::Length => Ok(SequenceAnswer::OnLength(self.length())),
        }
    }
}

impl Mrdt for Sequence {
    ghost use Rattle.mrdt_sequence.specs.Sequence.{sequence_meaning};
    ghost use Rattle.mrdt_sequence.specs.SequenceLaws.{sequence_laws};

    type Op = SequenceOp;

    type Query = SequenceQuery;

    type Answer = SequenceAnswer;

    type Reply = Option<Time>;

    ghost meaning = { sequence_meaning };

    fn initial(alloc: Global) -> Sequence {
        Sequence {
            nodes: Nodes::new(alloc),
        }
    }

    fn copy(&self) -> Result<Sequence, Memory> {
        self.shared()
    }

    fn same(&self, other: &Sequence) -> bool {
        let (mine, theirs) = (&self.nodes, &other.nodes);
        mine.len() == theirs.len() && are_same(mine, theirs)
    }

    fn apply(&self, op: &SequenceOp, time: Time) -> Result<(Sequence, Option<Time>), Memory> {
        op.known();
        let (made, reply) = self.behind(op, time)?;
        Ok((made, reply))
    }

    fn merge(_base: &Sequence, left: &Sequence, right: &Sequence) -> Result<Sequence, Memory> {
        Sequence::joined(left, right)
    }

    fn answer(&self, query: &SequenceQuery) -> Result<SequenceAnswer, Memory> {
        self.answered(query)
    }

    fn put(&self, out: &mut Vec<u8>) -> Result<(), Memory> {
        self.nodes.put(out)
    }

    fn spelled_length(&self) -> u64 {
        self.nodes.spelled_length()
    }

    fn get(alloc: Global, bytes: &[u8]) -> Result<Sequence, Unread> {
        Ok(Sequence {
            nodes: Nodes::of(alloc, get_nodes(alloc, bytes)?)?,
        })
    }

    fn put_op(op: &SequenceOp, out: &mut Vec<u8>) -> Result<(), Memory> {
        put_op(op, out)
    }

    fn get_op(alloc: Global, bytes: &[u8]) -> Result<SequenceOp, Unread> {
        get_op(alloc, bytes)
    }

    fn put_reply(reply: &Option<Time>, out: &mut Vec<u8>) -> Result<(), Memory> {
        put_named(*reply, out)
    }

    fn get_reply(_alloc: Global, bytes: &[u8]) -> Result<Option<Time>, Unread> {
        get_reply(bytes)
    }

    ghost laws = { sequence_laws };
}
