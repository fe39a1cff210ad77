// The nodes of a sequence.
ghost use Rattle.std.specs.Prelude.{◌≡◌, ◌+◌, ◌<◌, ◌≤◌, ◌++◌, ◌∷◌, [], Some, take, drop, length, slice_get, IfOk, OnOk, OnErr};
ghost use Rattle.mrdt_model.specs.Spelled.{AppendsPart, capped};
ghost use Rattle.mrdt_sequence.specs.Edits.{StartsAt, StandsFrom, WeavesNext};
ghost use Rattle.mrdt_sequence.specs.Order.{AreDifferent, insert_behind, joined, woven};
ghost use Rattle.mrdt_sequence.specs.Places.{IsItem};
ghost use Rattle.mrdt_sequence.specs.Sequence.{new_node, hide_at, items_of, first_time, last_time, node_times, sequence_spelling};

use crate::compare::{is_same_node, is_same_time};
use crate::edit::{bare_copy, newer_in_front};
use crate::node::Node;
use crate::spelling::put_node;
use crate::walk::Walk;
use branch_wire::put_u64;
use mrdt_model::{Bytes, Memory, Shared, Time};
use shared_list::{Entry, SharedList, from_vec};
use std::alloc::Global;
use std::marker::Model;

/// Nodes in an order, in a list whose versions share what they have in common. Contracts see their list.
#[derive(Drop)]
pub(crate) struct Nodes {
    alloc: Global,
    list: SharedList<Node>,
}

impl Model for Nodes {
    ghost use Rattle.std.specs.Prelude.{List};
    ghost use Rattle.mrdt_sequence.specs.declared.node.Node.{Node};

    ghost Value = { List Node };

    ghost view = { λ n. n.list };
}

impl Nodes {
    // No nodes. It takes no memory.
    pub(crate) fn new(alloc: Global) -> Nodes
        ensures { result ≡ [] }
    {
        Nodes {
            alloc,
            list: SharedList::new(alloc),
        }
    }

    // These nodes.
    pub(crate) fn of(alloc: Global, nodes: Vec<Node>) -> Result<Nodes, Memory>
        ensures { IfOk result (λ made. made ≡ nodes.items) }
    {
        Ok(Nodes {
            alloc,
            list: from_vec(alloc, nodes)?,
        })
    }

    // The allocator that they lie in.
    pub(crate) fn alloc(&self) -> Global {
        self.alloc
    }

    // How many there are.
    pub(crate) fn len(&self) -> u64
        ensures { result ≡ length self.now }
    {
        self.list.len()
    }

    // How many of them are items.
    pub(crate) fn count(&self) -> u64
        ensures { result ≡ length (items_of self.now) }
    {
        let _count = self.list.len();
        self.list.amount() as u64
    }

    // A walk over all.
    pub(crate) fn walk<'a>(&'a self) -> Walk<'a>
        ensures { result ≡ self.now }
    {
        Walk::over(&self.list, 0)
    }

    // The same nodes, which both share. It takes no memory.
    pub(crate) fn shared(&self) -> Result<Nodes, Memory>
        ensures { IfOk result (λ made. made ≡ self.now) }
    {
        Ok(Nodes {
            alloc: self.alloc,
            list: self.list.copy()?,
        })
    }

    // The place of the item behind this many.
    #[tactic(auto, using(crate::proofs::Items::living_rises, crate::proofs::Items::living_sum, crate::proofs::Items::is_item))]
    fn place_of(&self, index: u64) -> u64
        requires { index < length (items_of self.now) }
        ensures { IsItem self.now index result }
    {
        self.list.find_by_amount(i128::from(index))
    }

    // The last of this many items, or of all where there are fewer: behind how many nodes it ends, and its time.
    #[tactic(auto, using(crate::proofs::Items::parent_none, crate::proofs::Items::parent_some, crate::proofs::Items::starts_none, crate::proofs::Items::starts_some, crate::proofs::Items::item_within))]
    fn parent_at(&self, index: u64) -> (u64, Option<Time>)
        ensures starts { StartsAt result.1 self.now result.0 }
        ensures last { result.1 ≡ last_time None (take index (items_of self.now)) }
    {
        let _nodes = self.len();
        let count = self.count();
        let last = index.min(count);
        if last == 0 {
            return (0, None);
        }
        let place = self.place_of(last - 1);
        (place + 1, Some(self.list.get(place).time))
    }

    // The nodes with a new one behind this many items, and the time of its parent.
    #[tactic(auto, using(crate::proofs::Items::inserts_within, crate::proofs::Items::inserts_at))]
    pub(crate) fn inserted(
        &self,
        index: u32,
        time: Time,
        payload: Shared<Bytes>,
    ) -> Result<(Nodes, Option<Time>), Memory>
        ensures nodes { IfOk result (λ made. AreDifferent (node_times self.now)
            → made.0 ≡ insert_behind made.1 (new_node time made.1 payload) self.now) }
        ensures last { IfOk result (λ made.
            made.1 ≡ last_time None (take index (items_of self.now))) }
    {
        let _count = self.list.len();
        let (from, parent) = self.parent_at(u64::from(index));
        let mut ahead = Walk::over(&self.list, from);
        let place = from + newer_in_front(&mut ahead, time);
        let node = Node {
            time,
            parent,
            hidden: false,
            payload,
        };
        let nodes = Nodes {
            alloc: self.alloc,
            list: self.list.insert(place, node)?,
        };
        Ok((nodes, parent))
    }

    // The nodes where the item behind this many, if there is one, is hidden, and its time.
    #[tactic(auto, using(crate::proofs::Items::first_none, crate::proofs::Items::first_item, crate::proofs::Items::hides_item, crate::proofs::Items::item_within))]
    pub(crate) fn deleted(&self, index: u32) -> Result<(Nodes, Option<Time>), Memory>
        ensures nodes { IfOk result (λ made. AreDifferent (node_times self.now)
            → made.0 ≡ hide_at made.1 self.now) }
        ensures first { IfOk result (λ made.
            made.1 ≡ first_time (drop index (items_of self.now))) }
    {
        if u64::from(index) >= self.count() {
            return Ok((self.shared()?, None));
        }
        let place = self.place_of(u64::from(index));
        let node = self.list.get(place);
        let nodes = Nodes {
            alloc: self.alloc,
            list: self.list.replace(place, bare_copy(self.alloc, node)?)?,
        };
        Ok((nodes, Some(node.time)))
    }

    // Puts the same node at a place.
    fn add_at(&mut self, place: u64, node: &Node) -> Result<(), Memory>
        requires { place ≤ length self.old }
        ensures { OnOk result (self.new ≡ take place self.old ++ node.now ∷ drop place self.old) }
    {
        let list = self.list.insert(place, node.copy()?)?;
        self.list = list;
        Ok(())
    }

    // Leaves at a place what two nodes of one time are together.
    #[tactic(auto, using(crate::proofs::Weaving::joined_hidden, crate::proofs::Weaving::joined_same, crate::proofs::Weaving::joined_other, crate::proofs::Items::within_of))]
    fn join_at(&mut self, place: u64, node: &Node, other: &Node) -> Result<(), Memory>
        requires { slice_get self.old place ≡ Some node.now }
        ensures { OnOk result (self.new
            ≡ take place self.old ++ joined node.now other.now ∷ drop (place + 1) self.old) }
    {
        let _count = self.list.len();
        if node.hidden {
            return Ok(());
        }
        if is_same_node(node, other) {
            return Ok(());
        }
        let list = self.list.replace(place, other.copy()?)?;
        self.list = list;
        Ok(())
    }

    // Weaves the first node ahead of two lists into this one, where the left ones stand from a place on.
    #[tactic(auto, using(crate::proofs::Weaving::weaves_joined, crate::proofs::Weaving::weaves_added, crate::proofs::Weaving::weaves_kept, crate::proofs::Weaving::weaves_last, crate::proofs::Weaving::stands_there))]
    fn weave_next(
        &mut self,
        place: u64,
        mine: &mut Walk<'_>,
        others: &mut Walk<'_>,
    ) -> Result<(), Memory>
        requires here { StandsFrom place self.old mine.old }
        requires some { ¬ (others.old ≡ []) }
        ensures { OnOk result (WeavesNext place self.old mine.old others.old self.new mine.new
            others.new) }
    {
        match (mine.first(), others.first()) {
            (Some(node), Some(other)) => {
                if is_same_time(node.time, other.time) {
                    self.join_at(place, node, other)?;
                    mine.skip();
                    others.skip();
                } else if node.time.is_before(other.time) {
                    self.add_at(place, other)?;
                    others.skip();
                } else {
                    mine.skip();
                }
            }
            (None, Some(other)) => {
                self.add_at(place, other)?;
                others.skip();
            }
            (_, None) => unreachable!(),
        }
        Ok(())
    }

    // Both lists of nodes, woven: the left one, with what the right one has more. It takes memory for that alone.
    #[tactic(auto, using(crate::proofs::Weaving::woven_start, crate::proofs::Weaving::woven_from, crate::proofs::Weaving::woven_more, crate::proofs::Weaving::woven_room, crate::proofs::Weaving::woven_end))]
    pub(crate) fn woven(left: &Nodes, right: &Nodes) -> Result<Nodes, Memory>
        ensures { IfOk result (λ made. made ≡ woven left.now right.now) }
    {
        let mut made = left.shared()?;
        let mut mine = left.walk();
        let mut others = right.walk();
        let mut place = 0;
        while !others.is_at_end() {
            made.weave_next(place, &mut mine, &mut others)?;
            let _count = made.len();
            place += 1;
        }
        Ok(made)
    }

    // Writes the number of the nodes, and the nodes in order.
    #[tactic(auto, using(crate::proofs::Walks::put_more, crate::proofs::Walks::put_part, crate::proofs::Walks::put_end))]
    pub(crate) fn put(&self, out: &mut Vec<u8>) -> Result<(), Memory>
        ensures ok { OnOk result (out.new.items ≡ out.old.items ++ sequence_spelling self.now) }
        ensures err { OnErr result
            (AppendsPart out.old.items out.new.items (sequence_spelling self.now)) }
    {
        put_u64(self.len(), out)?;
        let mut ahead = self.walk();
        while let Some(node) = ahead.next() {
            put_node(node, out)?;
        }
        Ok(())
    }

    // How many bytes that has, or 2^64 - 1 where it has more. It takes no memory.
    pub(crate) fn spelled_length(&self) -> u64
        ensures { result ≡ capped (length (sequence_spelling self.now)) }
    {
        self.list.weight().saturating_add(8)
    }
}
