// Walks over nodes.
ghost use Rattle.std.specs.Prelude.{◌≡◌, ◌↔◌, ◌≤◌, ◌∷◌, [], List, drop, length, IsTrue, MatchOption};
ghost use Rattle.mrdt_sequence.specs.declared.node.Node.{Node as SpecNode};

use crate::node::Node;
use shared_list::{SharedList, Walk as ListWalk};
use std::marker::Model;

/// What is ahead in a walk over nodes. Contracts see these nodes.
#[derive(Drop)]
pub(crate) struct Walk<'a> {
    nodes: ListWalk<'a, Node>,
}

impl<'a> Model for Walk<'a> {
    ghost use Rattle.std.specs.Prelude.{List};
    ghost use Rattle.mrdt_sequence.specs.declared.node.Node.{Node};

    ghost Value = { List Node };

    ghost view = { λ w. w.nodes };
}

impl<'a> Walk<'a> {
    // The nodes from a place on.
    pub(crate) fn over(nodes: &'a SharedList<Node>, place: u64) -> Walk<'a>
        requires { place ≤ length nodes.now }
        ensures { result ≡ drop place nodes.now }
    {
        Walk {
            nodes: ListWalk::new(nodes, place),
        }
    }

    // Whether no node is ahead.
    #[tactic(auto, using(crate::proofs::Walks::none_ahead, crate::proofs::Walks::some_ahead))]
    pub(crate) fn is_at_end(&self) -> bool
        ensures { IsTrue result ↔ (self.now ≡ []) }
    {
        match self.nodes.first() {
            Some(_) => false,
            None => true,
        }
    }

    // The first node.
    #[tactic(auto, using(crate::proofs::Walks::first_ahead, crate::proofs::Walks::none_ahead))]
    pub(crate) fn first(&self) -> Option<&'a Node>
        ensures { MatchOption result (self.now ≡ [])
            (λ node. (others : List SpecNode) × (self.now ≡ node.now ∷ others)) }
    {
        match self.nodes.first() {
            Some(node) => Some(node),
            None => None,
        }
    }

    // Steps over the first node, if there is one.
    pub(crate) fn skip(&mut self)
        ensures { self.new ≡ drop 1 self.old }
    {
        self.nodes.skip();
    }

    // Steps over the first node, and tells it.
    #[tactic(auto, using(crate::proofs::Walks::first_ahead, crate::proofs::Walks::none_ahead))]
    pub(crate) fn next(&mut self) -> Option<&'a Node>
        ensures { MatchOption result ((self.old ≡ []) × (self.new ≡ []))
            (λ node. self.old ≡ node.now ∷ self.new) }
    {
        match self.nodes.first() {
            Some(node) => {
                self.nodes.skip();
                Some(node)
            }
            None => None,
        }
    }
}
