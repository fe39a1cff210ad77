// Nodes as entries of a list that versions share.
ghost use Rattle.std.specs.Prelude.{length};
ghost use Rattle.mrdt_model.specs.Spelled.{capped};
ghost use Rattle.mrdt_sequence.specs.Places.{living};
ghost use Rattle.mrdt_sequence.specs.Sequence.{node_spelling};

use crate::node::Node;
use crate::spelling::length_of;
use mrdt_model::Memory;
use shared_list::Entry;

impl Entry for Node {
    // the bytes of the spelling, and one for each item
    ghost weight_of = { λ n. capped (length (node_spelling n)) };

    ghost amount_of = { living };

    fn copy(&self) -> Result<Node, Memory> {
        Ok(Node {
            time: self.time,
            parent: self.parent,
            hidden: self.hidden,
            payload: self.payload.copy()?,
        })
    }

    fn weight(&self) -> u64 {
        length_of(self)
    }

    fn amount(&self) -> i128 {
        if self.hidden { 0 } else { 1 }
    }
}
