// What a sequence is asked and what it answers.
use live_set::Kept;
use mrdt_model::{Bytes, Listing};

/// An operation of a sequence. It replies the time of an item: an insert that of the item that it was put
/// behind, or none where it was put at the start; a delete that of the item that it took away, or none where
/// there was none.
#[derive(Drop)]
pub enum SequenceOp {
    /// Puts a payload behind that many items, or behind all where there are fewer.
    Insert(u32, Bytes),
    /// Takes away the item behind that many.
    Delete(u32),
}

/// A query of a sequence.
#[derive(Clone, Copy, Debug, PartialEq, Eq)]
pub enum SequenceQuery {
    /// The items in order.
    Read,
    /// The number of the items.
    Length,
}

/// The answer to a query of a sequence.
#[derive(Drop)]
pub enum SequenceAnswer {
    /// The items with the times of their inserts.
    OnItems(Listing<Kept<Bytes>>),
    /// The number of the items.
    OnLength(u64),
}

impl SequenceOp {
    ghost use Rattle.mrdt_sequence.specs.Sequence.{IsOp};

    // The place is a number of 32 bits, and the payload is one of bytes: a call tells a proof so.
    pub(crate) fn known(&self)
        ensures { IsOp self.now }
    {
        match self {
            SequenceOp::Insert(place, payload) => {
                let _place = *place;
                let _bytes = payload.as_slice();
            }
            SequenceOp::Delete(place) => {
                let _place = *place;
            }
        }
    }
}
