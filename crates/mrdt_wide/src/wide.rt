// The document with sequences, and what it is as a mergeable type.
use mrdt_both::Both;
use mrdt_doc::Doc;
use mrdt_map::Map;
use mrdt_model::{Memory, Mrdt, Time, Unread};
use mrdt_sequence::Sequence;
use std::alloc::Global;
use std::marker::Model;

/// A document beside a map of sequences.
pub type WideProduct = Both<Doc, Map<Sequence>>;

/// An operation of a document with sequences.
pub type WideOp = <WideProduct as Mrdt>::Op;

/// A query of a document with sequences.
pub type WideQuery = <WideProduct as Mrdt>::Query;

/// The reply to an operation of a document with sequences.
pub type WideReply = <WideProduct as Mrdt>::Reply;

/// The answer to a query of a document with sequences.
pub type WideAnswer = <WideProduct as Mrdt>::Answer;

/// A document with sequences. Contracts see the product's value.
#[derive(Drop)]
pub struct Wide {
    product: WideProduct,
}

impl Model for Wide {
    ghost use Rattle.mrdt_wide.specs.Wide.{WideState};

    ghost Value = { WideState };

    ghost view = { λ w. w.product };
}

impl Mrdt for Wide {
    ghost use Rattle.mrdt_wide.specs.Wide.{wide_document};
    ghost use Rattle.mrdt_wide.specs.Laws.{wide_laws};

    type Op = WideOp;

    type Query = WideQuery;

    type Answer = WideAnswer;

    type Reply = WideReply;

    ghost meaning = { wide_document };

    fn initial(alloc: Global) -> Wide {
        Wide {
            product: WideProduct::initial(alloc),
        }
    }

    fn copy(&self) -> Result<Wide, Memory> {
        Ok(Wide {
            product: self.product.copy()?,
        })
    }

    fn same(&self, other: &Wide) -> bool {
        self.product.same(&other.product)
    }

    fn apply(&self, op: &WideOp, time: Time) -> Result<(Wide, WideReply), Memory> {
        let (product, reply) = self.product.apply(op, time)?;
        Ok((Wide { product }, reply))
    }

    fn merge(base: &Wide, left: &Wide, right: &Wide) -> Result<Wide, Memory> {
        Ok(Wide {
            product: WideProduct::merge(&base.product, &left.product, &right.product)?,
        })
    }

    fn answer(&self, query: &WideQuery) -> Result<WideAnswer, Memory> {
        self.product.answer(query)
    }

    fn put(&self, out: &mut Vec<u8>) -> Result<(), Memory> {
        self.product.put(out)
    }

    fn spelled_length(&self) -> u64 {
        self.product.spelled_length()
    }

    fn get(alloc: Global, bytes: &[u8]) -> Result<Wide, Unread> {
        Ok(Wide {
            product: WideProduct::get(alloc, bytes)?,
        })
    }

    fn put_op(op: &WideOp, out: &mut Vec<u8>) -> Result<(), Memory> {
        WideProduct::put_op(op, out)
    }

    fn get_op(alloc: Global, bytes: &[u8]) -> Result<WideOp, Unread> {
        WideProduct::get_op(alloc, bytes)
    }

    fn put_reply(reply: &WideReply, out: &mut Vec<u8>) -> Result<(), Memory> {
        WideProduct::put_reply(reply, out)
    }

    fn get_reply(alloc: Global, bytes: &[u8]) -> Result<WideReply, Unread> {
        WideProduct::get_reply(alloc, bytes)
    }

    ghost laws = { wide_laws };
}
