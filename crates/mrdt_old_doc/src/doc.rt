// The document of version 1, and what it is as a mergeable type.
use crate::elements::Elements;
use branch_doc::{DocAnswer, DocQuery, DocReply};
use mrdt_both::Both;
use mrdt_counter::Sum;
use mrdt_flag::Flag;
use mrdt_log::Log;
use mrdt_map::Map;
use mrdt_model::{Memory, Mrdt, Time, Unread};
use mrdt_queue::Queue;
use mrdt_register::{Lww, Multi};
use std::alloc::Global;
use std::marker::Model;

/// A map for each kind of value, as a document has them, but of sums for counters, and of sets without Clear.
pub type OldProduct = Both<
    Map<Sum>,
    Both<
        Map<Flag>,
        Both<Map<Lww>, Both<Map<Multi>, Both<Map<Elements>, Both<Map<Log>, Map<Queue>>>>>,
    >,
>;

/// An operation of a document of version 1.
pub type OldDocOp = <OldProduct as Mrdt>::Op;

/// A document of version 1. Contracts see the product's value.
#[derive(Drop)]
pub struct Doc1 {
    product: OldProduct,
}

impl Model for Doc1 {
    ghost use Rattle.mrdt_old_doc.specs.OldDocument.{OldDocState};

    ghost Value = { OldDocState };

    ghost view = { λ d. d.product };
}

impl Mrdt for Doc1 {
    ghost use Rattle.mrdt_old_doc.specs.OldDocument.{old_document};
    ghost use Rattle.mrdt_old_doc.specs.OldLaws.{old_document_laws};

    type Op = OldDocOp;

    type Query = DocQuery;

    type Answer = DocAnswer;

    type Reply = DocReply;

    ghost meaning = { old_document };

    fn initial(alloc: Global) -> Doc1 {
        Doc1 {
            product: OldProduct::initial(alloc),
        }
    }

    fn copy(&self) -> Result<Doc1, Memory> {
        Ok(Doc1 {
            product: self.product.copy()?,
        })
    }

    fn same(&self, other: &Doc1) -> bool {
        self.product.same(&other.product)
    }

    fn apply(&self, op: &OldDocOp, time: Time) -> Result<(Doc1, DocReply), Memory> {
        let (product, reply) = self.product.apply(op, time)?;
        Ok((Doc1 { product }, reply))
    }

    fn merge(base: &Doc1, left: &Doc1, right: &Doc1) -> Result<Doc1, Memory> {
        Ok(Doc1 {
            product: OldProduct::merge(&base.product, &left.product, &right.product)?,
        })
    }

    fn answer(&self, query: &DocQuery) -> Result<DocAnswer, Memory> {
        self.product.answer(query)
    }

    fn put(&self, out: &mut Vec<u8>) -> Result<(), Memory> {
        self.product.put(out)
    }

    fn spelled_length(&self) -> u64 {
        self.product.spelled_length()
    }

    fn get(alloc: Global, bytes: &[u8]) -> Result<Doc1, Unread> {
        Ok(Doc1 {
            product: OldProduct::get(alloc, bytes)?,
        })
    }

    fn put_op(op: &OldDocOp, out: &mut Vec<u8>) -> Result<(), Memory> {
        OldProduct::put_op(op, out)
    }

    fn get_op(alloc: Global, bytes: &[u8]) -> Result<OldDocOp, Unread> {
        OldProduct::get_op(alloc, bytes)
    }

    fn put_reply(reply: &DocReply, out: &mut Vec<u8>) -> Result<(), Memory> {
        OldProduct::put_reply(reply, out)
    }

    fn get_reply(alloc: Global, bytes: &[u8]) -> Result<DocReply, Unread> {
        OldProduct::get_reply(alloc, bytes)
    }

    ghost laws = { old_document_laws };
}
