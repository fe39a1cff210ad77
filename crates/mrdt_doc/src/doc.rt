// The document, and what it is as a mergeable type.
use branch_doc::{DocAnswer, DocOp, DocQuery, DocReply, Product};
use mrdt_model::{Memory, Mrdt, Time, Unread};
use std::alloc::Global;
use std::marker::Model;

/// A document. Contracts see the product's value.
#[derive(Drop)]
pub struct Doc {
    product: Product,
}

impl Model for Doc {
    ghost use Rattle.branch_doc.specs.Document.{DocState};

    ghost Value = { DocState };

    ghost view = { λ d. d.product };
}

impl Mrdt for Doc {
    ghost use Rattle.branch_doc.specs.Document.{document};
    ghost use Rattle.mrdt_doc.specs.Laws.{document_laws};

    type Op = DocOp;

    type Query = DocQuery;

    type Answer = DocAnswer;

    type Reply = DocReply;

    ghost meaning = { document };

    fn initial(alloc: Global) -> Doc {
        Doc {
            product: Product::initial(alloc),
        }
    }

    fn copy(&self) -> Result<Doc, Memory> {
        Ok(Doc {
            product: self.product.copy()?,
        })
    }

    fn same(&self, other: &Doc) -> bool {
        self.product.same(&other.product)
    }

    fn apply(&self, op: &DocOp, time: Time) -> Result<(Doc, DocReply), Memory> {
        let (product, reply) = self.product.apply(op, time)?;
        Ok((Doc { product }, reply))
    }

    fn merge(base: &Doc, left: &Doc, right: &Doc) -> Result<Doc, Memory> {
        Ok(Doc {
            product: Product::merge(&base.product, &left.product, &right.product)?,
        })
    }

    fn answer(&self, query: &DocQuery) -> Result<DocAnswer, Memory> {
        self.product.answer(query)
    }

    fn put(&self, out: &mut Vec<u8>) -> Result<(), Memory> {
        self.product.put(out)
    }

    fn spelled_length(&self) -> u64 {
        self.product.spelled_length()
    }

    fn get(alloc: Global, bytes: &[u8]) -> Result<Doc, Unread> {
        Ok(Doc {
            product: Product::get(alloc, bytes)?,
        })
    }

    fn put_op(op: &DocOp, out: &mut Vec<u8>) -> Result<(), Memory> {
        Product::put_op(op, out)
    }

    fn get_op(alloc: Global, bytes: &[u8]) -> Result<DocOp, Unread> {
        Product::get_op(alloc, bytes)
    }

    fn put_reply(reply: &DocReply, out: &mut Vec<u8>) -> Result<(), Memory> {
        Product::put_reply(reply, out)
    }

    fn get_reply(alloc: Global, bytes: &[u8]) -> Result<DocReply, Unread> {
        Product::get_reply(alloc, bytes)
    }

    ghost laws = { document_laws };
}
