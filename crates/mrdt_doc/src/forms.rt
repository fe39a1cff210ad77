// The plain forms of a document.
use crate::doc::Doc;
use branch_doc::{
    DocAnswer, DocOp, DocQuery, DocReply, Forms, PlainAnswer, PlainOp, PlainQuery, PlainReply,
    doc_forms,
};
use mrdt_model::Memory;

impl Forms for Doc {
    ghost use Rattle.branch_doc.specs.Forms.{doc_forms};
    ghost use Rattle.mrdt_doc.specs.FormsLaws.{document_forms};

    ghost forms = { doc_forms };

    fn op(plain: &PlainOp) -> Result<Option<DocOp>, Memory> {
        Ok(doc_forms::op(plain.copy()?))
    }

    fn query(plain: &PlainQuery) -> Result<Option<DocQuery>, Memory> {
        Ok(doc_forms::query(plain.copy()?))
    }

    fn reply(reply: DocReply) -> PlainReply {
        doc_forms::reply(reply)
    }

    fn answer(answer: DocAnswer) -> PlainAnswer {
        doc_forms::answer(answer)
    }

    ghost are_forms = { document_forms };
}
