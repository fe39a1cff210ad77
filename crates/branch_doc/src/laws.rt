// Laws of plain forms: that those of a document and its own correspond one to one, and what a type may lack.
ghost use Rattle.std.specs.Prelude.{◌≡◌, None};
ghost use Rattle.branch_doc.specs.declared.plain.Kind.TheVariants as kinds;
ghost use Rattle.branch_doc.specs.declared.plain.PlainOp.{PlainOp};
ghost use Rattle.branch_doc.specs.declared.plain.PlainQuery.{PlainQuery};
ghost use Rattle.branch_doc.specs.Kinds.{op_kind, query_kind, reply_kind, answer_kind};
ghost use Rattle.branch_doc.specs.Types.{AreNames, AreNamed};
ghost use Rattle.branch_doc.specs.Forms.{doc_has, doc_op, doc_query, plain_reply, plain_answer};

use crate::types::Forms;

/// Different plain forms stand for different operations, and each operation has a plain form. A plain form stands
/// for none exactly where a document has no values of its kind.
pub fn operations_have_one_form()
    ensures { AreNames doc_op doc_has op_kind }
{}

/// Different plain forms stand for different queries, and each query has a plain form. A plain form stands for none
/// exactly where a document has no values of its kind.
pub fn queries_have_one_form()
    ensures { AreNames doc_query doc_has query_kind }
{}

/// Different replies have different plain forms, and those are the ones of the kinds that a document has.
pub fn replies_have_one_form()
    ensures { AreNamed plain_reply doc_has reply_kind }
{}

/// Different answers have different plain forms, and those are the ones of the kinds that a document has.
pub fn answers_have_one_form()
    ensures { AreNamed plain_answer doc_has answer_kind }
{}

/// A plain form that stands for nothing of a type is of sequences.
pub fn lacks_only_sequences<T: Forms>()
    ensures op { (form : PlainOp) → T.forms.op form ≡ None → op_kind form ≡ kinds.Sequence }
    ensures query { (form : PlainQuery) → T.forms.query form ≡ None
        → query_kind form ≡ kinds.Sequence }
{}
