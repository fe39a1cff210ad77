// The types whose operations, queries, replies and answers have plain forms.
ghost use Rattle.std.specs.Prelude.{◌≡◌, IfOk};

use crate::plain::{PlainAnswer, PlainOp, PlainQuery, PlainReply};
use mrdt_model::{Memory, Mrdt};

/// A mergeable type whose operations, queries, replies and answers have plain forms. Each has one of its own, and
/// each plain form is one of those, but for those of sequences where the type has none.
pub trait Forms: Mrdt {
    ghost use Rattle.branch_doc.specs.Types.{PlainForms, AreForms};

    // What plain forms stand for, and the plain forms of replies and answers.
    ghost forms: { PlainForms Self.Op Self.Query Self.Reply Self.Answer };

    /// The operation that a plain form stands for; `None` exactly where the type has no values of its kind.
    fn op(plain: &PlainOp) -> Result<Option<Self::Op>, Memory>
        ensures { IfOk result (λ op. op ≡ forms.op plain.now) };

    /// The query that a plain form stands for; `None` exactly where the type has no values of its kind.
    fn query(plain: &PlainQuery) -> Result<Option<Self::Query>, Memory>
        ensures { IfOk result (λ query. query ≡ forms.query plain.now) };

    /// The plain form of a reply. It takes no memory.
    fn reply(reply: Self::Reply) -> PlainReply
        ensures { result ≡ forms.reply reply };

    /// The plain form of an answer. It takes no memory.
    fn answer(answer: Self::Answer) -> PlainAnswer
        ensures { result ≡ forms.answer answer };

    // They correspond one to one.
    ghost are_forms: { AreForms forms };
}
