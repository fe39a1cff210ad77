// The types of values of which a history can tell what its commits do.
ghost use Rattle.std.specs.Prelude.{◌≡◌, IfOk};

use branch_doc::{Forms, PlainOp, PlainReply};
use mrdt_model::Memory;

/// A type with plain forms, whose operations and replies that are kept can be told in them.
pub trait Tells: Forms {
    ghost use Rattle.branch_doc.specs.declared.plain.PlainOp.{PlainOp};
    ghost use Rattle.branch_tells.specs.Acts.{ArePlainOps};

    // The plain form of an operation.
    ghost plain_op: { Self.Op → PlainOp };

    /// The plain form of an operation.
    fn plain_op(op: &Self::Op) -> Result<PlainOp, Memory>
        ensures { IfOk result (λ plain. plain ≡ plain_op op.now) };

    /// The plain form of a reply.
    fn plain_reply(reply: &Self::Reply) -> Result<PlainReply, Memory>
        ensures { IfOk result (λ plain. plain ≡ Self.forms.reply reply.now) };

    // Each stands for its operation.
    ghost are_plain_ops: { ArePlainOps Self.forms plain_op };
}
