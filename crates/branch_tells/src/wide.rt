// What the commits of the history of a document with sequences do, in plain forms.
ghost use Rattle.std.specs.Prelude.{◌≡◌, IfOk};
ghost use Rattle.branch_tells.specs.Wides.{sequence_plain};

use crate::tells::Tells;
use branch_doc::{PlainOp, PlainReply};
use mrdt_both::Side;
use mrdt_doc::Doc;
use mrdt_map::OnKey;
use mrdt_model::Memory;
use mrdt_sequence::SequenceOp;
use mrdt_wide::{Wide, WideOp, WideReply};

// The plain form of an operation on a sequence.
fn of_sequence(on: &OnKey<SequenceOp>) -> Result<PlainOp, Memory>
    ensures { IfOk result (λ plain. plain ≡ sequence_plain on.now.key on.now.operation) }
{
    let key = on.key.copy()?;
    Ok(match &on.operation {
        SequenceOp::Insert(place, payload) => PlainOp::SequenceInsert {
            key,
            place: *place,
            payload: payload.copy()?,
        },
        SequenceOp::Delete(place) => PlainOp::SequenceDelete { key, place: *place },
    })
}

impl Tells for Wide {
    ghost use Rattle.branch_tells.specs.Wides.{wide_plain_op};
    ghost use Rattle.branch_tells.specs.Laws.{wide_plain_ops};

    ghost plain_op = { wide_plain_op };

    fn plain_op(op: &WideOp) -> Result<PlainOp, Memory> {
        match op {
            Side::First(own) => Doc::plain_op(own),
            Side::Second(on) => of_sequence(on),
        }
    }

    fn plain_reply(reply: &WideReply) -> Result<PlainReply, Memory> {
        match reply {
            Side::First(own) => Doc::plain_reply(own),
            Side::Second(named) => Ok(PlainReply::Sequence(*named)),
        }
    }

    ghost are_plain_ops = { wide_plain_ops };
}
