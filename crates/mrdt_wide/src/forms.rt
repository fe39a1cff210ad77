// The plain forms of a document with sequences.
ghost use Rattle.std.specs.Prelude.{◌≡◌};
ghost use Rattle.std.specs.Option.{option_map};
ghost use Rattle.mrdt_both.specs.declared.both.Side.TheVariants.{First, Second};
ghost use Rattle.branch_doc.specs.declared.plain.Kind.TheVariants as kinds;
ghost use Rattle.branch_doc.specs.declared.plain.PlainQuery.TheVariants as queries;
ghost use Rattle.branch_doc.specs.Forms.{on, map_answer_form};
ghost use Rattle.mrdt_wide.specs.Forms.{wide_op, wide_query, wide_reply, wide_answer, sequence_answer_form};

use crate::wide::{Wide, WideAnswer, WideOp, WideQuery, WideReply};
use branch_doc::{Forms, Kind, PlainAnswer, PlainOp, PlainQuery, PlainReply, doc_forms};
use mrdt_both::Side;
use mrdt_map::{MapAnswer, MapQuery, OnKey};
use mrdt_model::{Bytes, Memory};
use mrdt_sequence::{SequenceAnswer, SequenceOp, SequenceQuery};

// What a document has, if it has it.
fn of_doc<X, Y>(found: Option<X>) -> Option<Side<X, Y>>
    ensures { result ≡ option_map First found }
{
    match found {
        Some(own) => Some(Side::First(own)),
        None => None,
    }
}

// An operation on the sequence at a key.
fn of_sequence(key: Bytes, operation: SequenceOp) -> WideOp
    ensures { result ≡ Second (on key operation) }
{
    Side::Second(OnKey { key, operation })
}

// The operation that the plain form stands for.
fn op_of(plain: PlainOp) -> Option<WideOp>
    ensures { result ≡ wide_op plain }
{
    match plain {
        PlainOp::SequenceInsert {
            key,
            place,
            payload,
        } => Some(of_sequence(key, SequenceOp::Insert(place, payload))),
        PlainOp::SequenceDelete { key, place } => {
            Some(of_sequence(key, SequenceOp::Delete(place)))
        }
        other => of_doc(doc_forms::op(other)),
    }
}

// The query for the keys of a kind.
fn keys_of(kind: Kind) -> Option<WideQuery>
    ensures { result ≡ wide_query (queries.Keys kind) }
{
    match kind {
        Kind::Sequence => Some(Side::Second(MapQuery::Keys)),
        other => of_doc(doc_forms::query(PlainQuery::Keys(other))),
    }
}

// The query that the plain form stands for.
fn query_of(plain: PlainQuery) -> Option<WideQuery>
    ensures { result ≡ wide_query plain }
{
    match plain {
        PlainQuery::SequenceRead { key } => {
            Some(Side::Second(MapQuery::AtKey(key, SequenceQuery::Read)))
        }
        PlainQuery::SequenceLength { key } => {
            Some(Side::Second(MapQuery::AtKey(key, SequenceQuery::Length)))
        }
        PlainQuery::Keys(kind) => keys_of(kind),
        other => of_doc(doc_forms::query(other)),
    }
}

// The plain form of the answer of the map of sequences.
fn of_sequence_answer(answer: MapAnswer<SequenceAnswer>) -> PlainAnswer
    ensures { result ≡ map_answer_form kinds.Sequence sequence_answer_form answer }
{
    match answer {
        MapAnswer::OnValue(SequenceAnswer::OnItems(items)) => PlainAnswer::SequenceRead(items),
        MapAnswer::OnValue(SequenceAnswer::OnLength(length)) => PlainAnswer::SequenceLength(length),
        MapAnswer::OnKeys(keys) => PlainAnswer::Keys(Kind::Sequence, keys),
    }
}

impl Forms for Wide {
    ghost use Rattle.mrdt_wide.specs.Forms.{wide_forms};
    ghost use Rattle.mrdt_wide.specs.FormsLaws.{wide_are_forms};

    ghost forms = { wide_forms };

    fn op(plain: &PlainOp) -> Result<Option<WideOp>, Memory> {
        Ok(op_of(plain.copy()?))
    }

    fn query(plain: &PlainQuery) -> Result<Option<WideQuery>, Memory> {
        Ok(query_of(plain.copy()?))
    }

    fn reply(reply: WideReply) -> PlainReply {
        match reply {
            Side::First(own) => doc_forms::reply(own),
            Side::Second(named) => PlainReply::Sequence(named),
        }
    }

    fn answer(answer: WideAnswer) -> PlainAnswer {
        match answer {
            Side::First(own) => doc_forms::answer(own),
            Side::Second(own) => of_sequence_answer(own),
        }
    }

    ghost are_forms = { wide_are_forms };
}
