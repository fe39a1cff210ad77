// A document's operations, queries, replies and answers, to and from their plain forms.
ghost use Rattle.std.specs.Prelude.{◌≡◌};
ghost use Rattle.branch_doc.specs.declared.plain.Kind.TheVariants as kinds;
ghost use Rattle.branch_doc.specs.declared.plain.PlainAnswer.TheVariants as answers;
ghost use Rattle.branch_doc.specs.Sides.{at_counters, at_flags, at_last_writes, at_multis, at_sets, at_logs, at_queues};
ghost use Rattle.branch_doc.specs.Forms.{doc_op, doc_query, keys_query, plain_reply, plain_answer, queue_reply_form, map_answer_form, set_answer_form, log_answer_form, queue_answer_form};

use crate::doc::{DocAnswer, DocOp, DocQuery, DocReply};
use crate::plain::{Kind, PlainAnswer, PlainOp, PlainQuery, PlainReply};
use crate::sides::{of_flags, of_last_writes, of_logs, of_multis, of_queues, of_sets};
use mrdt_both::Side;
use mrdt_counter::{CounterOp, CounterQuery};
use mrdt_flag::{FlagOp, FlagQuery};
use mrdt_log::{LogAnswer, LogOp, LogQuery};
use mrdt_map::{MapAnswer, MapQuery, OnKey};
use mrdt_model::{Bytes, Listing};
use mrdt_queue::{QueueAnswer, QueueOp, QueueQuery, QueueReply};
use mrdt_register::{LwwQuery, MultiQuery, RegisterOp};
use mrdt_set::{SetAnswer, SetOp, SetQuery};

// An operation on the value at a key.
fn on<O>(key: Bytes, operation: O) -> OnKey<O>
    ensures { result ≡ record { key = key; operation = operation } }
{
    OnKey { key, operation }
}

/// The document's operation that the plain form stands for; `None` exactly where a document has no values of its
/// kind, which are those of sequences. It takes no memory.
pub fn op(plain: PlainOp) -> Option<DocOp>
    ensures { result ≡ doc_op plain }
{
    Some(match plain {
        PlainOp::CounterAdd { key, amount } => Side::First(on(key, CounterOp::Add(amount))),
        PlainOp::CounterReset { key } => Side::First(on(key, CounterOp::Reset)),
        PlainOp::FlagEnable { key } => of_flags(on(key, FlagOp::Enable)),
        PlainOp::FlagDisable { key } => of_flags(on(key, FlagOp::Disable)),
        PlainOp::LwwSet { key, payload } => of_last_writes(on(key, RegisterOp::Set(payload))),
        PlainOp::MultiSet { key, payload } => of_multis(on(key, RegisterOp::Set(payload))),
        PlainOp::SetAdd { key, element } => of_sets(on(key, SetOp::Add(element))),
        PlainOp::SetRemove { key, element } => of_sets(on(key, SetOp::Remove(element))),
        PlainOp::SetClear { key } => of_sets(on(key, SetOp::Clear)),
        PlainOp::LogAppend { key, payload } => of_logs(on(key, LogOp::Append(payload))),
        PlainOp::QueueEnqueue { key, payload } => of_queues(on(key, QueueOp::Enqueue(payload))),
        PlainOp::QueueDequeue { key } => of_queues(on(key, QueueOp::Dequeue)),
        PlainOp::SequenceInsert { .. } | PlainOp::SequenceDelete { .. } => return None,
    })
}

// The query for the keys of a kind.
fn keys_of(kind: Kind) -> Option<DocQuery>
    ensures { result ≡ keys_query kind }
{
    match kind {
        Kind::Counter => Some(Side::First(MapQuery::Keys)),
        Kind::Flag => Some(of_flags(MapQuery::Keys)),
        Kind::Lww => Some(of_last_writes(MapQuery::Keys)),
        Kind::Multi => Some(of_multis(MapQuery::Keys)),
        Kind::Set => Some(of_sets(MapQuery::Keys)),
        Kind::Log => Some(of_logs(MapQuery::Keys)),
        Kind::Queue => Some(of_queues(MapQuery::Keys)),
        Kind::Sequence => None,
    }
}

/// The document's query that the plain form stands for; `None` exactly where a document has no values of its kind,
/// which are those of sequences. It takes no memory.
pub fn query(plain: PlainQuery) -> Option<DocQuery>
    ensures { result ≡ doc_query plain }
{
    Some(match plain {
        PlainQuery::CounterValue { key } => Side::First(MapQuery::AtKey(key, CounterQuery::Value)),
        PlainQuery::FlagIsOn { key } => of_flags(MapQuery::AtKey(key, FlagQuery::IsOn)),
        PlainQuery::LwwGet { key } => of_last_writes(MapQuery::AtKey(key, LwwQuery::Get)),
        PlainQuery::MultiValues { key } => of_multis(MapQuery::AtKey(key, MultiQuery::Values)),
        PlainQuery::SetContains { key, element } => {
            of_sets(MapQuery::AtKey(key, SetQuery::Contains(element)))
        }
        PlainQuery::SetMembers { key } => of_sets(MapQuery::AtKey(key, SetQuery::Members)),
        PlainQuery::SetSize { key } => of_sets(MapQuery::AtKey(key, SetQuery::Size)),
        PlainQuery::LogRead { key } => of_logs(MapQuery::AtKey(key, LogQuery::Read)),
        PlainQuery::LogLength { key } => of_logs(MapQuery::AtKey(key, LogQuery::Length)),
        PlainQuery::QueuePeek { key } => of_queues(MapQuery::AtKey(key, QueueQuery::Peek)),
        PlainQuery::QueueItems { key } => of_queues(MapQuery::AtKey(key, QueueQuery::Items)),
        PlainQuery::QueueLength { key } => of_queues(MapQuery::AtKey(key, QueueQuery::Length)),
        PlainQuery::SequenceRead { .. } | PlainQuery::SequenceLength { .. } => return None,
        PlainQuery::Keys(kind) => return keys_of(kind),
    })
}

// The plain form of a queue's reply.
fn of_queue_reply(reply: QueueReply) -> PlainReply
    ensures { result ≡ queue_reply_form reply }
{
    match reply {
        QueueReply::Enqueued => PlainReply::QueueEnqueued,
        QueueReply::Nothing => PlainReply::QueueTook(None),
        QueueReply::Took(kept) => PlainReply::QueueTook(Some(kept)),
    }
}

/// The plain form of the document's reply. It takes no memory.
pub fn reply(reply: DocReply) -> PlainReply
    ensures { result ≡ plain_reply reply }
{
    match reply {
        Side::First(()) => PlainReply::Counter,
        Side::Second(reply) => match reply {
            Side::First(()) => PlainReply::Flag,
            Side::Second(reply) => match reply {
                Side::First(()) => PlainReply::Lww,
                Side::Second(reply) => match reply {
                    Side::First(()) => PlainReply::Multi,
                    Side::Second(reply) => match reply {
                        Side::First(()) => PlainReply::Set,
                        Side::Second(reply) => match reply {
                            Side::First(()) => PlainReply::Log,
                            Side::Second(reply) => of_queue_reply(reply),
                        },
                    },
                },
            },
        },
    }
}

// The plain form of the answer of the map of counters.
fn of_counter_answer(answer: MapAnswer<i128>) -> PlainAnswer
    ensures { result ≡ map_answer_form kinds.Counter answers.CounterValue answer }
{
    match answer {
        MapAnswer::OnValue(sum) => PlainAnswer::CounterValue(sum),
        MapAnswer::OnKeys(keys) => PlainAnswer::Keys(Kind::Counter, keys),
    }
}

// The plain form of the answer of the map of flags.
fn of_flag_answer(answer: MapAnswer<bool>) -> PlainAnswer
    ensures { result ≡ map_answer_form kinds.Flag answers.FlagIsOn answer }
{
    match answer {
        MapAnswer::OnValue(is_on) => PlainAnswer::FlagIsOn(is_on),
        MapAnswer::OnKeys(keys) => PlainAnswer::Keys(Kind::Flag, keys),
    }
}

// The plain form of the answer of the map of registers of the last write.
fn of_last_answer(answer: MapAnswer<Option<Bytes>>) -> PlainAnswer
    ensures { result ≡ map_answer_form kinds.Lww answers.LwwGet answer }
{
    match answer {
        MapAnswer::OnValue(payload) => PlainAnswer::LwwGet(payload),
        MapAnswer::OnKeys(keys) => PlainAnswer::Keys(Kind::Lww, keys),
    }
}

// The plain form of the answer of the map of registers of several values.
fn of_multi_answer(answer: MapAnswer<Listing<Bytes>>) -> PlainAnswer
    ensures { result ≡ map_answer_form kinds.Multi answers.MultiValues answer }
{
    match answer {
        MapAnswer::OnValue(payloads) => PlainAnswer::MultiValues(payloads),
        MapAnswer::OnKeys(keys) => PlainAnswer::Keys(Kind::Multi, keys),
    }
}

// The plain form of the answer of the map of sets.
fn of_set_answer(answer: MapAnswer<SetAnswer>) -> PlainAnswer
    ensures { result ≡ map_answer_form kinds.Set set_answer_form answer }
{
    match answer {
        MapAnswer::OnValue(SetAnswer::IsIn(is_in)) => PlainAnswer::SetContains(is_in),
        MapAnswer::OnValue(SetAnswer::All(members)) => PlainAnswer::SetMembers(members),
        MapAnswer::OnValue(SetAnswer::Count(size)) => PlainAnswer::SetSize(size),
        MapAnswer::OnKeys(keys) => PlainAnswer::Keys(Kind::Set, keys),
    }
}

// The plain form of the answer of the map of logs.
fn of_log_answer(answer: MapAnswer<LogAnswer>) -> PlainAnswer
    ensures { result ≡ map_answer_form kinds.Log log_answer_form answer }
{
    match answer {
        MapAnswer::OnValue(LogAnswer::OnEntries(entries)) => PlainAnswer::LogRead(entries),
        MapAnswer::OnValue(LogAnswer::OnLength(length)) => PlainAnswer::LogLength(length),
        MapAnswer::OnKeys(keys) => PlainAnswer::Keys(Kind::Log, keys),
    }
}

// The plain form of the answer of the map of queues.
fn of_queue_answer(answer: MapAnswer<QueueAnswer>) -> PlainAnswer
    ensures { result ≡ map_answer_form kinds.Queue queue_answer_form answer }
{
    match answer {
        MapAnswer::OnValue(QueueAnswer::OnFirst(first)) => PlainAnswer::QueuePeek(first),
        MapAnswer::OnValue(QueueAnswer::OnItems(items)) => PlainAnswer::QueueItems(items),
        MapAnswer::OnValue(QueueAnswer::OnLength(length)) => PlainAnswer::QueueLength(length),
        MapAnswer::OnKeys(keys) => PlainAnswer::Keys(Kind::Queue, keys),
    }
}

/// The plain form of the document's answer. It takes no memory.
pub fn answer(answer: DocAnswer) -> PlainAnswer
    ensures { result ≡ plain_answer answer }
{
    match answer {
        Side::First(own) => of_counter_answer(own),
        Side::Second(Side::First(own)) => of_flag_answer(own),
        Side::Second(Side::Second(Side::First(own))) => of_last_answer(own),
        Side::Second(Side::Second(Side::Second(Side::First(own)))) => of_multi_answer(own),
        Side::Second(Side::Second(Side::Second(Side::Second(Side::First(own))))) => {
            of_set_answer(own)
        }
        Side::Second(Side::Second(Side::Second(Side::Second(Side::Second(Side::First(own)))))) => {
            of_log_answer(own)
        }
        Side::Second(Side::Second(Side::Second(Side::Second(Side::Second(Side::Second(own)))))) => {
            of_queue_answer(own)
        }
    }
}
