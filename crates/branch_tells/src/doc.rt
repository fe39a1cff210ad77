// What the commits of a document's history do, in plain forms.
ghost use Rattle.std.specs.Prelude.{◌≡◌, IfOk};
ghost use Rattle.branch_doc.specs.Forms.{queue_reply_form};
ghost use Rattle.branch_tells.specs.Docs.{counter_plain, flag_plain, last_write_plain, multi_plain, set_plain, log_plain, queue_plain};

use crate::tells::Tells;
use branch_doc::{DocOp, DocReply, PlainOp, PlainReply};
use live_set::Kept;
use mrdt_both::Side;
use mrdt_counter::CounterOp;
use mrdt_doc::Doc;
use mrdt_flag::FlagOp;
use mrdt_log::LogOp;
use mrdt_map::OnKey;
use mrdt_model::{Bytes, Memory};
use mrdt_queue::{QueueOp, QueueReply};
use mrdt_register::RegisterOp;
use mrdt_set::SetOp;

// The plain form of an operation on a counter.
fn of_counter(on: &OnKey<CounterOp>) -> Result<PlainOp, Memory>
    ensures { IfOk result (λ plain. plain ≡ counter_plain on.now.key on.now.operation) }
{
    let key = on.key.copy()?;
    Ok(match &on.operation {
        CounterOp::Add(amount) => PlainOp::CounterAdd {
            key,
            amount: *amount,
        },
        CounterOp::Reset => PlainOp::CounterReset { key },
    })
}

// The plain form of an operation on a flag.
fn of_flag(on: &OnKey<FlagOp>) -> Result<PlainOp, Memory>
    ensures { IfOk result (λ plain. plain ≡ flag_plain on.now.key on.now.operation) }
{
    let key = on.key.copy()?;
    Ok(match &on.operation {
        FlagOp::Enable => PlainOp::FlagEnable { key },
        FlagOp::Disable => PlainOp::FlagDisable { key },
    })
}

// The plain form of an operation on a register of the last write.
fn of_last_write(on: &OnKey<RegisterOp>) -> Result<PlainOp, Memory>
    ensures { IfOk result (λ plain. plain ≡ last_write_plain on.now.key on.now.operation) }
{
    let RegisterOp::Set(payload) = &on.operation;
    Ok(PlainOp::LwwSet {
        key: on.key.copy()?,
        payload: payload.copy()?,
    })
}

// The plain form of an operation on a register of several values.
fn of_multi(on: &OnKey<RegisterOp>) -> Result<PlainOp, Memory>
    ensures { IfOk result (λ plain. plain ≡ multi_plain on.now.key on.now.operation) }
{
    let RegisterOp::Set(payload) = &on.operation;
    Ok(PlainOp::MultiSet {
        key: on.key.copy()?,
        payload: payload.copy()?,
    })
}

// The plain form of an operation on a set.
fn of_set(on: &OnKey<SetOp>) -> Result<PlainOp, Memory>
    ensures { IfOk result (λ plain. plain ≡ set_plain on.now.key on.now.operation) }
{
    let key = on.key.copy()?;
    Ok(match &on.operation {
        SetOp::Add(element) => PlainOp::SetAdd {
            key,
            element: element.copy()?,
        },
        SetOp::Remove(element) => PlainOp::SetRemove {
            key,
            element: element.copy()?,
        },
        SetOp::Clear => PlainOp::SetClear { key },
    })
}

// The plain form of an operation on a log.
fn of_log(on: &OnKey<LogOp>) -> Result<PlainOp, Memory>
    ensures { IfOk result (λ plain. plain ≡ log_plain on.now.key on.now.operation) }
{
    let LogOp::Append(payload) = &on.operation;
    Ok(PlainOp::LogAppend {
        key: on.key.copy()?,
        payload: payload.copy()?,
    })
}

// The plain form of an operation on a queue.
fn of_queue(on: &OnKey<QueueOp>) -> Result<PlainOp, Memory>
    ensures { IfOk result (λ plain. plain ≡ queue_plain on.now.key on.now.operation) }
{
    let key = on.key.copy()?;
    Ok(match &on.operation {
        QueueOp::Enqueue(payload) => PlainOp::QueueEnqueue {
            key,
            payload: payload.copy()?,
        },
        QueueOp::Dequeue => PlainOp::QueueDequeue { key },
    })
}

// The same payload of a queue, with the time of its enqueue.
fn copy_of(kept: &Kept<Bytes>) -> Result<Kept<Bytes>, Memory>
    ensures { IfOk result (λ copy. copy ≡ kept.now) }
{
    Ok(Kept {
        time: kept.time,
        payload: kept.payload.copy()?,
    })
}

// The plain form of a queue's reply.
fn of_queue_reply(reply: &QueueReply) -> Result<PlainReply, Memory>
    ensures { IfOk result (λ plain. plain ≡ queue_reply_form reply.now) }
{
    Ok(match reply {
        QueueReply::Enqueued => PlainReply::QueueEnqueued,
        QueueReply::Nothing => PlainReply::QueueTook(None),
        QueueReply::Took(kept) => PlainReply::QueueTook(Some(copy_of(kept)?)),
    })
}

impl Tells for Doc {
    ghost use Rattle.branch_tells.specs.Docs.{doc_plain_op};
    ghost use Rattle.branch_tells.specs.Laws.{doc_plain_ops};

    ghost plain_op = { doc_plain_op };

    fn plain_op(op: &DocOp) -> Result<PlainOp, Memory> {
        match op {
            Side::First(on) => of_counter(on),
            Side::Second(op) => match op {
                Side::First(on) => of_flag(on),
                Side::Second(op) => match op {
                    Side::First(on) => of_last_write(on),
                    Side::Second(op) => match op {
                        Side::First(on) => of_multi(on),
                        Side::Second(op) => match op {
                            Side::First(on) => of_set(on),
                            Side::Second(op) => match op {
                                Side::First(on) => of_log(on),
                                Side::Second(on) => of_queue(on),
                            },
                        },
                    },
                },
            },
        }
    }

    fn plain_reply(reply: &DocReply) -> Result<PlainReply, Memory> {
        match reply {
            Side::First(_) => Ok(PlainReply::Counter),
            Side::Second(reply) => match reply {
                Side::First(_) => Ok(PlainReply::Flag),
                Side::Second(reply) => match reply {
                    Side::First(_) => Ok(PlainReply::Lww),
                    Side::Second(reply) => match reply {
                        Side::First(_) => Ok(PlainReply::Multi),
                        Side::Second(reply) => match reply {
                            Side::First(_) => Ok(PlainReply::Set),
                            Side::Second(reply) => match reply {
                                Side::First(_) => Ok(PlainReply::Log),
                                Side::Second(reply) => of_queue_reply(reply),
                            },
                        },
                    },
                },
            },
        }
    }

    ghost are_plain_ops = { doc_plain_ops };
}
