// Copies of plain forms.
ghost use Rattle.std.specs.Prelude.{◌≡◌, IfOk};

use crate::plain::{PlainOp, PlainQuery};
use mrdt_model::Memory;

impl PlainOp {
    /// The same operation.
    pub fn copy(&self) -> Result<PlainOp, Memory>
        ensures { IfOk result (λ op. op ≡ self.now) }
    {
        Ok(match self {
            PlainOp::CounterAdd { key, amount } => PlainOp::CounterAdd {
                key: key.copy()?,
                amount: *amount,
            },
            PlainOp::CounterReset { key } => PlainOp::CounterReset { key: key.copy()? },
            PlainOp::FlagEnable { key } => PlainOp::FlagEnable { key: key.copy()? },
            PlainOp::FlagDisable { key } => PlainOp::FlagDisable { key: key.copy()? },
            PlainOp::LwwSet { key, payload } => PlainOp::LwwSet {
                key: key.copy()?,
                payload: payload.copy()?,
            },
            PlainOp::MultiSet { key, payload } => PlainOp::MultiSet {
                key: key.copy()?,
                payload: payload.copy()?,
            },
            PlainOp::SetAdd { key, element } => PlainOp::SetAdd {
                key: key.copy()?,
                element: element.copy()?,
            },
            PlainOp::SetRemove { key, element } => PlainOp::SetRemove {
                key: key.copy()?,
                element: element.copy()?,
            },
            PlainOp::SetClear { key } => PlainOp::SetClear { key: key.copy()? },
            PlainOp::LogAppend { key, payload } => PlainOp::LogAppend {
                key: key.copy()?,
                payload: payload.copy()?,
            },
            PlainOp::QueueEnqueue { key, payload } => PlainOp::QueueEnqueue {
                key: key.copy()?,
                payload: payload.copy()?,
            },
            PlainOp::QueueDequeue { key } => PlainOp::QueueDequeue { key: key.copy()? },
            PlainOp::SequenceInsert {
                key,
                place,
                payload,
            } => PlainOp::SequenceInsert {
                key: key.copy()?,
                place: *place,
                payload: payload.copy()?,
            },
            PlainOp::SequenceDelete { key, place } => PlainOp::SequenceDelete {
                key: key.copy()?,
                place: *place,
            },
        })
    }
}

impl PlainQuery {
    /// The same query.
    pub fn copy(&self) -> Result<PlainQuery, Memory>
        ensures { IfOk result (λ query. query ≡ self.now) }
    {
        Ok(match self {
            PlainQuery::CounterValue { key } => PlainQuery::CounterValue { key: key.copy()? },
            PlainQuery::FlagIsOn { key } => PlainQuery::FlagIsOn { key: key.copy()? },
            PlainQuery::LwwGet { key } => PlainQuery::LwwGet { key: key.copy()? },
            PlainQuery::MultiValues { key } => PlainQuery::MultiValues { key: key.copy()? },
            PlainQuery::SetContains { key, element } => PlainQuery::SetContains {
                key: key.copy()?,
                element: element.copy()?,
            },
            PlainQuery::SetMembers { key } => PlainQuery::SetMembers { key: key.copy()? },
            PlainQuery::SetSize { key } => PlainQuery::SetSize { key: key.copy()? },
            PlainQuery::LogRead { key } => PlainQuery::LogRead { key: key.copy()? },
            PlainQuery::LogLength { key } => PlainQuery::LogLength { key: key.copy()? },
            PlainQuery::QueuePeek { key } => PlainQuery::QueuePeek { key: key.copy()? },
            PlainQuery::QueueItems { key } => PlainQuery::QueueItems { key: key.copy()? },
            PlainQuery::QueueLength { key } => PlainQuery::QueueLength { key: key.copy()? },
            PlainQuery::SequenceRead { key } => PlainQuery::SequenceRead { key: key.copy()? },
            PlainQuery::SequenceLength { key } => PlainQuery::SequenceLength { key: key.copy()? },
            PlainQuery::Keys(kind) => PlainQuery::Keys(*kind),
        })
    }
}
