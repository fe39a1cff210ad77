// The kinds, and what is asked of each.
ghost use Rattle.std.specs.Prelude.{◌≡◌, Some};
ghost use Rattle.branch_show.specs.Documents.{all_kinds, whole_query, keys_in};

use branch_doc::{Kind, PlainAnswer, PlainQuery};
use mrdt_model::Bytes;

// All kinds, in the order of the text.
pub(crate) fn all_kinds() -> [Kind; 8]
    ensures { result ≡ all_kinds }
{
    [
        Kind::Counter,
        Kind::Flag,
        Kind::Lww,
        Kind::Multi,
        Kind::Set,
        Kind::Log,
        Kind::Queue,
        Kind::Sequence,
    ]
}

// The query that asks for all that is at a key.
pub(crate) fn whole_query(kind: Kind, key: Bytes) -> PlainQuery
    ensures { result ≡ whole_query kind key }
{
    match kind {
        Kind::Counter => PlainQuery::CounterValue { key },
        Kind::Flag => PlainQuery::FlagIsOn { key },
        Kind::Lww => PlainQuery::LwwGet { key },
        Kind::Multi => PlainQuery::MultiValues { key },
        Kind::Set => PlainQuery::SetMembers { key },
        Kind::Log => PlainQuery::LogRead { key },
        Kind::Queue => PlainQuery::QueueItems { key },
        Kind::Sequence => PlainQuery::SequenceRead { key },
    }
}

// The keys that an answer lists.
pub(crate) fn keys_in(answer: &PlainAnswer) -> &[Bytes]
    ensures { result.now ≡ keys_in (Some answer.now) }
{
    match answer {
        PlainAnswer::Keys(_, keys) => keys.as_slice(),
        _ => &[],
    }
}
