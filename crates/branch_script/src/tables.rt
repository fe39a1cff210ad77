// The tables of words: kinds, operations and queries.
ghost use Rattle.std.specs.Prelude.{◌≡◌, bytes_eq};
ghost use Rattle.branch_script.specs.Numbers.{integer_of, place_of};
ghost use Rattle.branch_script.specs.Tables.{behind, kind_named, counter_add, sequence_insert, sequence_delete, operations_at_key, operations_with_word, operations_with_number, queries_at_key, queries_with_word};

use crate::numbers::{integer, place};
use crate::step::LineRefused;
use branch_doc::{Kind, PlainOp, PlainQuery};
use mrdt_model::Bytes;

/// The kind of a name.
#[tactic(auto, unfolding(crate::specs::Tables::kind_named))]
pub fn kind_named(word: &[u8]) -> Option<Kind>
    ensures { result ≡ kind_named word.now }
{
    match word {
        b"counter" => Some(Kind::Counter),
        b"flag" => Some(Kind::Flag),
        b"lww" => Some(Kind::Lww),
        b"multi" => Some(Kind::Multi),
        b"set" => Some(Kind::Set),
        b"log" => Some(Kind::Log),
        b"queue" => Some(Kind::Queue),
        b"seq" => Some(Kind::Sequence),
        _ => None,
    }
}

// Whether a word is this keyword.
fn is(word: &[u8], keyword: &[u8]) -> bool
    ensures { result ≡ bytes_eq word.now keyword.now }
{
    word == keyword
}

// An amount added to a counter; `BadNumber` where the word is no number of 64 bits.
fn counter_add(key: Bytes, amount: &[u8]) -> Result<PlainOp, LineRefused>
    ensures { result ≡ counter_add key (integer_of amount.now) }
{
    match integer(amount) {
        Some(amount) => Ok(PlainOp::CounterAdd { key, amount }),
        None => Err(LineRefused::BadNumber),
    }
}

// A payload put into a sequence; `BadNumber` where the word for its place is no number of 32 bits.
fn sequence_insert(key: Bytes, at: &[u8], payload: Bytes) -> Result<PlainOp, LineRefused>
    ensures { result ≡ sequence_insert key payload (place_of at.now) }
{
    match place(at) {
        Some(place) => Ok(PlainOp::SequenceInsert {
            key,
            place,
            payload,
        }),
        None => Err(LineRefused::BadNumber),
    }
}

// An item taken out of a sequence; `BadNumber` where the word for its place is no number of 32 bits.
fn sequence_delete(key: Bytes, at: &[u8]) -> Result<PlainOp, LineRefused>
    ensures { result ≡ sequence_delete key (place_of at.now) }
{
    match place(at) {
        Some(place) => Ok(PlainOp::SequenceDelete { key, place }),
        None => Err(LineRefused::BadNumber),
    }
}

/// The operation without a word that a kind has by this name.
pub fn operation_at_key(kind: Kind, operation: &[u8], key: Bytes) -> Option<PlainOp>
    ensures { result ≡ behind operation.now (operations_at_key kind key) }
{
    match kind {
        Kind::Counter if is(operation, b"reset") => Some(PlainOp::CounterReset { key }),
        Kind::Flag if is(operation, b"enable") => Some(PlainOp::FlagEnable { key }),
        Kind::Flag if is(operation, b"disable") => Some(PlainOp::FlagDisable { key }),
        Kind::Set if is(operation, b"clear") => Some(PlainOp::SetClear { key }),
        Kind::Queue if is(operation, b"dequeue") => Some(PlainOp::QueueDequeue { key }),
        _ => None,
    }
}

/// The operation with a word that a kind has by this name, or `BadNumber` where its word is no number and
/// has to be one.
pub fn operation_with_word(
    kind: Kind,
    operation: &[u8],
    key: Bytes,
    word: Bytes,
) -> Option<Result<PlainOp, LineRefused>>
    ensures { result ≡ behind operation.now (operations_with_word kind key word) }
{
    match kind {
        Kind::Counter if is(operation, b"add") => Some(counter_add(key, word.as_slice())),
        Kind::Lww if is(operation, b"set") => Some(Ok(PlainOp::LwwSet { key, payload: word })),
        Kind::Multi if is(operation, b"set") => Some(Ok(PlainOp::MultiSet { key, payload: word })),
        Kind::Set if is(operation, b"add") => Some(Ok(PlainOp::SetAdd { key, element: word })),
        Kind::Set if is(operation, b"remove") => Some(Ok(PlainOp::SetRemove {
            key,
            element: word,
        })),
        Kind::Log if is(operation, b"append") => Some(Ok(PlainOp::LogAppend {
            key,
            payload: word,
        })),
        Kind::Queue if is(operation, b"enqueue") => Some(Ok(PlainOp::QueueEnqueue {
            key,
            payload: word,
        })),
        Kind::Sequence if is(operation, b"delete") => Some(sequence_delete(key, word.as_slice())),
        _ => None,
    }
}

/// The operation with a number and a word that a kind has by this name, or `BadNumber` where its number is none.
pub fn operation_with_number(
    kind: Kind,
    operation: &[u8],
    key: Bytes,
    number: &[u8],
    word: Bytes,
) -> Option<Result<PlainOp, LineRefused>>
    ensures { result ≡ behind operation.now (operations_with_number kind key number.now word) }
{
    match kind {
        Kind::Sequence if is(operation, b"insert") => Some(sequence_insert(key, number, word)),
        _ => None,
    }
}

/// The query without a word that a kind has by this name.
pub fn query_at_key(kind: Kind, query: &[u8], key: Bytes) -> Option<PlainQuery>
    ensures { result ≡ behind query.now (queries_at_key kind key) }
{
    match kind {
        Kind::Counter if is(query, b"value") => Some(PlainQuery::CounterValue { key }),
        Kind::Flag if is(query, b"on") => Some(PlainQuery::FlagIsOn { key }),
        Kind::Lww if is(query, b"get") => Some(PlainQuery::LwwGet { key }),
        Kind::Multi if is(query, b"values") => Some(PlainQuery::MultiValues { key }),
        Kind::Set if is(query, b"members") => Some(PlainQuery::SetMembers { key }),
        Kind::Set if is(query, b"size") => Some(PlainQuery::SetSize { key }),
        Kind::Log if is(query, b"read") => Some(PlainQuery::LogRead { key }),
        Kind::Log if is(query, b"length") => Some(PlainQuery::LogLength { key }),
        Kind::Queue if is(query, b"peek") => Some(PlainQuery::QueuePeek { key }),
        Kind::Queue if is(query, b"items") => Some(PlainQuery::QueueItems { key }),
        Kind::Queue if is(query, b"length") => Some(PlainQuery::QueueLength { key }),
        Kind::Sequence if is(query, b"read") => Some(PlainQuery::SequenceRead { key }),
        Kind::Sequence if is(query, b"length") => Some(PlainQuery::SequenceLength { key }),
        _ => None,
    }
}

/// The query with a word that a kind has by this name.
pub fn query_with_word(kind: Kind, query: &[u8], key: Bytes, word: Bytes) -> Option<PlainQuery>
    ensures { result ≡ behind query.now (queries_with_word kind key word) }
{
    match kind {
        Kind::Set if is(query, b"contains") => Some(PlainQuery::SetContains { key, element: word }),
        _ => None,
    }
}
