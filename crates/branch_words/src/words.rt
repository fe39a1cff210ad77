// The words of kinds and of operations. After want of memory a first part of them has been written.
ghost use Rattle.std.specs.Prelude.{◌≡◌, ◌++◌, codes, decimal, OnOk, OnErr};
ghost use Rattle.std.specs.Fmt.{signed_decimal};
ghost use Rattle.mrdt_model.specs.Spelled.{AppendsPart};
ghost use Rattle.branch_words.specs.Words.{kind_word, on_key, with_word, op_words};

use branch_doc::{Kind, PlainOp};
use branch_print::pieces::put_pieces;
use itoa::Buffer;
use mrdt_model::Memory;

/// The word of a kind.
pub fn kind_word(kind: Kind) -> &'static [u8]
    ensures { result.now ≡ kind_word kind }
{
    match kind {
        Kind::Counter => b"counter",
        Kind::Flag => b"flag",
        Kind::Lww => b"lww",
        Kind::Multi => b"multi",
        Kind::Set => b"set",
        Kind::Log => b"log",
        Kind::Queue => b"queue",
        Kind::Sequence => b"seq",
    }
}

// `KIND KEY OPERATION`.
fn put_on_key<'a>(
    out: &mut Vec<u8>,
    kind: Kind,
    key: &'a [u8],
    operation: &'a [u8],
) -> Result<(), Memory>
    ensures ok { OnOk result (out.new.items ≡ out.old.items ++ on_key kind key.now operation.now) }
    ensures err { OnErr result
        (AppendsPart out.old.items out.new.items (on_key kind key.now operation.now)) }
{
    let kind: &'a [u8] = kind_word(kind);
    put_pieces(out, &[kind, b" ", key, b" ", operation])
}

// `KIND KEY OPERATION WORD`.
fn put_with_word<'a>(
    out: &mut Vec<u8>,
    kind: Kind,
    key: &'a [u8],
    operation: &'a [u8],
    word: &'a [u8],
) -> Result<(), Memory>
    ensures ok { OnOk result
        (out.new.items ≡ out.old.items ++ with_word kind key.now operation.now word.now) }
    ensures err { OnErr result
        (AppendsPart out.old.items out.new.items (with_word kind key.now operation.now word.now)) }
{
    let kind: &'a [u8] = kind_word(kind);
    put_pieces(out, &[kind, b" ", key, b" ", operation, b" ", word])
}

// `KIND KEY OPERATION NUMBER`, of a signed number.
fn put_with_amount<'a>(
    out: &mut Vec<u8>,
    kind: Kind,
    key: &'a [u8],
    operation: &'a [u8],
    amount: i64,
) -> Result<(), Memory>
    ensures ok { OnOk result
        (out.new.items ≡ out.old.items ++ with_word kind key.now operation.now
        (signed_decimal amount)) }
    ensures err { OnErr result
        (AppendsPart out.old.items out.new.items
        (with_word kind key.now operation.now (signed_decimal amount))) }
{
    let mut digits = Buffer::new();
    put_with_word(out, kind, key, operation, digits.format(amount).as_bytes())
}

// `KIND KEY OPERATION NUMBER`, of a place in a list.
fn put_with_place<'a>(
    out: &mut Vec<u8>,
    kind: Kind,
    key: &'a [u8],
    operation: &'a [u8],
    place: u32,
) -> Result<(), Memory>
    ensures ok { OnOk result
        (out.new.items ≡ out.old.items ++ with_word kind key.now operation.now (decimal place)) }
    ensures err { OnErr result
        (AppendsPart out.old.items out.new.items
        (with_word kind key.now operation.now (decimal place))) }
{
    let mut digits = Buffer::new();
    put_with_word(out, kind, key, operation, digits.format(place).as_bytes())
}

// `KIND KEY OPERATION NUMBER WORD`, of a place in a list.
fn put_with_both<'a>(
    out: &mut Vec<u8>,
    kind: Kind,
    key: &'a [u8],
    operation: &'a [u8],
    place: u32,
    word: &'a [u8],
) -> Result<(), Memory>
    ensures ok { OnOk result
        (out.new.items ≡ out.old.items ++ (with_word kind key.now operation.now (decimal place)
        ++ codes " " ++ word.now)) }
    ensures err { OnErr result
        (AppendsPart out.old.items out.new.items
        (with_word kind key.now operation.now (decimal place) ++ codes " " ++ word.now)) }
{
    let kind: &'a [u8] = kind_word(kind);
    let mut digits = Buffer::new();
    put_pieces(
        out,
        &[
            kind,
            b" ",
            key,
            b" ",
            operation,
            b" ",
            digits.format(place).as_bytes(),
            b" ",
            word,
        ],
    )
}

/// The words of the line that does an operation, behind `do` and its session: `set tags add red`. Keys and payloads are
/// written as they are, byte for byte.
pub fn put_op(out: &mut Vec<u8>, op: &PlainOp) -> Result<(), Memory>
    ensures ok { OnOk result (out.new.items ≡ out.old.items ++ op_words op.now) }
    ensures err { OnErr result (AppendsPart out.old.items out.new.items (op_words op.now)) }
{
    match op {
        PlainOp::CounterAdd { key, amount } => {
            put_with_amount(out, Kind::Counter, key.as_slice(), b"add", *amount)
        }
        PlainOp::CounterReset { key } => put_on_key(out, Kind::Counter, key.as_slice(), b"reset"),
        PlainOp::FlagEnable { key } => put_on_key(out, Kind::Flag, key.as_slice(), b"enable"),
        PlainOp::FlagDisable { key } => put_on_key(out, Kind::Flag, key.as_slice(), b"disable"),
        PlainOp::LwwSet { key, payload } => {
            put_with_word(out, Kind::Lww, key.as_slice(), b"set", payload.as_slice())
        }
        PlainOp::MultiSet { key, payload } => {
            put_with_word(out, Kind::Multi, key.as_slice(), b"set", payload.as_slice())
        }
        PlainOp::SetAdd { key, element } => {
            put_with_word(out, Kind::Set, key.as_slice(), b"add", element.as_slice())
        }
        PlainOp::SetRemove { key, element } => {
            put_with_word(
                out,
                Kind::Set,
                key.as_slice(),
                b"remove",
                element.as_slice(),
            )
        }
        PlainOp::SetClear { key } => put_on_key(out, Kind::Set, key.as_slice(), b"clear"),
        PlainOp::LogAppend { key, payload } => {
            put_with_word(
                out,
                Kind::Log,
                key.as_slice(),
                b"append",
                payload.as_slice(),
            )
        }
        PlainOp::QueueEnqueue { key, payload } => {
            put_with_word(
                out,
                Kind::Queue,
                key.as_slice(),
                b"enqueue",
                payload.as_slice(),
            )
        }
        PlainOp::QueueDequeue { key } => put_on_key(out, Kind::Queue, key.as_slice(), b"dequeue"),
        PlainOp::SequenceInsert {
            key,
            place,
            payload,
        } => {
            let (key, payload) = (key.as_slice(), payload.as_slice());
            put_with_both(out, Kind::Sequence, key, b"insert", *place, payload)
        }
        PlainOp::SequenceDelete { key, place } => {
            put_with_place(out, Kind::Sequence, key.as_slice(), b"delete", *place)
        }
    }
}
