// Answers as JSON. After want of memory a first part of it has been written.
ghost use Rattle.std.specs.Prelude.{◌≡◌, ◌++◌, [], Some, codes, decimal, map, if◌then◌else◌, OnOk, OnErr};
ghost use Rattle.std.specs.List.{flat_map};
ghost use Rattle.mrdt_model.specs.Spelled.{AppendsPart};
ghost use Rattle.branch_print.specs.Texts.{time_text};
ghost use Rattle.branch_show.specs.Json.{with_commas, json_byte, json_string, json_array, json_entry, json_maybe, json_answer};

use crate::json_words::{put_comma, put_string};
use branch_doc::PlainAnswer;
use branch_print::pieces::{put_number, put_signed, put_text};
use live_set::Kept;
use mrdt_model::{Bytes, Memory, Time};

// A number in a string.
fn put_digits(out: &mut Vec<u8>, number: u64) -> Result<(), Memory>
    ensures ok { OnOk result (out.new.items
        ≡ out.old.items ++ flat_map json_byte (decimal number)) }
    ensures err { OnErr result
        (AppendsPart out.old.items out.new.items (flat_map json_byte (decimal number))) }
{
    put_number(out, number)
}

// A time as a string.
fn put_time(out: &mut Vec<u8>, time: Time) -> Result<(), Memory>
    ensures ok { OnOk result (out.new.items ≡ out.old.items ++ json_string (time_text time)) }
    ensures err { OnErr result
        (AppendsPart out.old.items out.new.items (json_string (time_text time))) }
{
    put_text(out, b"\"")?;
    put_digits(out, time.clock)?;
    put_text(out, b".")?;
    put_digits(out, u64::from(time.origin))?;
    put_text(out, b"\"")
}

// A time, and what was put then.
fn put_entry(out: &mut Vec<u8>, entry: &Kept<Bytes>) -> Result<(), Memory>
    ensures ok { OnOk result (out.new.items ≡ out.old.items ++ json_entry entry.now) }
    ensures err { OnErr result (AppendsPart out.old.items out.new.items (json_entry entry.now)) }
{
    put_text(out, b"{\"time\":")?;
    put_time(out, entry.time)?;
    put_text(out, b",\"word\":")?;
    put_string(out, entry.payload.as_slice())?;
    put_text(out, b"}")
}

// An item of an array of entries.
fn put_next_entry(out: &mut Vec<u8>, is_behind: bool, entry: &Kept<Bytes>) -> Result<(), Memory>
    ensures ok { OnOk result (out.new.items
        ≡ out.old.items ++ ((if is_behind then codes "," else []) ++ json_entry entry.now)) }
    ensures err { OnErr result
        (AppendsPart out.old.items out.new.items
        ((if is_behind then codes "," else []) ++ json_entry entry.now)) }
{
    put_comma(out, is_behind)?;
    put_entry(out, entry)
}

// An item of an array of strings.
fn put_next_string(out: &mut Vec<u8>, is_behind: bool, bytes: &[u8]) -> Result<(), Memory>
    ensures ok { OnOk result (out.new.items
        ≡ out.old.items ++ ((if is_behind then codes "," else []) ++ json_string bytes.now)) }
    ensures err { OnErr result
        (AppendsPart out.old.items out.new.items
        ((if is_behind then codes "," else []) ++ json_string bytes.now)) }
{
    put_comma(out, is_behind)?;
    put_string(out, bytes)
}

// The items of an array of entries.
fn put_each_entry(out: &mut Vec<u8>, entries: &[Kept<Bytes>]) -> Result<(), Memory>
    ensures ok { OnOk result (out.new.items
        ≡ out.old.items ++ with_commas (map json_entry entries.now)) }
    ensures err { OnErr result
        (AppendsPart out.old.items out.new.items (with_commas (map json_entry entries.now))) }
{
    for (i, entry) in entries.iter().enumerate() {
        put_next_entry(out, i > 0, entry)?;
    }
    Ok(())
}

// The items of an array of strings.
fn put_each_string(out: &mut Vec<u8>, strings: &[Bytes]) -> Result<(), Memory>
    ensures ok { OnOk result (out.new.items
        ≡ out.old.items ++ with_commas (map json_string strings.now)) }
    ensures err { OnErr result
        (AppendsPart out.old.items out.new.items (with_commas (map json_string strings.now))) }
{
    for (i, string) in strings.iter().enumerate() {
        put_next_string(out, i > 0, string.as_slice())?;
    }
    Ok(())
}

// An array of entries.
fn put_entries(out: &mut Vec<u8>, entries: &[Kept<Bytes>]) -> Result<(), Memory>
    ensures ok { OnOk result (out.new.items ≡ out.old.items ++ json_array json_entry entries.now) }
    ensures err { OnErr result
        (AppendsPart out.old.items out.new.items (json_array json_entry entries.now)) }
{
    put_text(out, b"[")?;
    put_each_entry(out, entries)?;
    put_text(out, b"]")
}

// An array of strings.
fn put_strings(out: &mut Vec<u8>, strings: &[Bytes]) -> Result<(), Memory>
    ensures ok { OnOk result (out.new.items ≡ out.old.items ++ json_array json_string strings.now) }
    ensures err { OnErr result
        (AppendsPart out.old.items out.new.items (json_array json_string strings.now)) }
{
    put_text(out, b"[")?;
    put_each_string(out, strings)?;
    put_text(out, b"]")
}

// The string that there is, or `null`.
fn put_maybe(out: &mut Vec<u8>, bytes: &Option<Bytes>) -> Result<(), Memory>
    ensures ok { OnOk result (out.new.items ≡ out.old.items ++ json_maybe bytes.now) }
    ensures err { OnErr result (AppendsPart out.old.items out.new.items (json_maybe bytes.now)) }
{
    match bytes {
        None => put_text(out, b"null"),
        Some(bytes) => put_string(out, bytes.as_slice()),
    }
}

// One of the two truth values.
fn put_truth(out: &mut Vec<u8>, is_true: bool) -> Result<(), Memory>
    ensures ok { OnOk result (out.new.items
        ≡ out.old.items ++ (if is_true then codes "true" else codes "false")) }
    ensures err { OnErr result
        (AppendsPart out.old.items out.new.items
        (if is_true then codes "true" else codes "false")) }
{
    if is_true {
        put_text(out, b"true")
    } else {
        put_text(out, b"false")
    }
}

// What is at a key, as the document answers it.
fn put_given(out: &mut Vec<u8>, answer: &PlainAnswer) -> Result<(), Memory>
    ensures ok { OnOk result (out.new.items ≡ out.old.items ++ json_answer (Some answer.now)) }
    ensures err { OnErr result
        (AppendsPart out.old.items out.new.items (json_answer (Some answer.now))) }
{
    match answer {
        PlainAnswer::CounterValue(value) => put_signed(out, *value),
        PlainAnswer::FlagIsOn(is_on) => put_truth(out, *is_on),
        PlainAnswer::LwwGet(payload) => put_maybe(out, payload),
        PlainAnswer::MultiValues(payloads) => put_strings(out, payloads.as_slice()),
        PlainAnswer::SetMembers(members) => put_strings(out, members.as_slice()),
        PlainAnswer::LogRead(entries) => put_entries(out, entries.as_slice()),
        PlainAnswer::QueueItems(entries) => put_entries(out, entries.as_slice()),
        PlainAnswer::SequenceRead(entries) => put_entries(out, entries.as_slice()),
        _ => put_text(out, b"null"),
    }
}

// What is at a key.
pub(crate) fn put_json_answer(out: &mut Vec<u8>, answer: &Option<PlainAnswer>) -> Result<(), Memory>
    ensures ok { OnOk result (out.new.items ≡ out.old.items ++ json_answer answer.now) }
    ensures err { OnErr result (AppendsPart out.old.items out.new.items (json_answer answer.now)) }
{
    match answer {
        None => put_text(out, b"null"),
        Some(answer) => put_given(out, answer),
    }
}
