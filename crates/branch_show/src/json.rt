// A document as JSON. After want of memory a first part of it has been written.
ghost use Rattle.std.specs.Prelude.{◌≡◌, ◌++◌, ◌||◌, [], Some, codes, map, filter, if◌then◌else◌, OnOk, OnErr, IfOk};
ghost use Rattle.mrdt_model.specs.Spelled.{AppendsPart};
ghost use Rattle.branch_doc.specs.declared.plain.PlainQuery.TheVariants.{Keys};
ghost use Rattle.branch_words.specs.Words.{kind_word};
ghost use Rattle.branch_show.specs.Documents.{all_kinds, keys_in};
ghost use Rattle.branch_show.specs.Json.{with_commas, json_member, json_object, key_member, kind_member, is_told, json_text};

use crate::asked::Asked;
use crate::document::ask_whole;
use crate::json_answers::put_json_answer;
use crate::json_words::{put_comma, put_name};
use crate::kinds::{all_kinds, keys_in};
use branch_doc::{Kind, PlainAnswer, PlainQuery};
use branch_print::pieces::put_text;
use branch_words::kind_word;
use mrdt_model::{Bytes, Memory};
use std::alloc::Global;

// The member of a key, behind others or as the first one.
fn put_key<V: Asked>(
    alloc: Global,
    out: &mut Vec<u8>,
    document: &V,
    kind: Kind,
    is_behind: bool,
    key: &[u8],
) -> Result<(), Memory>
    ensures ok { OnOk result (out.new.items
        ≡ out.old.items ++ ((if is_behind then codes "," else [])
        ++ key_member (V.answers document.now) kind key.now)) }
    ensures err { OnErr result
        (AppendsPart out.old.items out.new.items
        ((if is_behind then codes "," else []) ++ key_member (V.answers document.now) kind key.now)) }
{
    let answer = ask_whole(alloc, document, kind, key)?;
    put_comma(out, is_behind)?;
    put_name(out, key)?;
    put_json_answer(out, &answer)
}

// The members of these keys of a kind.
fn put_keys<V: Asked>(
    alloc: Global,
    out: &mut Vec<u8>,
    document: &V,
    kind: Kind,
    keys: &[Bytes],
) -> Result<(), Memory>
    ensures ok { OnOk result (out.new.items
        ≡ out.old.items ++ with_commas (map (key_member (V.answers document.now) kind) keys.now)) }
    ensures err { OnErr result
        (AppendsPart out.old.items out.new.items
        (with_commas (map (key_member (V.answers document.now) kind) keys.now))) }
{
    for (i, key) in keys.iter().enumerate() {
        put_key(alloc, out, document, kind, i > 0, key.as_slice())?;
    }
    Ok(())
}

// The member of a kind, whose keys these are.
fn put_kind<V: Asked>(
    alloc: Global,
    out: &mut Vec<u8>,
    document: &V,
    kind: Kind,
    keys: &[Bytes],
) -> Result<(), Memory>
    ensures ok { OnOk result (out.new.items
        ≡ out.old.items ++ json_member (kind_word kind)
        (json_object (map (key_member (V.answers document.now) kind) keys.now))) }
    ensures err { OnErr result
        (AppendsPart out.old.items out.new.items
        (json_member (kind_word kind)
        (json_object (map (key_member (V.answers document.now) kind) keys.now)))) }
{
    put_name(out, kind_word(kind))?;
    put_text(out, b"{")?;
    put_keys(alloc, out, document, kind, keys)?;
    put_text(out, b"}")
}

// The member of a kind, behind others or as the first one; nothing of a kind that the document lacks. It says whether
// what comes next is behind others.
fn put_told<V: Asked>(
    alloc: Global,
    out: &mut Vec<u8>,
    document: &V,
    kind: Kind,
    is_behind: bool,
) -> Result<bool, Memory>
    ensures ok { OnOk result (out.new.items
        ≡ out.old.items ++ (if is_told (V.answers document.now (Keys kind))
        then (if is_behind then codes "," else []) ++ kind_member (V.answers document.now) kind
        else [])) }
    ensures err { OnErr result
        (AppendsPart out.old.items out.new.items
        (if is_told (V.answers document.now (Keys kind))
        then (if is_behind then codes "," else []) ++ kind_member (V.answers document.now) kind
        else [])) }
    ensures next { IfOk result (λ next. next
        ≡ (is_behind || is_told (V.answers document.now (Keys kind)))) }
{
    match document.ask(&PlainQuery::Keys(kind))? {
        None => Ok(is_behind),
        Some(answer) => {
            put_comma(out, is_behind)?;
            put_kind(alloc, out, document, kind, keys_in(&answer))?;
            Ok(true)
        }
    }
}

// The members of all kinds.
fn put_kinds<V: Asked>(alloc: Global, out: &mut Vec<u8>, document: &V) -> Result<(), Memory>
    ensures ok { OnOk result (out.new.items
        ≡ out.old.items ++ with_commas (map (kind_member (V.answers document.now))
        (filter (λ k. is_told (V.answers document.now (Keys k))) all_kinds))) }
    ensures err { OnErr result
        (AppendsPart out.old.items out.new.items
        (with_commas (map (kind_member (V.answers document.now))
        (filter (λ k. is_told (V.answers document.now (Keys k))) all_kinds)))) }
{
    let mut is_behind = false;
    for kind in all_kinds() {
        is_behind = put_told(alloc, out, document, kind, is_behind)?;
    }
    Ok(())
}

/// The document as one JSON object on one line: a member for each kind, whose members are its keys, without blanks. A byte
/// of a key or of a word outside 32 to 126 is written as `\u00` and two hexadecimal digits.
pub fn put_json<V: Asked>(alloc: Global, out: &mut Vec<u8>, document: &V) -> Result<(), Memory>
    ensures ok { OnOk result (out.new.items ≡ out.old.items ++ json_text (V.answers document.now)) }
    ensures err { OnErr result
        (AppendsPart out.old.items out.new.items (json_text (V.answers document.now))) }
{
    put_text(out, b"{")?;
    put_kinds(alloc, out, document)?;
    put_text(out, b"}\n")
}
