// A document as lines. After want of memory a first part of it has been written.
ghost use Rattle.std.specs.Prelude.{◌≡◌, ◌++◌, codes, OnOk, OnErr, IfOk};
ghost use Rattle.std.specs.List.{flat_map};
ghost use Rattle.mrdt_model.specs.Spelled.{AppendsPart};
ghost use Rattle.branch_words.specs.Words.{kind_word};
ghost use Rattle.branch_show.specs.Documents.{whole_query, words_of, key_line, kind_lines, document_text};

use crate::asked::Asked;
use crate::kinds::{all_kinds, keys_in, whole_query};
use branch_doc::{Kind, PlainAnswer, PlainQuery};
use branch_print::pieces::{put_pieces, put_text};
use branch_print::replies::put_answer_text;
use branch_words::kind_word;
use mrdt_model::{Bytes, Memory};
use std::alloc::Global;

// What the document answers to the query for all that is at a key.
pub(crate) fn ask_whole<V: Asked>(
    alloc: Global,
    document: &V,
    kind: Kind,
    key: &[u8],
) -> Result<Option<PlainAnswer>, Memory>
    ensures { IfOk result (λ answer. answer
        ≡ V.answers document.now (whole_query kind key.now)) }
{
    let query = whole_query(kind, Bytes::from_slice(alloc, key)?);
    document.ask(&query)
}

// The text of what is at a key.
fn put_words<V: Asked>(
    alloc: Global,
    out: &mut Vec<u8>,
    document: &V,
    kind: Kind,
    key: &[u8],
) -> Result<(), Memory>
    ensures ok { OnOk result (out.new.items ≡ out.old.items
        ++ words_of (V.answers document.now (whole_query kind key.now))) }
    ensures err { OnErr result
        (AppendsPart out.old.items out.new.items
        (words_of (V.answers document.now (whole_query kind key.now)))) }
{
    match ask_whole(alloc, document, kind, key)? {
        None => Ok(()),
        Some(answer) => put_answer_text(out, &answer),
    }
}

// The words in front of an answer: `KIND KEY `.
fn put_front<'a>(out: &mut Vec<u8>, kind: Kind, key: &'a [u8]) -> Result<(), Memory>
    ensures ok { OnOk result (out.new.items
        ≡ out.old.items ++ (kind_word kind ++ codes " " ++ key.now ++ codes " ")) }
    ensures err { OnErr result
        (AppendsPart out.old.items out.new.items
        (kind_word kind ++ codes " " ++ key.now ++ codes " ")) }
{
    let kind: &'a [u8] = kind_word(kind);
    put_pieces(out, &[kind, b" ", key, b" "])
}

// The line of a key.
fn put_line<V: Asked>(
    alloc: Global,
    out: &mut Vec<u8>,
    document: &V,
    kind: Kind,
    key: &[u8],
) -> Result<(), Memory>
    ensures ok { OnOk result (out.new.items
        ≡ out.old.items ++ key_line (V.answers document.now) kind key.now) }
    ensures err { OnErr result
        (AppendsPart out.old.items out.new.items (key_line (V.answers document.now) kind key.now)) }
{
    put_front(out, kind, key)?;
    put_words(alloc, out, document, kind, key)?;
    put_text(out, b"\n")
}

// The lines of these keys of a kind.
fn put_lines<V: Asked>(
    alloc: Global,
    out: &mut Vec<u8>,
    document: &V,
    kind: Kind,
    keys: &[Bytes],
) -> Result<(), Memory>
    ensures ok { OnOk result (out.new.items
        ≡ out.old.items ++ flat_map (key_line (V.answers document.now) kind) keys.now) }
    ensures err { OnErr result
        (AppendsPart out.old.items out.new.items
        (flat_map (key_line (V.answers document.now) kind) keys.now)) }
{
    for key in keys {
        put_line(alloc, out, document, kind, key.as_slice())?;
    }
    Ok(())
}

// The lines of all keys of a kind.
fn put_kind_lines<V: Asked>(
    alloc: Global,
    out: &mut Vec<u8>,
    document: &V,
    kind: Kind,
) -> Result<(), Memory>
    ensures ok { OnOk result (out.new.items
        ≡ out.old.items ++ kind_lines (V.answers document.now) kind) }
    ensures err { OnErr result
        (AppendsPart out.old.items out.new.items (kind_lines (V.answers document.now) kind)) }
{
    match document.ask(&PlainQuery::Keys(kind))? {
        None => Ok(()),
        Some(answer) => put_lines(alloc, out, document, kind, keys_in(&answer)),
    }
}

/// A line for each key of each kind, as `counter hits 7` and `set tags [1] red`: the answer to `value`, `on`, `get`,
/// `values`, `members`, `read`, `items` or `read`. It asks for the keys of each kind once, and for each key once.
pub fn put_document<V: Asked>(alloc: Global, out: &mut Vec<u8>, document: &V) -> Result<(), Memory>
    ensures ok { OnOk result (out.new.items
        ≡ out.old.items ++ document_text (V.answers document.now)) }
    ensures err { OnErr result
        (AppendsPart out.old.items out.new.items (document_text (V.answers document.now))) }
{
    for kind in all_kinds() {
        put_kind_lines(alloc, out, document, kind)?;
    }
    Ok(())
}
