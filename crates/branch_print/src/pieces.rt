// Texts made of pieces. After want of memory a first part of the text has been written.
ghost use Rattle.std.specs.Prelude.{◌≡◌, ◌++◌, codes, decimal, OnOk, OnErr};
ghost use Rattle.std.specs.Fmt.{signed_decimal};
ghost use Rattle.std.specs.List.{flat_map};
ghost use Rattle.mrdt_model.specs.Spelled.{AppendsPart};
ghost use Rattle.branch_print.specs.Texts.{items_text, entry_text, entries_text, line_end};

use itoa::Buffer;
use live_set::Kept;
use mrdt_model::{Bytes, Memory};

/// A text.
pub fn put_text(out: &mut Vec<u8>, text: &[u8]) -> Result<(), Memory>
    ensures ok { OnOk result (out.new.items ≡ out.old.items ++ text.now) }
    ensures err { OnErr result (AppendsPart out.old.items out.new.items text.now) }
{
    Ok(out.extend_from_slice(text)?)
}

/// A number.
pub fn put_number(out: &mut Vec<u8>, number: u64) -> Result<(), Memory>
    ensures ok { OnOk result (out.new.items ≡ out.old.items ++ decimal number) }
    ensures err { OnErr result (AppendsPart out.old.items out.new.items (decimal number)) }
{
    let mut digits = Buffer::new();
    put_text(out, digits.format(number).as_bytes())
}

/// A signed number.
pub fn put_signed(out: &mut Vec<u8>, number: i128) -> Result<(), Memory>
    ensures ok { OnOk result (out.new.items ≡ out.old.items ++ signed_decimal number) }
    ensures err { OnErr result (AppendsPart out.old.items out.new.items (signed_decimal number)) }
{
    let mut digits = Buffer::new();
    put_text(out, digits.format(number).as_bytes())
}

/// The pieces, one behind the other.
pub fn put_pieces(out: &mut Vec<u8>, pieces: &[&[u8]]) -> Result<(), Memory>
    ensures ok { OnOk result (out.new.items ≡ out.old.items ++ flat_map (λ piece.
        piece.now) pieces.now) }
    ensures err { OnErr result
        (AppendsPart out.old.items out.new.items (flat_map (λ piece. piece.now) pieces.now)) }
{
    for piece in pieces {
        put_text(out, piece)?;
    }
    Ok(())
}

/// A count in brackets.
pub fn put_brackets(out: &mut Vec<u8>, count: u64) -> Result<(), Memory>
    ensures ok { OnOk result (out.new.items
        ≡ out.old.items ++ (codes "[" ++ decimal count ++ codes "]")) }
    ensures err { OnErr result
        (AppendsPart out.old.items out.new.items (codes "[" ++ decimal count ++ codes "]")) }
{
    let mut digits = Buffer::new();
    put_pieces(out, &[b"[", digits.format(count).as_bytes(), b"]"])
}

// Each item after a space.
fn put_each(out: &mut Vec<u8>, items: &[Bytes]) -> Result<(), Memory>
    ensures ok { OnOk result (out.new.items ≡ out.old.items ++ flat_map (λ item.
        codes " " ++ item) items.now) }
    ensures err { OnErr result
        (AppendsPart out.old.items out.new.items (flat_map (λ item. codes " " ++ item) items.now)) }
{
    for item in items {
        put_pieces(out, &[b" ", item.as_slice()])?;
    }
    Ok(())
}

/// The count of items in brackets, then each after a space.
pub fn put_items(out: &mut Vec<u8>, items: &[Bytes]) -> Result<(), Memory>
    ensures ok { OnOk result (out.new.items ≡ out.old.items ++ items_text items.now) }
    ensures err { OnErr result (AppendsPart out.old.items out.new.items (items_text items.now)) }
{
    put_brackets(out, items.len() as u64)?;
    put_each(out, items)
}

/// A text, then a time and, after a space, what was put then.
pub fn put_entry(out: &mut Vec<u8>, text: &[u8], entry: &Kept<Bytes>) -> Result<(), Memory>
    ensures ok { OnOk result (out.new.items ≡ out.old.items ++ (text.now ++ entry_text entry.now)) }
    ensures err { OnErr result
        (AppendsPart out.old.items out.new.items (text.now ++ entry_text entry.now)) }
{
    let mut clock = Buffer::new();
    let mut origin = Buffer::new();
    put_pieces(
        out,
        &[
            text,
            clock.format(entry.time.clock).as_bytes(),
            b".",
            origin.format(entry.time.origin).as_bytes(),
            b" ",
            entry.payload.as_slice(),
        ],
    )
}

// Each entry after a space.
fn put_each_entry(out: &mut Vec<u8>, entries: &[Kept<Bytes>]) -> Result<(), Memory>
    ensures ok { OnOk result (out.new.items ≡ out.old.items ++ flat_map (λ entry.
        codes " " ++ entry_text entry) entries.now) }
    ensures err { OnErr result
        (AppendsPart out.old.items out.new.items
        (flat_map (λ entry. codes " " ++ entry_text entry) entries.now)) }
{
    for entry in entries {
        put_entry(out, b" ", entry)?;
    }
    Ok(())
}

/// The count of entries in brackets, then each after a space.
pub fn put_entries(out: &mut Vec<u8>, entries: &[Kept<Bytes>]) -> Result<(), Memory>
    ensures ok { OnOk result (out.new.items ≡ out.old.items ++ entries_text entries.now) }
    ensures err { OnErr result
        (AppendsPart out.old.items out.new.items (entries_text entries.now)) }
{
    put_brackets(out, entries.len() as u64)?;
    put_each_entry(out, entries)
}

/// A text, a number and the end of the line.
pub fn put_count(out: &mut Vec<u8>, text: &[u8], number: u64) -> Result<(), Memory>
    ensures ok { OnOk result (out.new.items
        ≡ out.old.items ++ (text.now ++ decimal number ++ line_end)) }
    ensures err { OnErr result
        (AppendsPart out.old.items out.new.items (text.now ++ decimal number ++ line_end)) }
{
    let mut digits = Buffer::new();
    put_pieces(out, &[text, digits.format(number).as_bytes(), b"\n"])
}
