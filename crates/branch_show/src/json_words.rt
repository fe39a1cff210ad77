// Strings of JSON, and the commas of its lists. After want of memory a first part of it has been written.
ghost use Rattle.std.specs.Prelude.{◌≡◌, ◌++◌, [], ◌∷◌, codes, if◌then◌else◌, OnOk, OnErr};
ghost use Rattle.std.specs.List.{flat_map};
ghost use Rattle.hex.specs.Hex.{encode_lower};
ghost use Rattle.mrdt_model.specs.Spelled.{AppendsPart};
ghost use Rattle.branch_show.specs.Json.{is_itself, json_byte, json_string};

use branch_print::pieces::{put_pieces, put_text};
use mrdt_model::Memory;

// Whether a byte stands for itself.
fn is_itself(byte: u8) -> bool
    ensures { result ≡ is_itself byte }
{
    32 <= byte && byte <= 126 && byte != 34 && byte != 92
}

// The two hexadecimal digits of a byte.
fn hex_digits(byte: u8) -> [u8; 2]
    ensures { result ≡ encode_lower (byte ∷ []) }
{
    let mut digits = [0; 2];
    match hex::encode_to_slice([byte].as_slice(), &mut digits) {
        Ok(()) => digits,
        Err(_) => unreachable!(),
    }
}

// A byte by its number.
fn put_code(out: &mut Vec<u8>, byte: u8) -> Result<(), Memory>
    ensures ok { OnOk result (out.new.items
        ≡ out.old.items ++ (codes "\\u00" ++ encode_lower (byte ∷ []))) }
    ensures err { OnErr result
        (AppendsPart out.old.items out.new.items (codes "\\u00" ++ encode_lower (byte ∷ []))) }
{
    let digits = hex_digits(byte);
    put_pieces(out, &[b"\\u00", digits.as_slice()])
}

// A byte in a string.
fn put_byte(out: &mut Vec<u8>, byte: u8) -> Result<(), Memory>
    ensures ok { OnOk result (out.new.items ≡ out.old.items ++ json_byte byte) }
    ensures err { OnErr result (AppendsPart out.old.items out.new.items (json_byte byte)) }
{
    if is_itself(byte) {
        Ok(out.push(byte)?)
    } else if byte == 34 {
        put_text(out, b"\\\"")
    } else if byte == 92 {
        put_text(out, b"\\\\")
    } else {
        put_code(out, byte)
    }
}

// Bytes in a string.
fn put_bytes(out: &mut Vec<u8>, bytes: &[u8]) -> Result<(), Memory>
    ensures ok { OnOk result (out.new.items ≡ out.old.items ++ flat_map json_byte bytes.now) }
    ensures err { OnErr result
        (AppendsPart out.old.items out.new.items (flat_map json_byte bytes.now)) }
{
    for byte in bytes {
        put_byte(out, *byte)?;
    }
    Ok(())
}

// A string of bytes.
pub(crate) fn put_string(out: &mut Vec<u8>, bytes: &[u8]) -> Result<(), Memory>
    ensures ok { OnOk result (out.new.items ≡ out.old.items ++ json_string bytes.now) }
    ensures err { OnErr result (AppendsPart out.old.items out.new.items (json_string bytes.now)) }
{
    put_text(out, b"\"")?;
    put_bytes(out, bytes)?;
    put_text(out, b"\"")
}

// The name of a member.
pub(crate) fn put_name(out: &mut Vec<u8>, name: &[u8]) -> Result<(), Memory>
    ensures ok { OnOk result (out.new.items
        ≡ out.old.items ++ (json_string name.now ++ codes ":")) }
    ensures err { OnErr result
        (AppendsPart out.old.items out.new.items (json_string name.now ++ codes ":")) }
{
    put_string(out, name)?;
    put_text(out, b":")
}

// The comma in front of an item that is behind another.
pub(crate) fn put_comma(out: &mut Vec<u8>, is_behind: bool) -> Result<(), Memory>
    ensures ok { OnOk result (out.new.items
        ≡ out.old.items ++ (if is_behind then codes "," else [])) }
    ensures err { OnErr result
        (AppendsPart out.old.items out.new.items (if is_behind then codes "," else [])) }
{
    if is_behind {
        put_text(out, b",")
    } else {
        Ok(())
    }
}
