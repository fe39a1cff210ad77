// Bundles written at the end of a `Vec`.
ghost use Rattle.std.specs.Prelude.{◌≡◌, ◌++◌, OnOk, OnErr};
ghost use Rattle.mrdt_model.specs.Spelled.{AppendsPart};
ghost use Rattle.branch_bundle.specs.Held.{held_text, items_text, text_of, front};

use crate::bundle::{Bundle, Item};
use branch_names::Layout;
use branch_wire::put_u64;
use mrdt_model::Memory;

/// The letters that a bundle begins with, and the version of its layout.
pub(crate) fn front_of(layout: Layout) -> [u8; 12]
    ensures { result ≡ front layout }
{
    match layout {
        Layout::Whole => *b"MRDTBNDL\0\0\0\x01",
        Layout::Changes => *b"MRDTBNDL\0\0\0\x02",
    }
}

/// Writes the bundle's bytes at the end of `out`, in the version of a layout; after `Memory`, a first part of them. The
/// numbers of its items are not among them.
pub fn put_bundle(bundle: &Bundle, layout: Layout, out: &mut Vec<u8>) -> Result<(), Memory>
    ensures ok { OnOk result (out.new.items ≡ out.old.items ++ text_of layout bundle.now) }
    ensures err { OnErr result (AppendsPart out.old.items out.new.items (text_of layout bundle.now)) }
{
    let front = front_of(layout);
    out.extend_from_slice(&front)?;
    out.extend_from_slice(&bundle.tip)?;
    put_items(bundle.items.as_slice(), out)
}

// Writes a count, and that many items.
fn put_items(items: &[Item], out: &mut Vec<u8>) -> Result<(), Memory>
    ensures ok { OnOk result (out.new.items ≡ out.old.items ++ items_text items.now) }
    ensures err { OnErr result (AppendsPart out.old.items out.new.items (items_text items.now)) }
{
    put_u64(items.len() as u64, out)?;
    for item in items {
        put_item(item, out)?;
    }
    Ok(())
}

// Writes the objects of an item.
fn put_item(item: &Item, out: &mut Vec<u8>) -> Result<(), Memory>
    ensures ok { OnOk result (out.new.items ≡ out.old.items ++ held_text item.now) }
    ensures err { OnErr result (AppendsPart out.old.items out.new.items (held_text item.now)) }
{
    out.extend_from_slice(item.value.as_slice())?;
    Ok(out.extend_from_slice(item.commit.as_slice())?)
}
