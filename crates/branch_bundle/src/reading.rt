// Bundles read from bytes.
ghost use Rattle.std.specs.Prelude.{◌≡◌, ◌<◌, ◌++◌, ◌∷◌, [], ℕ, List, length, map, IfOk, OnOk, OnErr, IsErrOf};
ghost use Rattle.branch_wire.specs.Fields.{counted};
ghost use Rattle.branch_wire.specs.Reading.{HasLength, AreCounted};
ghost use Rattle.branch_objects_codec.specs.Parts.{NoneAt};
ghost use Rattle.branch_bundle_laws.specs.Text.{item_text, IsFramed, IsValueText, IsItemText};
ghost use Rattle.branch_bundle.specs.declared.errors.BundleRefused.TheVariants as refused;
ghost use Rattle.branch_bundle.specs.Held.{pair_of, held_text, items_text, numbered, front, IsReadAs, IsNoBundle};

use crate::bundle::{Bundle, Item};
use crate::errors::BundleRefused;
use crate::writing::front_of;
use branch_names::Layout;
use branch_wire::{Cursor, Short};
use mrdt_model::{Bytes, Listing, Memory, Unread};
use std::alloc::Global;

/// Reads the bundle of a layout whose spelling is the whole of the bytes, with its items numbered from 1. `BadBundle`
/// comes exactly where they are the spelling of none in this layout, and always of item 0. Of the objects the kind, the
/// length and the body are cut out, and nothing more is looked at.
pub fn read_bundle(alloc: Global, layout: Layout, bytes: &[u8]) -> Result<Bundle, BundleRefused>
    ensures read { IfOk result (IsReadAs layout bytes.now) }
    ensures outside { (item : ℕ) → IsErrOf result (refused.BadBundle item)
        → (item ≡ 0) × IsNoBundle layout bytes.now }
{
    Ok(get_bundle(alloc, layout, bytes)?)
}

// The bundle whose spelling is the whole of the bytes.
fn get_bundle(alloc: Global, layout: Layout, bytes: &[u8]) -> Result<Bundle, Unread>
    ensures read { IfOk result (IsReadAs layout bytes.now) }
    ensures outside { IsErrOf result Unread.NotCanonical → IsNoBundle layout bytes.now }
{
    let mut cursor = Cursor::new(bytes);
    take_front(layout, &mut cursor)?;
    let tip = take_tip(&mut cursor)?;
    let items = take_items(alloc, layout, &mut cursor)?;
    if cursor.is_at_end() {
        Ok(Bundle { tip, items })
    } else {
        Err(Unread::NotCanonical)
    }
}

// Takes the letters and the version.
fn take_front(layout: Layout, cursor: &mut Cursor<'_>) -> Result<(), Short>
    ensures ok { OnOk result (cursor.old ≡ front layout ++ cursor.new) }
    ensures outside { OnErr result ((rest : List ℕ) → cursor.old ≡ front layout ++ rest → ⊥) }
{
    let bytes = cursor.take_exact(12)?;
    let wanted = front_of(layout);
    if bytes == wanted.as_slice() {
        Ok(())
    } else {
        Err(Short)
    }
}

// Takes the address of the tip.
fn take_tip(cursor: &mut Cursor<'_>) -> Result<[u8; 32], Short>
    ensures ok { IfOk result (λ tip. cursor.old ≡ tip ++ cursor.new) }
    ensures size { IfOk result (HasLength 32) }
    ensures outside { OnErr result (length cursor.old < 32) }
{
    let mut tip = [0; 32];
    tip.copy_from_slice(cursor.take_exact(32)?);
    Ok(tip)
}

// Takes a kind, the length of a body, and the body, and gives the bytes of all three.
fn take_framed<'a>(cursor: &mut Cursor<'a>) -> Result<&'a [u8], Short>
    ensures known { IfOk result (λ object. IsFramed object.now) }
    ensures ok { IfOk result (λ object. cursor.old ≡ object.now ++ cursor.new) }
    ensures outside { OnErr result (NoneAt IsFramed (λ object. object) cursor.old) }
{
    let mut ahead = Cursor::new(cursor.as_slice());
    let _kind = ahead.take_u8()?;
    let body = ahead.take_bytes()?;
    cursor.take_exact(body.len() + 9)
}

// Takes the object of a value, where the layout keeps values.
fn take_value<'a>(layout: Layout, cursor: &mut Cursor<'a>) -> Result<&'a [u8], Short>
    ensures known { IfOk result (λ value. IsValueText layout value.now) }
    ensures ok { IfOk result (λ value. cursor.old ≡ value.now ++ cursor.new) }
    ensures outside { OnErr result (NoneAt (IsValueText layout) (λ value. value) cursor.old) }
{
    match layout {
        Layout::Whole => take_framed(cursor),
        Layout::Changes => Ok(&[]),
    }
}

// Takes the objects of an item.
fn take_item(
    alloc: Global,
    layout: Layout,
    number: u64,
    cursor: &mut Cursor<'_>,
) -> Result<Item, Unread>
    ensures known { IfOk result (λ item. IsItemText layout (pair_of item)) }
    ensures number { IfOk result (λ item. item.number ≡ number) }
    ensures ok { IfOk result (λ item. cursor.old ≡ held_text item ++ cursor.new) }
    ensures outside { IsErrOf result Unread.NotCanonical
        → NoneAt (IsItemText layout) item_text cursor.old }
{
    let value = take_value(layout, cursor)?;
    let commit = take_framed(cursor)?;
    Ok(Item {
        number,
        value: Bytes::from_slice(alloc, value)?,
        commit: Bytes::from_slice(alloc, commit)?,
    })
}

// Puts an item behind the others of a list.
fn push_item(item: Item, list: &mut Vec<Item>) -> Result<(), Memory>
    ensures { OnOk result (list.new.items ≡ list.old.items ++ item ∷ []) }
{
    Ok(list.push(item)?)
}

// Takes a count, and that many items. The count is not believed before they are there.
fn take_items(
    alloc: Global,
    layout: Layout,
    cursor: &mut Cursor<'_>,
) -> Result<Listing<Item>, Unread>
    ensures known { IfOk result (λ items. AreCounted (IsItemText layout) (map pair_of items)) }
    ensures numbers { IfOk result (λ items. items ≡ numbered 1 (map pair_of items)) }
    ensures ok { IfOk result (λ items. cursor.old ≡ items_text items ++ cursor.new) }
    ensures outside { IsErrOf result Unread.NotCanonical
        → NoneAt (AreCounted (IsItemText layout)) (counted item_text) cursor.old }
{
    let count = cursor.take_u64()?;
    let mut items = Vec::new(alloc);
    for index in 0..count {
        let item = take_item(alloc, layout, index + 1, cursor)?;
        push_item(item, &mut items)?;
    }
    Ok(Listing::from_vec(items))
}
