// The objects of a new store.
ghost use Rattle.std.specs.Prelude.{◌≡◌, [], IfOk};
ghost use Rattle.branch_names.specs.declared.terms.Terms.{Terms as SpecTerms};
ghost use Rattle.branch_machine.specs.Fixed.{fix_in};
ghost use Rattle.branch_machine.specs.Objects.{kept_address, kept_value, objects_text};
ghost use Rattle.branch_wire.specs.StoredObjects.{header_of};
ghost use Rattle.commit_replay.specs.Follows.{form_of};

use branch_address::Address;
use branch_names::Layout;
use branch_objects_codec::{Action, Object, put_value};
use branch_wire::put_u32;
use mrdt_model::{Listing, Memory, Mrdt};
use std::alloc::Global;

const LETTERS: &[u8] = b"MRDTOBJS";

/// The bytes of the objects file of a new store in a version, under terms with a layout: its header, the object of the
/// first value, where the layout keeps it, and that of the root commit.
pub fn first_text<T: Mrdt, A: Address>(
    alloc: Global,
    version: u32,
    layout: Layout,
) -> Result<Vec<u8>, Memory>
    ensures { IfOk result (λ text. (terms : SpecTerms) → terms.layout ≡ layout
        → text.items ≡ objects_text (fix_in (form_of version) T.meaning terms A.address) []) }
{
    let value = first_value::<T>(alloc, layout)?;
    let root = Object::Commit {
        parents: Listing::from_vec(Vec::new(alloc)),
        branch: 0,
        clock: 0,
        value: value_address::<A>(layout, &value),
        action: Action::Root,
    };
    let mut text = header_text(alloc, version)?;
    text.extend_from_slice(&value)?;
    root.put(&mut text)?;
    Ok(text)
}

// The object of the first value, where the layout keeps it.
fn first_value<T: Mrdt>(alloc: Global, layout: Layout) -> Result<Vec<u8>, Memory>
    ensures { IfOk result (λ value. value.items ≡ kept_value layout (T.meaning.spelling_of [])) }
{
    let mut value = Vec::new(alloc);
    match layout {
        Layout::Whole => {
            let mut spelling = Vec::new(alloc);
            T::initial(alloc).put(&mut spelling)?;
            put_value(&spelling, &mut value)?;
            Ok(value)
        }
        Layout::Changes => Ok(value),
    }
}

// The address of a value's object, where the layout keeps it.
fn value_address<A: Address>(layout: Layout, value: &[u8]) -> Option<[u8; 32]>
    ensures { result ≡ kept_address layout (A.address value.now) }
{
    match layout {
        Layout::Whole => Some(A::of(value)),
        Layout::Changes => None,
    }
}

// The header of a version.
fn header_text(alloc: Global, version: u32) -> Result<Vec<u8>, Memory>
    ensures { IfOk result (λ text. text.items ≡ header_of version) }
{
    let mut text = Vec::from_slice(alloc, LETTERS)?;
    put_u32(version, &mut text)?;
    put_u32(0, &mut text)?;
    Ok(text)
}
