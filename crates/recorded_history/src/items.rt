// The objects of a commit, found among all that are stored.
ghost use Rattle.std.specs.Prelude.{◌≡◌, ◌++◌, ℕ, List, Some, IsOkAnd};
ghost use Rattle.branch_machine.specs.Objects.{both, kept_value};
ghost use Rattle.branch_wire.specs.Objects.{CommitFields, commit_object};
ghost use Rattle.branch_wire.specs.StoredObjects.{Stored, first_with};
ghost use Rattle.recorded_history.specs.Items.{AreSized, FindsValue, lent_item};

use branch_address::Address;
use branch_names::Layout;
use branch_wire::{Cursor, Short};
use object_store::Objects;

// The kind of a commit's object that has no address of a value.
const CHANGE: u8 = 3;

// How many bytes stand in a commit's object between the kind and the count of its parents: the length of the body.
const LENGTH: usize = 8;

// How many parents a commit has at the most, and how many bytes the address of one has.
const MOST_PARENTS: u64 = 9;

const ADDRESS: usize = 32;

// How many bytes stand between the parents and the address of the value: the origin and the clock.
const NUMBERS: usize = 12;

/// The address of a commit's value, where it has one, out of the commit's object.
pub fn address_of_value(commit: &[u8]) -> Result<Option<[u8; 32]>, Short>
    ensures { (c : CommitFields) → AreSized c → commit.now ≡ commit_object c
        → IsOkAnd result (λ address. address ≡ c.value) }
{
    let mut cursor = Cursor::new(commit);
    let kind = cursor.take_u8()?;
    if kind == CHANGE {
        return Ok(None);
    }
    cursor.take_exact(LENGTH)?;
    let parents = cursor.take_u64()?;
    if parents > MOST_PARENTS {
        return Err(Short);
    }
    cursor.take_exact(ADDRESS * parents as usize + NUMBERS)?;
    let mut address = [0; 32];
    address.copy_from_slice(cursor.take_exact(ADDRESS)?);
    Ok(Some(address))
}

/// The first objects in a layout, which are those of commit 0. They may have one address.
pub(crate) fn first_item<A: Address>(objects: &Objects<A>, layout: Layout) -> Option<(&[u8], &[u8])>
    ensures { (spelling commit : List ℕ) (more : Stored)
        → objects.now.stored ++ objects.now.staged
        ≡ both (record { value = kept_value layout spelling; commit = commit }) ++ more
        → lent_item result
        ≡ Some (record { value = kept_value layout spelling; commit = commit }) }
{
    match layout {
        Layout::Whole => Some((objects.object(0)?, objects.object(1)?)),
        Layout::Changes => Some((&[], objects.object(0)?)),
    }
}

/// The objects of the commit whose own has this address, where each is the first with its address.
pub(crate) fn item_at<'a, A: Address>(
    objects: &'a Objects<A>,
    address: &[u8; 32],
) -> Option<(&'a [u8], &'a [u8])>
    ensures { (value : List ℕ) (c : CommitFields) → AreSized c
        → first_with A.address address.now (objects.now.stored ++ objects.now.staged)
        ≡ Some (commit_object c)
        → FindsValue A.address (objects.now.stored ++ objects.now.staged) c.value value
        → lent_item result ≡ Some (record { value = value; commit = commit_object c }) }
{
    let commit = objects.get(address)?;
    let Ok(found) = address_of_value(commit) else {
        return None;
    };
    let value = match &found {
        Some(address) => objects.get(address)?,
        None => &[],
    };
    Some((value, commit))
}
