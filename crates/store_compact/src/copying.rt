// The objects of the live commits, copied.
ghost use Rattle.std.specs.Prelude.{◌≡◌, ◌<◌, ◌++◌, ◌∷◌, [], length, IfOk, OnOk};
ghost use Rattle.std.specs.List.{concat};
ghost use Rattle.branch_machine.specs.Fixed.{fix};
ghost use Rattle.branch_machine.specs.Objects.{commit_text, pairs_of, value_text};
ghost use Rattle.branch_machine.specs.Validity.{IsFullyValid};
ghost use Rattle.branch_history.specs.History.{store_of};
ghost use Rattle.branch_wire.specs.StoredObjects.{file_of, fresh, header};
ghost use Rattle.branch_compact.specs.Compact.{at_places};
ghost use Rattle.branch_compact.specs.Marks.{is_marked};
ghost use Rattle.store_compact.specs.Copied.{added, kept_unless, listed, objects_in, pair_of, placed_of, unless_known, value_address};

use address_keys::AddressKey;
use branch_address::Address;
use branch_wire::{VERSION, put_u32};
use indexmap::IndexSet;
use mrdt_model::{Memory, Mrdt};
use recorded_history::{Recorded, address_of_value};
use std::alloc::Global;

const LETTERS: &[u8] = b"MRDTOBJS";

// The address of a commit, and where the objects end behind it.
#[derive(Clone, Copy, Debug, PartialEq, Eq)]
pub(crate) struct Placed {
    pub(crate) address: [u8; 32],
    pub(crate) end: u64,
}

// The file of the objects of some commits, and where each of them stands.
#[derive(Drop)]
pub(crate) struct Copies {
    pub(crate) text: Vec<u8>,
    pub(crate) placed: Vec<Placed>,
}

// The header of the file.
fn header_text(alloc: Global) -> Result<Vec<u8>, Memory>
    ensures { IfOk result (λ text. text.items ≡ header) }
{
    let mut text = Vec::from_slice(alloc, LETTERS)?;
    put_u32(VERSION, &mut text)?;
    put_u32(0, &mut text)?;
    Ok(text)
}

// Copies the object of a value behind those of the file, if its address is not known yet.
fn copy_value(
    value: &[u8],
    address: AddressKey,
    known: &mut IndexSet<AddressKey>,
    text: &mut Vec<u8>,
) -> Result<(), Memory>
    ensures known { OnOk result (known.new.keys
        ≡ known.old.keys ++ fresh known.old.keys (address ∷ [])) }
    ensures copied { OnOk result (text.new.items
        ≡ text.old.items ++ concat (unless_known known.old.keys address value.now)) }
{
    if known.insert(address)? {
        text.extend_from_slice(value)?;
    }
    Ok(())
}

// The same of the object of a value that the layout keeps, with its address. Without one there is none.
fn copy_kept(
    value: &[u8],
    address: Option<[u8; 32]>,
    known: &mut IndexSet<AddressKey>,
    text: &mut Vec<u8>,
) -> Result<(), Memory>
    ensures known { OnOk result (known.new.keys
        ≡ known.old.keys ++ fresh known.old.keys (listed address)) }
    ensures copied { OnOk result (text.new.items
        ≡ text.old.items ++ concat (kept_unless known.old.keys address value.now)) }
{
    match address {
        Some(address) => copy_value(value, AddressKey::new(address), known, text),
        None => Ok(()),
    }
}

// Copies the objects of a commit, that of its value, where it has one, if its address is not known yet, and notes where
// it stands.
fn copy_commit<T: Mrdt, A: Address>(
    recorded: &Recorded<T, A>,
    number: u32,
    known: &mut IndexSet<AddressKey>,
    copies: &mut Copies,
) -> Result<(), Memory>
    requires settled { recorded.now.pending ≡ [] }
    requires valid { IsFullyValid (fix T.meaning recorded.now.terms A.address)
        recorded.now.written }
    requires there { number
        < length (store_of recorded.now.terms.origin recorded.now.written).commits }
    ensures known { let fixed = fix T.meaning recorded.now.terms A.address in
        let pairs = pairs_of fixed
        (store_of recorded.now.terms.origin recorded.now.written).commits in
        OnOk result (known.new.keys ≡ known.old.keys
        ++ fresh known.old.keys (listed (value_address A.address (value_text pairs number)))) }
    ensures copied { let fixed = fix T.meaning recorded.now.terms A.address in
        let pairs = pairs_of fixed
        (store_of recorded.now.terms.origin recorded.now.written).commits in
        OnOk result (copies.new.text.items ≡ copies.old.text.items
        ++ concat (added A.address known.old.keys (pair_of pairs number))) }
    ensures placed { let fixed = fix T.meaning recorded.now.terms A.address in
        let pairs = pairs_of fixed
        (store_of recorded.now.terms.origin recorded.now.written).commits in
        OnOk result (copies.new.placed.items ≡ copies.old.placed.items ++ record {
          address = A.address (commit_text pairs number);
          end = length copies.new.text.items;
        } ∷ []) }
{
    let Some((value, commit)) = recorded.item(number) else {
        unreachable!()
    };
    let Some(address) = recorded.address(number) else {
        unreachable!()
    };
    let Ok(its_value) = address_of_value(commit) else {
        unreachable!()
    };
    copy_kept(value, its_value, known, &mut copies.text)?;
    copies.text.extend_from_slice(commit)?;
    let end = copies.text.len() as u64;
    copies.placed.push(Placed { address, end })?;
    Ok(())
}

// Copies the objects of the commits that are marked, each once: no two commits have equal objects, and those of values
// are told by their addresses.
pub(crate) fn copy_marked<T: Mrdt, A: Address>(
    alloc: Global,
    recorded: &Recorded<T, A>,
    marks: &[bool],
) -> Result<Copies, Memory>
    requires settled { recorded.now.pending ≡ [] }
    requires valid { IsFullyValid (fix T.meaning recorded.now.terms A.address)
        recorded.now.written }
    requires count { length marks.now
        ≡ length (store_of recorded.now.terms.origin recorded.now.written).commits }
    ensures text { let fixed = fix T.meaning recorded.now.terms A.address in
        let pairs = pairs_of fixed
        (store_of recorded.now.terms.origin recorded.now.written).commits in
        IfOk result (λ copies. copies.text.items
        ≡ file_of (objects_in (at_places (is_marked marks.now) 0 pairs))) }
    ensures placed { let fixed = fix T.meaning recorded.now.terms A.address in
        let pairs = pairs_of fixed
        (store_of recorded.now.terms.origin recorded.now.written).commits in
        IfOk result (λ copies. copies.placed.items
        ≡ placed_of A.address (at_places (is_marked marks.now) 0 pairs)) }
{
    let mut known = IndexSet::new(alloc);
    let text = header_text(alloc)?;
    let placed = Vec::new(alloc);
    let mut copies = Copies { text, placed };
    for number in 0..recorded.commits() {
        if marks[number as usize] {
            copy_commit(recorded, number, &mut known, &mut copies)?;
        }
    }
    Ok(copies)
}
