// The objects of one commit, as they are read.
ghost use Rattle.std.specs.Prelude.{◌≡◌, ◌↔◌, List, ℕ, length, IfOk, IsErrOf, IsTrue};
ghost use Rattle.std.specs.declared.option.Option.{Option as SpecOption};
ghost use Rattle.std.specs.declared.option.Option.TheVariants.{Some};
ghost use Rattle.branch_names.specs.declared.layout.Layout.TheVariants.{Whole};
ghost use Rattle.branch_wire.specs.Objects.{CommitFields, commit_object};
ghost use Rattle.branch_objects_codec.specs.Grammar.{IsCommit};
ghost use Rattle.branch_files.specs.Next.{IsLaidOut};
ghost use Rattle.commit_replay.specs.Parts.{AreParts, IsDoneIn};

use branch_names::Layout;
use branch_objects_codec::{Action, Object};
use branch_wire::Cursor;
use mrdt_model::{Bytes, Unread};
use std::alloc::Global;

// The spelling of a commit's value, where its object stands there, where the commit's own begins, how many parents the
// commit has, the address of its value, where its layout keeps one, and what it does.
#[derive(Drop)]
pub struct Parts {
    pub value: Option<Bytes>,
    pub place: usize,
    pub parents: usize,
    pub address: Option<[u8; 32]>,
    pub action: Action,
}

// The parts that the bytes are in a layout, and no more. `NotCanonical` comes exactly where they are none.
pub fn parted(alloc: Global, layout: Layout, bytes: &[u8]) -> Result<Parts, Unread>
    ensures parts { IfOk result (IsDoneIn layout bytes.now) }
    ensures none { IsErrOf result Unread.NotCanonical
        → (value : SpecOption (List ℕ)) (c : CommitFields) → AreParts layout bytes.now value c → ⊥ }
{
    let mut cursor = Cursor::new(bytes);
    match Object::take(alloc, &mut cursor) {
        Ok(
            Object::Commit {
                parents,
                value,
                action,
                ..
            },
        ) => {
            if cursor.is_at_end() && is_laid_out(layout, &value) {
                Ok(Parts {
                    value: None,
                    place: 0,
                    parents: parents.as_slice().len(),
                    address: value,
                    action,
                })
            } else {
                Err(Unread::NotCanonical)
            }
        }
        Ok(Object::Value(value)) => match layout {
            Layout::Whole => {
                let rest = cursor.take_rest();
                behind(alloc, value, bytes.len() - rest.len(), rest)
            }
            Layout::Changes => Err(Unread::NotCanonical),
        },
        Err(refused) => Err(refused),
    }
}

// Whether a commit of the layout may have this address of its value, or none.
fn is_laid_out(layout: Layout, address: &Option<[u8; 32]>) -> bool
    ensures { IsTrue result ↔ IsLaidOut layout address.now }
{
    match layout {
        Layout::Whole => address.is_some(),
        Layout::Changes => address.is_none(),
    }
}

// A value's spelling, and the rest of the parts of the commit with the address of its value whose object is the whole of
// the bytes, and begins there.
fn behind(alloc: Global, value: Bytes, place: usize, bytes: &[u8]) -> Result<Parts, Unread>
    ensures commit { IfOk result (λ parts. (c : CommitFields) × (c.action ≡ parts.action)
        × (length c.parents ≡ parts.parents) × (c.value ≡ parts.address) × IsCommit c
        × IsLaidOut Whole c.value × (bytes.now ≡ commit_object c)) }
    ensures value { IfOk result (λ parts. (parts.value ≡ Some value) × (parts.place ≡ place)) }
    ensures none { IsErrOf result Unread.NotCanonical → (c : CommitFields) → IsCommit c
        → IsLaidOut Whole c.value → bytes.now ≡ commit_object c → ⊥ }
{
    match Object::get(alloc, bytes) {
        Ok(
            Object::Commit {
                parents,
                value: address,
                action,
                ..
            },
        ) => {
            if is_laid_out(Layout::Whole, &address) {
                Ok(Parts {
                    value: Some(value),
                    place,
                    parents: parents.as_slice().len(),
                    address,
                    action,
                })
            } else {
                Err(Unread::NotCanonical)
            }
        }
        Ok(Object::Value(_)) => Err(Unread::NotCanonical),
        Err(refused) => Err(refused),
    }
}
