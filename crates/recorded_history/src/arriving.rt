// The commit of an item, made anew on commits that are here.
ghost use Rattle.std.specs.Prelude.{◌≡◌, ◌↔◌, ◌++◌, None, IfOk, IfErr, IfSome, IsErrOf, IsTrue, List, OnErr, OnOk, ℕ};
ghost use Rattle.std.specs.Option.{option_copied};
ghost use Rattle.branch_wire.specs.Objects.{CommitFields, commit_object, value_object};
ghost use Rattle.branch_wire.specs.Reading.{HasLength64};
ghost use Rattle.branch_wire.specs.StoredObjects.{collision, fresh};
ghost use Rattle.branch_objects_codec.specs.Grammar.{IsCommit};
ghost use Rattle.branch_history.specs.Steps.{Step};
ghost use Rattle.branch_machine.specs.Fixed.{fix};
ghost use Rattle.branch_machine.specs.Objects.{both};
ghost use Rattle.branch_machine.specs.Validity.{IsFullyValid, IsItem};
ghost use Rattle.object_store.specs.Commits.{value_of, value_address_of};
ghost use Rattle.object_store.specs.Refusals.{RefusesToStage};
ghost use Rattle.store_seen.specs.Arrivals.{core_then};
ghost use Rattle.recorded_history.specs.Asks.{fields_in, item_with, HaveAddresses, IsAsked, Replies, IsTold, IsAddressed, value_spelling};

use branch_address::Address;
use branch_objects_codec::{Object, put_value};
use branch_wire::Action;
use mrdt_model::{Listing, Memory, Mrdt, Unread};
use object_store::{Objects, StageRefused};
use std::alloc::Global;
use store_seen::{Arrival, RemakeRefused, Versions, WrittenArrival};

/// What a commit's object says: the addresses of its parents, its origin and clock, the address of its value, where it has
/// one, and what it does.
#[derive(Drop)]
pub(crate) struct Fields {
    pub parents: Listing<[u8; 32]>,
    pub origin: u32,
    pub clock: u64,
    pub value: Option<[u8; 32]>,
    pub action: Action,
}

/// The fields of the commit whose object is the whole of the bytes. `NotCanonical` comes exactly where they are the
/// object of none.
pub(crate) fn fields_of(alloc: Global, commit: &[u8]) -> Result<Fields, Unread>
    ensures known { IfOk result (λ fields. IsCommit (fields_in fields)) }
    ensures spelled { IfOk result (λ fields. commit.now ≡ commit_object (fields_in fields)) }
    ensures none { IsErrOf result Unread.NotCanonical → (c : CommitFields) → IsCommit c
        → commit.now ≡ commit_object c → ⊥ }
    ensures short { HasLength64 commit.now }
{
    let _length = commit.len();
    match Object::get(alloc, commit) {
        Ok(
            Object::Commit {
                parents,
                branch,
                clock,
                value,
                action,
            },
        ) => Ok(Fields {
            parents,
            origin: branch,
            clock,
            value,
            action,
        }),
        Ok(Object::Value(_)) => Err(Unread::NotCanonical),
        Err(refused) => Err(refused),
    }
}

// The commits that have these addresses; `None` exactly where none has one of them.
fn parents_of<T: Mrdt, A: Address>(
    alloc: Global,
    versions: &Versions<T>,
    addresses: &[[u8; 32]],
) -> Result<Option<Vec<u32>>, Memory>
    requires { IsAddressed T.meaning A.address versions.now }
    ensures found { IfOk result (λ found. IfSome found (λ commits.
        HaveAddresses (fix T.meaning versions.now.core.terms A.address) versions.now.core.history
        addresses.now commits.items)) }
    ensures none { IfOk result (λ found. found ≡ None → (commits : List ℕ)
        → HaveAddresses (fix T.meaning versions.now.core.terms A.address) versions.now.core.history
        addresses.now commits → ⊥) }
{
    let mut parents = Vec::new(alloc);
    for address in addresses {
        let Some(parent) = versions.commit_at(address) else {
            return Ok(None);
        };
        parents.push(parent)?;
    }
    Ok(Some(parents))
}

// Makes anew the commit that the fields ask for. `NotCanonical` comes exactly where no step of the machine receives one.
fn remade<T: Mrdt, A: Address>(
    alloc: Global,
    versions: &mut Versions<T>,
    fields: &Fields,
) -> Result<Arrival<T>, Unread>
    requires addressed { IsAddressed T.meaning A.address versions.old }
    requires known { IsCommit (fields_in fields.now) }
    ensures made { IfOk result (λ made. core_then made ≡ versions.old.core) }
    ensures asked { IfOk result (λ made. IsAsked
        (fix T.meaning versions.old.core.terms A.address) versions.old.core.history
        (fields_in fields.now) made.step) }
    ensures none { IsErrOf result Unread.NotCanonical → (step : Step T.Op T.Query)
        → IsAsked (fix T.meaning versions.old.core.terms A.address) versions.old.core.history
        (fields_in fields.now) step → ⊥ }
    ensures same { versions.new ≡ versions.old }
{
    let Some(parents) = parents_of::<T, A>(alloc, versions, fields.parents.as_slice())? else {
        return Err(Unread::NotCanonical);
    };
    match &fields.action {
        Action::Root => Err(Unread::NotCanonical),
        Action::Operation { op, .. } => {
            let op = T::get_op(alloc, op.as_slice())?;
            Ok(versions.remake_operation(fields.origin, parents[0], op)?)
        }
        Action::Merge => match versions.remake_merge(fields.origin, &parents) {
            Ok(made) => Ok(made),
            Err(RemakeRefused::NotApart) => Err(Unread::NotCanonical),
            Err(RemakeRefused::Memory) => Err(Unread::Memory),
        },
    }
}

// Whether what is done is an operation with this reply.
fn has_reply(action: &Action, given: &[u8]) -> bool
    ensures { IsTrue result ↔ Replies action.now given.now }
{
    match action {
        Action::Operation { reply, .. } => reply.as_slice() == given,
        Action::Root => false,
        Action::Merge => false,
    }
}

// Whether bytes are the object of the value with this spelling, and have this address.
fn is_value<A: Address>(
    alloc: Global,
    spelling: &[u8],
    value: &[u8],
    address: &[u8; 32],
) -> Result<bool, Memory>
    ensures { IfOk result (λ is. IsTrue is
        ↔ (value.now ≡ value_object spelling.now) × (address.now ≡ A.address value.now)) }
{
    let mut object = Vec::new(alloc);
    put_value(spelling, &mut object)?;
    Ok(object.as_slice() == value && *address == A::of(value))
}

// Whether bytes are the object of the value with this spelling, and have this address; without a spelling, whether there
// are no bytes and no address.
fn is_kept_value<A: Address>(
    alloc: Global,
    spelling: Option<&[u8]>,
    value: &[u8],
    address: &Option<[u8; 32]>,
) -> Result<bool, Memory>
    ensures { IfOk result (λ is. IsTrue is
        ↔ (value.now ≡ value_of (option_copied spelling.entry))
        × (address.now ≡ value_address_of A.address (option_copied spelling.entry))) }
{
    match (spelling, address) {
        (Some(spelling), Some(address)) => is_value::<A>(alloc, spelling, value, address),
        (None, None) => Ok(value.is_empty()),
        (Some(_), None) => Ok(false),
        (None, Some(_)) => Ok(false),
    }
}

// Whether an item has the objects of what was made anew of its fields.
fn is_told<A: Address>(
    alloc: Global,
    made: WrittenArrival<'_>,
    value: &[u8],
    fields: &Fields,
) -> Result<bool, Memory>
    ensures { IfOk result (λ told. IsTrue told
        ↔ IsTold A.address value.now (fields_in fields.now) made.entry) }
{
    match made {
        WrittenArrival::Operation {
            clock,
            value: spelling,
            reply,
            ..
        } => Ok(
            is_kept_value::<A>(alloc, spelling, value, &fields.value)?
                && fields.clock == clock
                && has_reply(&fields.action, reply),
        ),
        WrittenArrival::Merge {
            clock,
            value: spelling,
            ..
        } => Ok(
            is_kept_value::<A>(alloc, spelling, value, &fields.value)? && fields.clock == clock,
        ),
    }
}

/// The commit of an item, made anew on commits that are here. `NotCanonical` comes exactly where no step of the machine
/// receives the item.
pub(crate) fn arrival_of<T: Mrdt, A: Address>(
    alloc: Global,
    versions: &mut Versions<T>,
    value: &[u8],
    fields: &Fields,
) -> Result<Arrival<T>, Unread>
    requires addressed { IsAddressed T.meaning A.address versions.old }
    requires known { IsCommit (fields_in fields.now) }
    ensures made { IfOk result (λ made. core_then made ≡ versions.old.core) }
    ensures item { IfOk result (λ made. IsItem
        (fix T.meaning versions.old.core.terms A.address) versions.old.core.history made.step
        (item_with value.now (fields_in fields.now))) }
    ensures none { IsErrOf result Unread.NotCanonical → (step : Step T.Op T.Query)
        → IsItem (fix T.meaning versions.old.core.terms A.address) versions.old.core.history step
        (item_with value.now (fields_in fields.now)) → ⊥ }
    ensures same { versions.new ≡ versions.old }
{
    // It is a valid history: its count tells the proof so.
    let _moves = versions.moves();
    let made = remade::<T, A>(alloc, versions, fields)?;
    if is_told::<A>(alloc, made.written(), value, fields)? {
        Ok(made)
    } else {
        Err(Unread::NotCanonical)
    }
}

// The spelling of the value of what was made anew, where the layout keeps it.
fn spelling_of(made: WrittenArrival<'_>) -> Option<&[u8]>
    ensures { option_copied result ≡ value_spelling made.entry }
{
    match made {
        WrittenArrival::Operation { value, .. } => value,
        WrittenArrival::Merge { value, .. } => value,
    }
}

/// Stages the objects of an item behind what is staged already, and says the address of its commit's.
pub(crate) fn stage_item<T: Mrdt, A: Address>(
    objects: &mut Objects<A>,
    made: &Arrival<T>,
    value: &[u8],
    fields: Fields,
) -> Result<[u8; 32], StageRefused>
    requires known { IsCommit (fields_in fields) }
    requires valid { IsFullyValid (fix T.meaning made.now.terms A.address) made.now.history }
    requires item { IsItem (fix T.meaning made.now.terms A.address) made.now.history made.now.step
        (item_with value.now (fields_in fields)) }
    ensures stored { OnOk result (objects.new.stored ≡ objects.old.stored) }
    ensures added { OnOk result (objects.new.staged ≡ objects.old.staged
        ++ fresh (objects.old.stored ++ objects.old.staged)
        (both (item_with value.now (fields_in fields)))) }
    ensures address { IfOk result (λ address.
        address ≡ A.address (commit_object (fields_in fields))) }
    ensures free { OnOk result (collision A.address (objects.old.stored ++ objects.old.staged)
        (both (item_with value.now (fields_in fields))) ≡ None) }
    ensures collides { IfErr result (RefusesToStage A.address
        (objects.old.stored ++ objects.old.staged)
        (both (item_with value.now (fields_in fields)))) }
    ensures held { OnErr result (objects.new ≡ objects.old) }
{
    let _value = value;
    let spelling = spelling_of(made.written());
    let Fields {
        parents,
        origin,
        clock,
        value: address,
        action,
    } = fields;
    objects.stage(spelling, address, parents, origin, clock, action)
}
