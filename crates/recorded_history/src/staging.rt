// The objects and the record of a work that is ready to land.
ghost use Rattle.std.specs.Prelude.{◌≡◌, ◌<◌, All, [], ◌∷◌, length, map, slice_index_or, IfOk, IfErr, IfSome, OnErr};
ghost use mathlib.Core.List.{IsPrefix};
ghost use Rattle.branch_files.specs.Records.{record_with};
ghost use Rattle.branch_history.specs.History.{store_of};
ghost use Rattle.branch_machine.specs.Fixed.{fix};
ghost use Rattle.store_seen.specs.Turns.{MayLand, move_of};
ghost use Rattle.recorded_history.specs.Addresses.{IsValueAddress};
ghost use Rattle.recorded_history.specs.Keeps.{IsLaidOut, IsStaged};
ghost use Rattle.recorded_history.specs.Refusals.{LandRefusedAs};

use crate::answers::LandRefused;
use branch_address::Address;
use branch_wire::{Action, push_address};
use heads_journal::{Joined, Record};
use mrdt_model::{Bytes, Listing, Memory, Mrdt};
use object_store::Objects;
use std::alloc::Global;
use store_seen::{Prepared, Versions, Written};

/// Stages the objects of what may land behind those of the history, and says the address of the commit that it makes,
/// if it makes one. The address of its value's object may be known.
pub(crate) fn stage<T: Mrdt, A: Address>(
    alloc: Global,
    versions: &Versions<T>,
    objects: &mut Objects<A>,
    prepared: &Prepared<T>,
    known: Option<[u8; 32]>,
) -> Result<[u8; 32], LandRefused>
    requires history { IsPrefix prepared.now.seen.history versions.now.core.history }
    requires terms { prepared.now.seen.terms ≡ versions.now.core.terms }
    requires may { MayLand T.meaning prepared.now versions.now.core }
    requires known { IfSome known (IsValueAddress T.meaning A.address prepared.now) }
    requires laid_out { IsLaidOut T.meaning A.address versions.now objects.old }
    ensures staged { IfOk result
        (IsStaged (fix T.meaning versions.now.core.terms A.address) versions.now.core.history
        prepared.now.work (move_of prepared.now.seen.branch prepared.now.work) objects.old
        objects.new) }
    ensures refused { IfErr result
        (LandRefusedAs (fix T.meaning versions.now.core.terms A.address) prepared.now
        versions.now.core.history) }
    ensures kept { OnErr result (objects.new ≡ objects.old) }
{
    let (origin, head) = (prepared.origin(), prepared.head());
    let _branch = prepared.branch();
    match prepared.written() {
        Written::Operation {
            clock,
            value,
            op,
            reply,
            ..
        } => {
            let mut parent = Vec::new(alloc);
            push_address(*versions.address(head), &mut parent)?;
            let action = Action::Operation {
                op: Bytes::from_slice(alloc, op)?,
                reply: Bytes::from_slice(alloc, reply)?,
            };
            Ok(objects.stage(
                value,
                known,
                Listing::from_vec(parent),
                origin,
                clock,
                action,
            )?)
        }
        Written::Merge {
            other,
            clock,
            value,
            ..
        } => {
            let mut parents = Vec::new(alloc);
            push_address(*versions.address(head), &mut parents)?;
            push_address(*versions.address(other), &mut parents)?;
            let parents = Listing::from_vec(parents);
            Ok(objects.stage(value, known, parents, origin, clock, Action::Merge)?)
        }
        Written::Join {
            others,
            clock,
            value,
            ..
        } => {
            let parents = addresses(alloc, versions, head, others)?;
            let parents = Listing::from_vec(parents);
            Ok(objects.stage(value, known, parents, origin, clock, Action::Merge)?)
        }
        // It makes no commit.
        Written::Forward { .. } => Ok([0; 32]),
    }
}

// The addresses of a head and of the commits that are joined to it.
fn addresses<T: Mrdt>(
    alloc: Global,
    versions: &Versions<T>,
    head: u32,
    others: &[u32],
) -> Result<Vec<[u8; 32]>, Memory>
    requires head { head
        < length (store_of versions.now.core.terms.origin versions.now.core.history).commits }
    requires others { All (λ n.
        n < length (store_of versions.now.core.terms.origin versions.now.core.history).commits)
        others.now }
    ensures { IfOk result (λ found.
        found.items ≡ map (λ n. slice_index_or versions.now.addresses n []) (head ∷ others.now)) }
{
    let mut found = Vec::new(alloc);
    push_address(*versions.address(head), &mut found)?;
    for other in others {
        push_address(*versions.address(*other), &mut found)?;
    }
    Ok(found)
}

/// The record of a work, given the address of its commit and where the objects end behind it.
pub(crate) fn record_for<T: Mrdt>(prepared: &Prepared<T>, address: [u8; 32], end: u64) -> Record
    ensures { result
        ≡ record_with address end (move_of prepared.now.seen.branch prepared.now.work) }
{
    let branch = prepared.branch();
    match prepared.written() {
        Written::Operation { .. } => Record::Operation {
            branch,
            address,
            end,
        },
        Written::Merge { other, .. } => Record::Merge {
            branch,
            from: other,
            address,
            end,
        },
        Written::Join { others, .. } => match Joined::new(others) {
            Some(joined) => Record::Join {
                branch,
                joined,
                end,
            },
            None => unreachable!(),
        },
        Written::Forward { other } => Record::Forward {
            branch,
            to: other,
            end,
        },
    }
}
