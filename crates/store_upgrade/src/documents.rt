// The upgrade of a store of documents.
ghost use Rattle.std.specs.Prelude.{◌≡◌, IfOk, IfErr, OnOk, Some};
ghost use Rattle.std.specs.Option.{option_map};
ghost use Rattle.branch_disk.specs.Disk.{Files, LeavesOnly};
ghost use Rattle.branch_renewal.specs.Renewed.{renewed as renewed_as, renewed_moves};
ghost use Rattle.mrdt_old_doc.specs.OldDocument.{renewed_op};
ghost use Rattle.store_core.specs.Inits.{IsEmpty};
ghost use Rattle.store_upgrade.specs.Upgrades.{Upgraded, UpgradeRefusedAs, HasCauseOfEither};

use crate::answers::UpgradeRefused;
use branch_address::Address;
use branch_disk::Disk;
use branch_doc::{DocOp, DocReply};
use branch_history::Move;
use branch_progress::Listener;
use branch_renewal::laws::{keeps_answers, keeps_turns};
use moves_again::make_again;
use mrdt_doc::Doc;
use mrdt_model::{Listing, Memory};
use mrdt_old_doc::{Doc1, OldDocOp, renewed, renews_documents};
use std::alloc::Global;
use store_core::read_old;

// What a received commit carries, with a renewed operation.
fn renewed_act(act: Option<(OldDocOp, DocReply)>) -> Option<(DocOp, DocReply)>
    ensures { result ≡ option_map (λ d. (renewed_op d.0, d.1)) act }
{
    match act {
        Some((op, reply)) => Some((renewed(op), reply)),
        None => None,
    }
}

// The move with a renewed operation.
fn renewed_move(made: Move<OldDocOp, DocReply>) -> Move<DocOp, DocReply>
    ensures { result ≡ renewed_as renewed_op made }
{
    match made {
        Move::Fork { name, number, from } => Move::Fork { name, number, from },
        Move::Operation { branch, op, reply } => Move::Operation {
            branch,
            op: renewed(op),
            reply,
        },
        Move::Merge { branch, commit } => Move::Merge { branch, commit },
        Move::Join { branch, commits } => Move::Join { branch, commits },
        Move::Forward { branch, commit } => Move::Forward { branch, commit },
        Move::Received {
            parents,
            origin,
            clock,
            act,
        } => Move::Received {
            parents,
            origin,
            clock,
            act: renewed_act(act),
        },
        Move::Place {
            name,
            number,
            commit,
        } => Move::Place {
            name,
            number,
            commit,
        },
        Move::Drop { branch } => Move::Drop { branch },
    }
}

// The moves with renewed operations.
fn renew_all(
    alloc: Global,
    moves: Listing<Move<OldDocOp, DocReply>>,
) -> Result<Listing<Move<DocOp, DocReply>>, Memory>
    ensures { IfOk result (λ made. made ≡ renewed_moves renewed_op moves) }
{
    let mut made = Vec::new(alloc);
    for old in moves.into_vec() {
        made.push(renewed_move(old))?;
    }
    Ok(Listing::from_vec(made))
}

/// Makes of the moves of a store of the first version of the files, with its limits, a store of today's on an empty second
/// disk, under the same terms: in the layout that keeps values, as each store of the first version does. The first disk is
/// synced and read, and nothing is written to it. Says how many moves there are, and hands the second disk back.
///
/// The five refusals of reading come exactly where the first disk reads so in the first version; then `NotEmpty`, exactly
/// where the second has a byte; then `Upgrade`, exactly where the machine refuses the move of that commit for what
/// its new value or a new object is, and the second disk then has the moves before it. At each moment each image of
/// the second, where it was empty in each, is no store or has some first ones of the moves.
///
/// The listener hears of each record of the first disk that was read back, and changes nothing.
pub fn upgrade<D: Disk + Drop, A: Address, L: Listener>(
    alloc: Global,
    first: &mut D,
    second: D,
    listener: &mut L,
) -> Result<(u64, D), (UpgradeRefused, D)>
    ensures upgraded { IfOk result (λ r. Upgraded D.Disk A.address first.old second r.0 r.1) }
    ensures refused { IfErr result (λ e.
        UpgradeRefusedAs D.Disk A.address first.old second e.1 e.0) }
    ensures sure { OnOk result
        ((c : Files) → D.may_leave first.new c → D.contents first.old ≡ Some c) }
    ensures same { D.contents first.new ≡ D.contents first.old }
    ensures any_moment { let images = D.may_leave first.old in
        LeavesOnly D.moment D.left_since first.old first.new images }
    ensures kept { IfErr result (λ e. (f : Files) → D.contents second ≡ Some f → ¬ IsEmpty f
        → LeavesOnly D.moment D.left_since second e.1 (D.may_leave second)) }
    ensures no_cause { IfOk result (λ r.
        (D.faults first.new ≡ D.faults first.old) × (D.faults r.1 ≡ D.faults second)) }
    ensures cause { let before = D.faults first.old in
        IfErr result (λ e. HasCauseOfEither before (D.faults first.new)
        (D.faults second) (D.faults e.1) e.0) }
{
    renews_documents();
    keeps_turns::<Doc1, Doc>();
    keeps_answers::<Doc1, Doc>();
    let (terms, moves) = match read_old::<Doc1, D, A, L>(alloc, first, listener) {
        Ok(read) => read,
        Err(refused) => return Err((UpgradeRefused::from(refused), second)),
    };
    let Ok(moves) = renew_all(alloc, moves) else {
        return Err((UpgradeRefused::Memory, second));
    };
    match make_again::<Doc, D, A>(alloc, second, terms, moves) {
        Ok(made) => Ok(made),
        Err((refused, second)) => Err((UpgradeRefused::from(refused), second)),
    }
}
