// The records of a history, spelled.
ghost use Rattle.std.specs.Prelude.{◌≡◌, ◌≤◌, length, IfOk};
ghost use Rattle.branch_machine.specs.Fixed.{fix};
ghost use Rattle.branch_machine.specs.Objects.{pairs_of};
ghost use Rattle.branch_history.specs.History.{store_of};
ghost use Rattle.branch_history.specs.Validity.{IsValid};
ghost use Rattle.branch_files.specs.Records.{record_with};
ghost use Rattle.store_core.specs.Contents.{closed_text};
ghost use Rattle.store_compact.specs.Copied.{placed_of};
ghost use Rattle.store_compact.specs.Spelled.{IsJoined};

use crate::copying::Placed;
use branch_address::Address;
use branch_compact::commits_made;
use branch_history::Move;
use branch_history::laws::keeps_limits;
use branch_names::Terms;
use heads_journal::{Joined, Record, put_header, put_record};
use mrdt_model::{Memory, Mrdt};
use std::alloc::Global;

// A gate that is closed.
const SHUT: u8 = 0;

// The record of a move behind which the newest commit stands so.
fn record_for<O, R>(made: &Move<O, R>, newest: Placed) -> Record
    requires { IsJoined made.now }
    ensures { result ≡ record_with newest.address newest.end made.now }
{
    let Placed { address, end } = newest;
    match made {
        Move::Fork { name, number, from } => Record::Fork {
            number: *number,
            from: *from,
            name: *name,
            end,
        },
        Move::Operation { branch, .. } => Record::Operation {
            branch: *branch,
            address,
            end,
        },
        Move::Merge { branch, commit } => Record::Merge {
            branch: *branch,
            from: *commit,
            address,
            end,
        },
        Move::Join { branch, commits } => match Joined::new(commits.as_slice()) {
            Some(joined) => Record::Join {
                branch: *branch,
                joined,
                end,
            },
            None => unreachable!(),
        },
        Move::Forward { branch, commit } => Record::Forward {
            branch: *branch,
            to: *commit,
            end,
        },
        Move::Received { .. } => Record::Received { address, end },
        Move::Place {
            name,
            number,
            commit,
        } => Record::Place {
            number: *number,
            commit: *commit,
            name: *name,
            end,
        },
        Move::Drop { branch } => Record::Drop {
            branch: *branch,
            end,
        },
    }
}

// The heads file of a valid history, all gates open and a closed one behind them, given where each commit stands.
pub(crate) fn spell_heads<T: Mrdt, A: Address>(
    alloc: Global,
    terms: Terms,
    moves: &[Move<T::Op, T::Reply>],
    placed: &[Placed],
) -> Result<Vec<u8>, Memory>
    requires valid { IsValid T.meaning terms moves.now }
    requires placed { placed.now ≡ placed_of A.address
        (pairs_of (fix T.meaning terms A.address) (store_of terms.origin moves.now).commits) }
    ensures { IfOk result (λ text.
        text.items ≡ closed_text (fix T.meaning terms A.address) moves.now) }
{
    keeps_limits::<T>();
    let mut text = Vec::new(alloc);
    put_header(&terms, &mut text)?;
    let mut commits: usize = 1;
    for made in moves {
        commits += commits_made(made) as usize;
        let newest = placed[commits - 1];
        put_record(&record_for(made, newest), &mut text)?;
    }
    text.push(SHUT)?;
    Ok(text)
}
