// Receiving the commit of another store anew, and comparing its move with its record and its region.
ghost use Rattle.std.specs.Prelude.{◌≡◌, [], IfOk};
ghost use Rattle.branch_wire.specs.Reading.{HasLength64};
ghost use Rattle.branch_machine.specs.Fixed.{fix};
ghost use Rattle.commit_replay.specs.Parts.{IsDoneIn};
ghost use Rattle.commit_replay.specs.Walk.{IsTaken, IsReceivedIn};

use crate::parts::Parts;
use crate::remake::keep_if_same;
use branch_address::Address;
use heads_journal::Record;
use mrdt_model::{Memory, Mrdt};
use recorded_history::{Arrived, ReceiveRefused, Recorded};
use std::alloc::Global;

// Receives the commit whose objects the bytes are, where its move has this record and this region. The object of its
// value, where the layout keeps it, stands before its own, or was stored already.
pub fn receive<T: Mrdt, A: Address>(
    alloc: Global,
    recorded: &mut Recorded<T, A>,
    parts: &Parts,
    next: &Record,
    bytes: &[u8],
) -> Result<bool, Memory>
    requires settled { recorded.old.pending ≡ [] }
    requires parts { IsDoneIn recorded.old.terms.layout bytes.now parts.now }
    ensures { IfOk result
        (IsReceivedIn (fix T.meaning recorded.old.terms A.address) recorded.old recorded.new
        parts.now next.now bytes.now) }
{
    let value = &bytes[..parts.place];
    let commit = &bytes[parts.place..];
    match &parts.value {
        Some(_) => take(recorded, value, commit, next, bytes),
        None => match &parts.address {
            Some(address) => {
                let Some(stored) = recorded.object(address) else {
                    return Ok(false);
                };
                let stored = Vec::from_slice(alloc, stored)?;
                take(recorded, &stored, commit, next, bytes)
            }
            None => take(recorded, value, commit, next, bytes),
        },
    }
}

// Receives an item, where its move has this record and this region.
fn take<T: Mrdt, A: Address>(
    recorded: &mut Recorded<T, A>,
    value: &[u8],
    commit: &[u8],
    next: &Record,
    bytes: &[u8],
) -> Result<bool, Memory>
    requires settled { recorded.old.pending ≡ [] }
    ensures { IfOk result
        (IsTaken (fix T.meaning recorded.old.terms A.address) recorded.old recorded.new
        (record { value = value.now; commit = commit.now }) next.now bytes.now) }
{
    let _length = counted(commit);
    // It is a valid history: its count tells the proof so.
    let _before = recorded.moves();
    match recorded.receive(value, commit) {
        Ok(Arrived::New { record: own, .. }) => {
            let _moves = recorded.moves();
            Ok(keep_if_same(recorded, &own, next, bytes))
        }
        Ok(Arrived::Here { .. }) => Ok(false),
        Err(ReceiveRefused::Memory) => Err(Memory),
        Err(ReceiveRefused::BadBundle) => Ok(false),
        Err(ReceiveRefused::OwnOrigin) => Ok(false),
        Err(ReceiveRefused::TimeClash { .. }) => Ok(false),
        Err(ReceiveRefused::Exhausted { .. }) => Ok(false),
        Err(ReceiveRefused::ValueTooLarge { .. }) => Ok(false),
        Err(ReceiveRefused::FullCommits { .. }) => Ok(false),
        Err(ReceiveRefused::FullMoves { .. }) => Ok(false),
        Err(ReceiveRefused::Collision { .. }) => Ok(false),
    }
}

// How many bytes there are, which are fewer than 2^64.
fn counted(bytes: &[u8]) -> usize
    ensures { HasLength64 bytes.now }
{
    bytes.len()
}
