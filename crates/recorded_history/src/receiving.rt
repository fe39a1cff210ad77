// How a recorded history receives the commits of another store.
ghost use Rattle.std.specs.Prelude.{◌≡◌, ◌↔◌, ◌++◌, [], IfOk, IsErrOf, IsTrue};
ghost use Rattle.branch_machine.specs.Fixed.{fix};
ghost use Rattle.branch_machine.specs.Machine.{commit_at};
ghost use Rattle.recorded_history.specs.Receives.{ReceivesItem, ReceivesMore, HasItsRecord, HasLastRecord, item_answer};

use crate::arrivals::{Arrived, ReceiveRefused};
use crate::arriving::{arrival_of, fields_of, stage_item};
use crate::recorded::{Recorded, take_back};
use branch_address::Address;
use heads_journal::Record;
use mrdt_model::Mrdt;

impl<T: Mrdt, A: Address> Recorded<T, A> {
    /// Receives a commit of another store by the bytes of its value's object and of its own, in memory; then it is
    /// pending. In the layout that keeps no values the first are none. Nothing of them is trusted: the commit is made
    /// anew on its parents, which are those here with their addresses.
    ///
    /// Where it is here already, that is told, and nothing has changed. It is refused exactly as the machine refuses it,
    /// and then nothing has changed: `BadBundle` before `OwnOrigin` before `TimeClash` and `Exhausted`, which only an
    /// operation meets, before `ValueTooLarge` before `FullCommits` before `FullMoves` before `Collision`.
    pub fn receive(&mut self, value: &[u8], commit: &[u8]) -> Result<Arrived, ReceiveRefused>
        requires settled { self.old.pending ≡ [] }
        ensures receives { ReceivesItem (fix T.meaning self.old.terms A.address)
            (record { value = value.now; commit = commit.now }) self.old self.new
            (item_answer result) }
        ensures recorded { IfOk result
            (HasItsRecord (fix T.meaning self.old.terms A.address) self.new) }
    {
        self.receive_more(value, commit)
    }

    /// Receives a commit of another store, as `receive` does, behind the moves that are pending already; then it is
    /// pending too. Its parents may be commits of pending moves, and so may the commit that has its two objects already.
    /// It is refused exactly as the machine refuses it behind those moves, and then nothing has changed; but where memory
    /// is short, no move is pending any more.
    pub fn receive_more(&mut self, value: &[u8], commit: &[u8]) -> Result<Arrived, ReceiveRefused>
        ensures receives { ReceivesMore (fix T.meaning self.old.terms A.address)
            (record { value = value.now; commit = commit.now }) self.old self.new
            (item_answer result) }
        ensures recorded { IfOk result
            (HasLastRecord (fix T.meaning self.old.terms A.address) self.old self.new) }
        ensures short { IsErrOf result ReceiveRefused.Memory → self.new.pending ≡ [] }
    {
        match self.receive_behind(value, commit) {
            Ok(arrived) => Ok(arrived),
            Err(ReceiveRefused::Memory) => {
                self.undo();
                Err(ReceiveRefused::Memory)
            }
            Err(refused) => Err(refused),
        }
    }

    // The same; but where memory is short, it may be that all moves are pending that were, or none.
    fn receive_behind(&mut self, value: &[u8], commit: &[u8]) -> Result<Arrived, ReceiveRefused>
        ensures receives { ReceivesMore (fix T.meaning self.old.terms A.address)
            (record { value = value.now; commit = commit.now }) self.old self.new
            (item_answer result) }
        ensures recorded { IfOk result
            (HasLastRecord (fix T.meaning self.old.terms A.address) self.old self.new) }
    {
        if let Some(commit) = self.commit_of(value, commit) {
            return Ok(Arrived::Here { commit });
        }
        let fields = fields_of(self.alloc, commit)?;
        let made = arrival_of::<T, A>(self.alloc, &mut self.versions, value, &fields)?;
        self.versions.may_receive(&made)?;
        if self.stood.reserve(1).is_err() {
            return Err(ReceiveRefused::Memory);
        }
        let address = stage_item(&mut self.objects, &made, value, fields)?;
        let end = self.objects.end();
        let Ok(taken) = self.versions.receive(made, address) else {
            take_back(&self.settled, &mut self.versions, &mut self.stood);
            self.objects.drop_staged();
            return Err(ReceiveRefused::Memory);
        };
        // The longer history is valid: its count tells the proof so.
        let _moves = self.versions.moves();
        self.stood.push_reserved(0);
        Ok(Arrived::New {
            commit: taken.commit,
            moves: taken.moves,
            record: Record::Received { address, end },
        })
    }

    // The commit that has these two objects, those of pending moves counted; `None` exactly where none has them. It takes
    // no memory.
    fn commit_of(&self, value: &[u8], commit: &[u8]) -> Option<u32>
        ensures { result
            ≡ commit_at (fix T.meaning self.now.terms A.address)
            (self.now.written ++ self.now.pending)
            (record { value = value.now; commit = commit.now }) }
    {
        // It is a valid history: its count tells the proof so.
        let _moves = self.moves();
        let Some(number) = self.versions.commit_at(&A::of(commit)) else {
            return None;
        };
        match self.item_of(number) {
            Some((its_value, its_commit)) => {
                if are_objects(its_value, its_commit, value, commit) {
                    Some(number)
                } else {
                    None
                }
            }
            None => None,
        }
    }
}

// Whether the two objects of a commit are these.
fn are_objects(its_value: &[u8], its_commit: &[u8], value: &[u8], commit: &[u8]) -> bool
    ensures { IsTrue result ↔ (its_value.now ≡ value.now) × (its_commit.now ≡ commit.now) }
{
    its_value == value && its_commit == commit
}
