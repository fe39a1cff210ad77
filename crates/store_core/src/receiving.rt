// How a core receives the items of a bundle.
ghost use Rattle.std.specs.Prelude.{◌≡◌, IfErr};
ghost use Rattle.branch_bundle.specs.Held.{pair_of};
ghost use Rattle.store_core.specs.Receiving.{item_refused, receive_answer, NamesItem, TakesItem};

use crate::answers::{Got, ReceiveRefused};
use crate::put::put;
use crate::store::Core;
use branch_address::Address;
use branch_bundle::Item;
use branch_disk::Disk;
use mrdt_model::Mrdt;
use recorded_history::Arrived;

// A refusal of the item with a number.
pub(crate) fn refused_at(item: u64, refused: recorded_history::ReceiveRefused) -> ReceiveRefused
    ensures { result ≡ item_refused item refused }
{
    match refused {
        recorded_history::ReceiveRefused::BadBundle => ReceiveRefused::BadBundle { item },
        recorded_history::ReceiveRefused::OwnOrigin => ReceiveRefused::OwnOrigin { item },
        recorded_history::ReceiveRefused::TimeClash { number } => {
            ReceiveRefused::TimeClash { item, number }
        }
        recorded_history::ReceiveRefused::Exhausted { clock } => {
            ReceiveRefused::Exhausted { clock }
        }
        recorded_history::ReceiveRefused::ValueTooLarge { length } => {
            ReceiveRefused::ValueTooLarge { length }
        }
        recorded_history::ReceiveRefused::FullCommits { count } => {
            ReceiveRefused::FullCommits { count }
        }
        recorded_history::ReceiveRefused::FullMoves { count } => {
            ReceiveRefused::FullMoves { count }
        }
        recorded_history::ReceiveRefused::Collision {
            address,
            stored,
            fresh,
        } => ReceiveRefused::Collision {
            address,
            stored,
            fresh,
        },
        recorded_history::ReceiveRefused::Memory => ReceiveRefused::Memory,
    }
}

impl<T: Mrdt, D: Disk + Drop, A: Address> Core<T, D, A> {
    /// Receives an item of a bundle: the commit of another store that has its two objects, or its own alone in the
    /// layout that keeps no values, in which that of the value is empty. Nothing of the item is trusted: the commit is
    /// made anew on its parents, which are those here with their addresses, and taken only where it has exactly these
    /// objects.
    ///
    /// Where it is here already, that is told without a device call, and nothing has changed. Else it is one move more,
    /// or refused exactly as the machine refuses it, and then nothing has changed: `Failed` before all else; `BadBundle`
    /// before `OwnOrigin` before `TimeClash` and `Exhausted`, which only an operation meets, before `ValueTooLarge`
    /// before `FullCommits` before `FullMoves` before `Collision`. At every moment a crash leaves the history before, or
    /// that with the move; after `New`, the latter. Both are valid. What a disk tells is then as after `land`.
    pub fn receive(&mut self, item: &Item) -> Result<Got, ReceiveRefused>
        ensures takes { TakesItem D.Disk T.meaning A.address (pair_of item.now) self.old self.new
            (receive_answer result) }
        ensures names { IfErr result (NamesItem item.now.number) }
    {
        if self.failed {
            let moves = self.recorded.moves();
            return Err(ReceiveRefused::Failed { moves });
        }
        let (value, commit) = (item.value.as_slice(), item.commit.as_slice());
        let (commit, moves, record) = match self.recorded.receive(value, commit) {
            Ok(Arrived::Here { commit }) => return Ok(Got::Here { commit }),
            Ok(
                Arrived::New {
                    commit,
                    moves,
                    record,
                },
            ) => (commit, moves, record),
            Err(refused) => return Err(refused_at(item.number, refused)),
        };
        let Ok(()) = put(
            &mut self.recorded,
            &mut self.journal,
            &mut self.disk,
            &mut self.failed,
            &[record],
        ) else {
            return Err(ReceiveRefused::DiskFault);
        };
        Ok(Got::New { commit, moves })
    }
}
