// How a core receives items of a bundle together.
ghost use Rattle.std.specs.Prelude.{◌≡◌, ◌≤◌, [], length, map, IfOk, IfErr, OnErr};
ghost use Rattle.branch_machine.specs.Fixed.{fix};
ghost use Rattle.branch_bundle.specs.Held.{pair_of};
ghost use Rattle.store_core.specs.Receiving.{NamesItem};
ghost use Rattle.store_core.specs.Together.{HasArrived, HaveArrived, NamesNext, TakesItems};

use crate::answers::{Got, GotAll, ReceiveRefused};
use crate::put::put;
use crate::receiving::refused_at;
use crate::store::Core;
use branch_address::Address;
use branch_bundle::Item;
use branch_disk::Disk;
use branch_history::laws::keeps_limits;
use branch_machine::laws::makes_fewer_moves;
use heads_journal::Record;
use mrdt_model::{Listing, Memory, Mrdt};
use recorded_history::{Arrived, Recorded};

// What became of items, in memory, and the records of those that are new.
#[derive(Drop)]
struct Arrivals {
    got: Vec<Got>,
    refused: Option<ReceiveRefused>,
    records: Vec<Record>,
}

// Receives an item in memory, behind the moves that wait, and notes its record, if it is new.
fn receive_one<T: Mrdt, A: Address>(
    recorded: &mut Recorded<T, A>,
    item: &Item,
    records: &mut Vec<Record>,
) -> Result<Result<Got, ReceiveRefused>, Memory>
    ensures arrived { IfOk result (λ answer.
        HasArrived (fix T.meaning recorded.old.terms A.address) (pair_of item.now) recorded.old
        recorded.new answer records.old.items records.new.items) }
    ensures names { IfOk result (λ answer. IfErr answer (NamesItem item.now.number)) }
    ensures kept { OnErr result ((recorded.new.written ≡ recorded.old.written)
        × (recorded.new.terms ≡ recorded.old.terms)) }
{
    let (value, commit) = (item.value.as_slice(), item.commit.as_slice());
    match recorded.receive_more(value, commit) {
        Ok(Arrived::Here { commit }) => Ok(Ok(Got::Here { commit })),
        Ok(
            Arrived::New {
                commit,
                moves,
                record,
            },
        ) => {
            records.push(record)?;
            Ok(Ok(Got::New { commit, moves }))
        }
        Err(recorded_history::ReceiveRefused::Memory) => Err(Memory),
        Err(refused) => Ok(Err(refused_at(item.number, refused))),
    }
}

// Receives items in memory, one behind another, up to the first that is refused. Where memory is short, none waits any
// more.
fn receive_each<T: Mrdt, A: Address>(
    recorded: &mut Recorded<T, A>,
    items: &[Item],
) -> Result<Arrivals, Memory>
    requires settled { recorded.old.pending ≡ [] }
    ensures arrived { IfOk result (λ arrivals.
        HaveArrived (fix T.meaning recorded.old.terms A.address) (map pair_of items.now)
        recorded.old recorded.new arrivals.got.items arrivals.refused arrivals.records.items) }
    ensures names { IfOk result (λ arrivals.
        NamesNext items.now arrivals.got.items arrivals.refused) }
    ensures kept { OnErr result (recorded.new ≡ recorded.old) }
{
    let alloc = recorded.alloc();
    let mut got = Vec::new(alloc);
    let mut records = Vec::new(alloc);
    for item in items {
        let Ok(answer) = receive_one(recorded, item, &mut records) else {
            recorded.undo();
            return Err(Memory);
        };
        let taken = match answer {
            Ok(taken) => taken,
            Err(refused) => {
                return Ok(Arrivals {
                    got,
                    refused: Some(refused),
                    records,
                });
            }
        };
        if got.push(taken).is_err() {
            recorded.undo();
            return Err(Memory);
        }
    }
    Ok(Arrivals {
        got,
        refused: None,
        records,
    })
}

// What is told of items that were received.
fn told(arrivals: Arrivals) -> GotAll
    ensures got { result.got ≡ arrivals.got.items }
    ensures made { result.made ≡ length arrivals.records.items }
    ensures refused { result.refused ≡ arrivals.refused }
{
    let made = arrivals.records.len() as u64;
    GotAll {
        got: Listing::from_vec(arrivals.got),
        made,
        refused: arrivals.refused,
    }
}

impl<T: Mrdt, D: Disk + Drop, A: Address> Core<T, D, A> {
    /// Receives up to 64 items of a bundle together, in order, each as `receive` does behind the moves of the items before
    /// it, up to the first that is refused; an item's parents may be commits of items before it. It is told what became of
    /// each item that was taken, how many moves were made, and why the item behind those was refused, if one was: the
    /// items before it are received.
    ///
    /// The disk is called once for all: with one write of all regions and a sync, both left out where there is no region,
    /// with one write of all records and a sync, with a write of one gate for each move, in order, and with a sync. Where
    /// no item is new, it is not called. Where a call fails, the answer is `DiskFault`, the store has failed, and it holds
    /// what it held; where the disk had failed before, it is `Failed`. All memory is taken before the first call: after
    /// `Memory` nothing has changed.
    ///
    /// At every moment a crash leaves the history with the first of the new moves behind it: none, some or all; after it, if
    /// the disk has not failed, all. Each of these is valid. What a disk tells is then as after `land_all`.
    pub fn receive_all(&mut self, items: &[Item]) -> Result<GotAll, ReceiveRefused>
        requires few { length items.now ≤ 64 }
        ensures takes { TakesItems D.Disk T.meaning A.address (map pair_of items.now) self.old
            self.new result }
        ensures names { IfOk result (λ all. NamesNext items.now all.got all.refused) }
    {
        if self.failed {
            let moves = self.recorded.moves();
            return Err(ReceiveRefused::Failed { moves });
        }
        keeps_limits::<T>();
        makes_fewer_moves::<T>();
        let Ok(arrivals) = receive_each(&mut self.recorded, items) else {
            return Err(ReceiveRefused::Memory);
        };
        if arrivals.records.is_empty() {
            return Ok(told(arrivals));
        }
        let Ok(()) = put(
            &mut self.recorded,
            &mut self.journal,
            &mut self.disk,
            &mut self.failed,
            &arrivals.records,
        ) else {
            return Err(ReceiveRefused::DiskFault);
        };
        Ok(told(arrivals))
    }
}
