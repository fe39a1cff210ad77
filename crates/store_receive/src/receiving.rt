// A bundle received into a core.
ghost use Rattle.std.specs.Prelude.{◌≡◌, ◌<◌, ◌≤◌, ◌⊎◌, length, map, false, IfOk, IfErr};
ghost use Rattle.branch_io.specs.Causes.{HasCauseOf};
ghost use Rattle.branch_disk.specs.Disk.{LeavesOnly};
ghost use Rattle.branch_history.specs.History.{store_of};
ghost use Rattle.branch_machine.specs.Fixed.{fix};
ghost use Rattle.branch_bundle_laws.specs.Receiving.{Placed as PlacedAs};
ghost use Rattle.branch_bundle.specs.Held.{pair_of, plain, numbered};
ghost use Rattle.store_receive.specs.Received.{MakesNothing, TakesAll, StopsAt, StopsIn, IsInterrupted, StandsAfterSome, IsPlaced, IsNotPlaced, StandsAfterPlace, PlacesAtTip, NotPlacedAtTip, StandsAtTip, IsReceived, IsNotReceived, StandsOnTheWay, AreReceived, AreNotReceived, StandsOnTheirWay};

use crate::answers::{NotReceived, Placed};
use crate::left::Left;
use branch_address::Address;
use branch_bundle::{Bundle, BundleRefused, Item, read_bundle};
use branch_disk::Disk;
use branch_names::Name;
use branch_progress::{Listener, Progress};
use mrdt_model::Mrdt;
use std::alloc::Global;
use store_core::{Core, GotAll};

// How many items are received together at the most.
const TOGETHER: usize = 64;

// Takes items together, up to the first that is refused, and says how many of their commits are new.
fn receive_batch<T: Mrdt, D: Disk + Drop, A: Address>(
    core: &mut Core<T, D, A>,
    items: &[Item],
) -> Result<u64, NotReceived>
    requires working { core.old.failed ≡ false }
    requires few { length items.now ≤ 64 }
    ensures taken { IfOk result (TakesAll (fix T.meaning core.old.terms A.address)
        (map pair_of items.now) core.old core.new) }
    ensures refused { IfErr result (λ e.
        StopsIn (fix T.meaning core.old.terms A.address) items.now core.old core.new e
        ⊎ MakesNothing core.old core.new e) }
    ensures moments { LeavesOnly D.moment D.left_since core.old.disk core.new.disk
        (StandsAfterSome (fix T.meaning core.old.terms A.address) core.old.history
        (map pair_of items.now)) }
    ensures cause { HasCauseOf NotReceived.DiskFault (D.faults core.old.disk)
        (D.faults core.new.disk) result }
{
    // It is a valid history: its count tells the proof so.
    let _moves = core.moves();
    match core.receive_all(items) {
        Ok(all) => {
            let GotAll { made, refused, .. } = all;
            match refused {
                None => Ok(made),
                Some(refused) => Err(NotReceived::from(refused)),
            }
        }
        Err(refused) => Err(NotReceived::from(refused)),
    }
}

// Tells how many of the items were taken, where these are left.
fn tell_received<L: Listener>(listener: &mut L, of: usize, left: &Left) {
    listener.hear(Progress::Received {
        items: of.saturating_sub(left.len()) as u64,
        of: of as u64,
    });
}

// Takes items, some together and then the next ones, and says how many of their commits are new. They go from memory as
// they are taken. The listener hears of each that were taken together.
fn receive_items<T: Mrdt, D: Disk + Drop, A: Address, L: Listener>(
    core: &mut Core<T, D, A>,
    items: Vec<Item>,
    listener: &mut L,
) -> Result<u64, NotReceived>
    requires working { core.old.failed ≡ false }
    requires numbers { items.items ≡ numbered 1 (map pair_of items.items) }
    ensures taken { IfOk result (TakesAll (fix T.meaning core.old.terms A.address)
        (map pair_of items.items) core.old core.new) }
    ensures refused { IfErr result (λ e. StopsAt (fix T.meaning core.old.terms A.address)
        (map pair_of items.items) core.old core.new e
        ⊎ IsInterrupted (fix T.meaning core.old.terms A.address) (map pair_of items.items) core.old
        core.new e) }
    ensures moments { LeavesOnly D.moment D.left_since core.old.disk core.new.disk
        (StandsAfterSome (fix T.meaning core.old.terms A.address) core.old.history
        (map pair_of items.items)) }
    ensures cause { HasCauseOf NotReceived.DiskFault (D.faults core.old.disk)
        (D.faults core.new.disk) result }
{
    let _moves = core.moves();
    let mut count: u64 = 0;
    let of = items.len();
    let mut left = Left::new(items);
    while left.len() > 0 {
        let size = left.len().min(TOGETHER);
        let Ok(batch) = left.take(size) else {
            return Err(NotReceived::Memory);
        };
        match receive_batch(core, &batch) {
            Ok(new) => count += new,
            Err(refused) => return Err(refused),
        }
        let _moves = core.moves();
        tell_received(listener, of, &left);
    }
    Ok(count)
}

// Places a branch at a commit, behind so many new ones.
fn place_at<T: Mrdt, D: Disk + Drop, A: Address>(
    core: &mut Core<T, D, A>,
    name: Name,
    head: u32,
    count: u64,
) -> Result<Placed, NotReceived>
    requires working { core.old.failed ≡ false }
    requires there { head < length (store_of core.old.terms.origin core.old.history).commits }
    ensures count { IfOk result (λ placed. placed.count ≡ count) }
    ensures placed { IfOk result (IsPlaced (fix T.meaning core.old.terms A.address) name head
        core.old core.new) }
    ensures refused { IfErr result (IsNotPlaced (fix T.meaning core.old.terms A.address) name head
        core.old core.new) }
    ensures moments { LeavesOnly D.moment D.left_since core.old.disk core.new.disk
        (StandsAfterPlace (fix T.meaning core.old.terms A.address) core.old.history name head) }
    ensures cause { HasCauseOf NotReceived.DiskFault (D.faults core.old.disk)
        (D.faults core.new.disk) result }
{
    // It is a valid history, and a name: the calls tell the proof so.
    let _moves = core.moves();
    let _name = name.as_bytes();
    match core.place(name, head) {
        Ok(forked) => Ok(Placed {
            count,
            branch: forked.number,
            head: forked.head,
        }),
        Err(refused) => Err(NotReceived::from(refused)),
    }
}

// Places a branch at the commit with an address, behind so many new ones.
fn place_at_tip<T: Mrdt, D: Disk + Drop, A: Address>(
    core: &mut Core<T, D, A>,
    tip: &[u8; 32],
    name: Name,
    count: u64,
) -> Result<Placed, NotReceived>
    requires working { core.old.failed ≡ false }
    ensures placed { IfOk result (λ placed. (placed.count ≡ count)
        × PlacesAtTip (fix T.meaning core.old.terms A.address) name tip.now core.old core.new
        placed) }
    ensures refused { IfErr result (NotPlacedAtTip (fix T.meaning core.old.terms A.address) name
        tip.now core.old core.new) }
    ensures moments { LeavesOnly D.moment D.left_since core.old.disk core.new.disk
        (StandsAtTip (fix T.meaning core.old.terms A.address) core.old.history name tip.now) }
    ensures cause { HasCauseOf NotReceived.DiskFault (D.faults core.old.disk)
        (D.faults core.new.disk) result }
{
    // It is a valid history: its count tells the proof so.
    let _moves = core.moves();
    match core.commit_at(tip) {
        Some(head) => place_at(core, name, head, count),
        None => Err(NotReceived::NoBundle),
    }
}

// Takes the items of a bundle one after the other, and places a branch of a name at its tip.
fn receive_bundle<T: Mrdt, D: Disk + Drop, A: Address, L: Listener>(
    core: &mut Core<T, D, A>,
    bundle: Bundle,
    name: Name,
    listener: &mut L,
) -> Result<Placed, NotReceived>
    requires working { core.old.failed ≡ false }
    requires numbers { bundle.items ≡ numbered 1 (plain bundle).items }
    ensures received { IfOk result (λ placed. IsReceived (fix T.meaning core.old.terms A.address)
        (plain bundle) name core.old core.new
        (PlacedAs placed.count placed.branch placed.head)) }
    ensures refused { IfErr result (IsNotReceived (fix T.meaning core.old.terms A.address)
        (plain bundle) name core.old core.new) }
    ensures moments { LeavesOnly D.moment D.left_since core.old.disk core.new.disk
        (StandsOnTheWay (fix T.meaning core.old.terms A.address) core.old.history
        (plain bundle) name) }
    ensures cause { HasCauseOf NotReceived.DiskFault (D.faults core.old.disk)
        (D.faults core.new.disk) result }
{
    // It is a valid history: its count tells the proof so.
    let _moves = core.moves();
    let Bundle { tip, items } = bundle;
    match receive_items(core, items.into_vec(), listener) {
        Ok(count) => place_at_tip(core, &tip, name, count),
        Err(refused) => Err(refused),
    }
}

/// Receives the bundle that bytes spell: takes its items one after the other, and places a branch of a name at its tip,
/// which no branch has. Nothing of the bytes is trusted, and no head moves.
///
/// It is refused exactly as the machine refuses an item or the branch, and then the moves of the items before stand;
/// `NoBundle` comes exactly where the bytes spell none of the store's layout, and where behind all items no commit has
/// the address of the tip.
/// At every moment a crash leaves the history with the moves of a first part of the items, or of all and of the branch;
/// all of them are valid.
///
/// The bytes go from memory once they are read, and the items as they are received. The listener hears how many were
/// received, behind each 64 of them and behind the last, and changes nothing.
pub fn receive_bytes<T: Mrdt, D: Disk + Drop, A: Address, L: Listener>(
    alloc: Global,
    core: &mut Core<T, D, A>,
    bytes: Vec<u8>,
    name: Name,
    listener: &mut L,
) -> Result<Placed, NotReceived>
    requires working { core.old.failed ≡ false }
    ensures received { IfOk result (λ placed. AreReceived (fix T.meaning core.old.terms A.address)
        bytes.items name core.old core.new (PlacedAs placed.count placed.branch placed.head)) }
    ensures refused { IfErr result (AreNotReceived (fix T.meaning core.old.terms A.address)
        bytes.items name core.old core.new) }
    ensures moments { LeavesOnly D.moment D.left_since core.old.disk core.new.disk
        (StandsOnTheirWay (fix T.meaning core.old.terms A.address) core.old.history bytes.items
        name) }
    ensures cause { HasCauseOf NotReceived.DiskFault (D.faults core.old.disk)
        (D.faults core.new.disk) result }
{
    let _moves = core.moves();
    let layout = core.terms().layout;
    let read = read_bundle(alloc, layout, &bytes);
    drop(bytes);
    match read {
        Ok(bundle) => receive_bundle(core, bundle, name, listener),
        Err(BundleRefused::BadBundle { .. }) => Err(NotReceived::NoBundle),
        Err(BundleRefused::Memory) => Err(NotReceived::Memory),
    }
}
