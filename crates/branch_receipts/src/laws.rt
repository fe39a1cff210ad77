// The laws of what is received. Each stands on a function whose contract is the law.
ghost use Rattle.branch_receipts.specs.Laws.{KeepsReceived, KeepsOnTheWay, AcceptsSent};

use branch_bundle_laws::laws::{
    accepts_bundles, adds_all_items, adds_items, places_branches, reads_bundles, sends_bundles,
};
use mrdt_model::Mrdt;

/// Behind bytes that were received all commits and branches of the history stay. Where a branch was placed, the bytes
/// are those of a bundle, each item is a commit with the same bytes, and the branch stands at the tip.
pub fn keeps_received<T: Mrdt>()
    ensures { KeepsReceived T.meaning }
{
    adds_items::<T>();
    adds_all_items::<T>();
    places_branches::<T>();
}

/// Behind some items of a bundle, and behind all and the branch, all commits and branches of the history stay.
pub fn keeps_on_the_way<T: Mrdt>()
    ensures { KeepsOnTheWay T.meaning }
{
    adds_all_items::<T>();
}

/// A bundle that a valid history sent is accepted under a free name by every valid history that holds what was left out
/// of it: it is never answered that it is none, nor that an item is bad.
pub fn accepts_sent<T: Mrdt>()
    ensures { AcceptsSent T.meaning }
{
    reads_bundles();
    sends_bundles::<T>();
    adds_all_items::<T>();
    accepts_bundles::<T>();
}
