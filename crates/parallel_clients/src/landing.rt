// The landings of a client.
ghost use Rattle.std.specs.Prelude.{◌≡◌, ◌<◌, ◌≤◌, ◌∷◌, ◌++◌, [], length, vec_capacity, IfOk, IfErr};
ghost use mathlib.Core.List.{IsPrefix};
ghost use Rattle.branch_machine.specs.Fixed.{fix};
ghost use Rattle.branch_machine.specs.Validity.{IsFullyValid};
ghost use Rattle.store_seen.specs.Turns.{move_of};
ghost use Rattle.branch_shared.specs.Allowed.{AllowsWork};
ghost use Rattle.parallel_clients.specs.Outcomes.{setting};
ghost use Rattle.parallel_clients.specs.Sessions.{HasStayed, IsLanding, IsLandRefused};

use crate::client::Client;
use crate::gate::Gate;
use crate::outcome::ClientRefusal;
use branch_address::Address;
use branch_disk::Disk;
use branch_doc::Forms;
use branch_shared::{Named, Pass};
use std::sync::Wait;
use store_core::LandRefused;
use store_seen::Prepared;

/// What came of a try to move.
#[derive(Clone, Copy, Debug, PartialEq, Eq)]
pub(crate) enum Landing {
    /// It landed.
    Moved,
    /// The branch has a newer head.
    Stale,
    /// There was nothing to merge.
    Same,
}

/// Why a client stops at a step.
#[derive(Drop)]
pub(crate) enum Stop {
    /// The step was refused.
    Refused(ClientRefusal),
    /// It names a session that has not looked.
    Unseen,
}

/// Notes one more item of a list, for which there is room.
pub(crate) fn note<X: Drop>(list: &mut Vec<X>, item: X)
    requires { length list.old.items < vec_capacity list.old }
    ensures items { list.new.items ≡ list.old.items ++ item ∷ [] }
    ensures capacity { vec_capacity list.old ≤ vec_capacity list.new }
{
    if list.push(item).is_err() {
        unreachable!()
    }
}

impl<T: Forms, D: Disk + Drop, A: Address, N: Named<T::Op, T::Reply>, G: Gate, R: Wait> Client<
    '_,
    T,
    D,
    A,
    N,
    G,
    R,
> {
    /// Lands what was prepared, together with what other clients wait to land, and notes its place.
    pub(crate) fn land(
        &self,
        pass: &mut Pass<T, N>,
        places: &mut Vec<u64>,
        prepared: Prepared<T>,
    ) -> Result<Landing, ClientRefusal>
        requires allowed { AllowsWork N.allows prepared.seen.branch prepared.work }
        requires made { IsPrefix prepared.seen.history pass.old.moves
            × (prepared.seen.terms ≡ N.terms) }
        requires parts { 1 < pass.old.parts }
        requires room { length places.old.items < vec_capacity places.old }
        ensures prefix { IsPrefix pass.old.moves pass.new.moves }
        ensures valid { IsFullyValid (fix T.meaning N.terms A.address) pass.new.moves }
        ensures faults { pass.old.faults ≤ pass.new.faults }
        ensures capacity { vec_capacity places.old ≤ vec_capacity places.new }
        ensures landed { IfOk result
            (IsLanding (move_of prepared.seen.branch prepared.work) pass.old pass.new
            places.old.items places.new.items) }
        ensures refused { IfErr result (λ refusal.
            IsLandRefused (setting (fix T.meaning N.terms A.address) T.forms N.opened)
            prepared
            pass.new refusal × HasStayed pass.old pass.new places.old.items places.new.items) }
    {
        match self.shared.land_batched(self.rt, pass, prepared) {
            Ok(landed) => {
                note(places, landed.moves);
                self.gate.after_land(self.rt, self.number);
                Ok(Landing::Moved)
            }
            Err(LandRefused::Dropped { branch }) => Err(ClientRefusal::Dropped { branch }),
            Err(LandRefused::Stale { .. }) => Ok(Landing::Stale),
            Err(LandRefused::FullCommits { count }) => Err(ClientRefusal::FullCommits { count }),
            Err(LandRefused::FullMoves { count }) => Err(ClientRefusal::FullMoves { count }),
            Err(
                LandRefused::Collision {
                    address,
                    stored,
                    fresh,
                },
            ) => Err(ClientRefusal::Collision {
                address,
                stored,
                fresh,
            }),
            Err(LandRefused::DiskFault) => Err(ClientRefusal::DiskFault),
            Err(LandRefused::Failed { moves }) => Err(ClientRefusal::Failed { moves }),
            Err(LandRefused::Memory) => Err(ClientRefusal::Memory),
        }
    }
}
