// A client does the steps of its script.
ghost use Rattle.std.specs.Prelude.{◌≡◌, ◌<◌, ◌≤◌, [], length, vec_capacity};
ghost use Rattle.std.specs.List.{AllByRecursion};
ghost use Rattle.branch_machine.specs.Fixed.{fix};
ghost use Rattle.parallel_clients.specs.Clients.{KeepsValid};
ghost use Rattle.parallel_clients.specs.Allowed.{AllowsStep};
ghost use Rattle.parallel_clients.specs.Outcomes.{IsOutcome, places_of, setting};
ghost use Rattle.parallel_clients.specs.Sessions.{Advances, stopped_at};

use crate::client::Client;
use crate::gate::Gate;
use crate::landing::Stop;
use crate::outcome::{ClientRefusal, Outcome};
use branch_address::Address;
use branch_disk::Disk;
use branch_doc::Forms;
use branch_script::Step;
use branch_shared::{Named, Pass};
use mrdt_model::Listing;
use std::alloc::Global;
use std::collections::BTreeMap;
use std::sync::Wait;

// The outcome of a client that stopped.
fn stopped(step: u64, stop: Stop, places: Vec<u64>) -> Outcome
    ensures { result ≡ stopped_at step stop places.items }
{
    let places = Listing::from_vec(places);
    match stop {
        Stop::Refused(refusal) => Outcome::Refused {
            step,
            refusal,
            places,
        },
        Stop::Unseen => Outcome::Unseen { step, places },
    }
}

impl<T: Forms, D: Disk + Drop, A: Address, N: Named<T::Op, T::Reply>, G: Gate, R: Wait> Client<
    '_,
    T,
    D,
    A,
    N,
    G,
    R,
> {
    /// Does the steps of a script, and notes the places of its moves, for which there is room.
    pub(crate) fn run(
        &self,
        alloc: Global,
        pass: &mut Pass<T, N>,
        steps: &[Step],
        mut places: Vec<u64>,
    ) -> Outcome
        requires allowed { AllByRecursion (AllowsStep T.forms N.allows) steps.now }
        requires parts { 1 < pass.old.parts }
        requires none { places.items ≡ [] }
        requires room { length steps.now ≤ vec_capacity places }
        ensures became { IsOutcome
            (setting (fix T.meaning N.terms A.address) T.forms N.opened)
            pass.old.moves pass.new.moves pass.new.faults steps.now result }
        ensures advances { Advances pass.old pass.new [] (places_of result) }
        ensures valid { KeepsValid (fix T.meaning N.terms A.address) pass.old pass.new }
    {
        let mut sessions = BTreeMap::new(alloc);
        let mut sees = true;
        for (number, step) in steps.iter().enumerate() {
            if !sees {
                let stop = Stop::Refused(ClientRefusal::Memory);
                return stopped(number as u64, stop, places);
            }
            match self.step(pass, &mut sessions, &mut places, step) {
                Ok(again) => sees = again,
                Err(stop) => return stopped(number as u64, stop, places),
            }
        }
        Outcome::Done {
            places: Listing::from_vec(places),
        }
    }
}
