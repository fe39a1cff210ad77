// Clients that share a store, each in a thread of its own where one is to be had.
ghost use Rattle.std.specs.Prelude.{◌≡◌, ◌*◌, ◌-◌, ◌<◌, ◌≤◌, [], ℕ, length, vec_capacity, slice_index_or, IfOk, OnErr};
ghost use Rattle.std.specs.List.{AllByRecursion, AllZip};
ghost use Rattle.branch_machine.specs.Fixed.{fix};
ghost use Rattle.parallel_clients.specs.Clients.{Ran};
ghost use Rattle.parallel_clients.specs.Entrants.{HasRunOwn, HasWorked, HaveEntered, HaveLeft, IsReady, IsSeat};
ghost use Rattle.parallel_clients.specs.Allowed.{AllowsScripts, AllowsStep};
ghost use Rattle.parallel_clients.specs.Outcomes.{setting};

use crate::client::Client;
use crate::gate::Gate;
use crate::landing::note;
use crate::outcome::Outcome;
use branch_address::Address;
use branch_disk::Disk;
use branch_doc::Forms;
use branch_script::Step;
use branch_shared::{Named, Pass, Shared};
use mrdt_model::{Listing, Memory};
use std::alloc::Global;
use std::sync::Wait;
use std::thread::Threads;
use std::{mem, thread};

// The script of a client, and room for the places of its moves.
#[derive(Drop)]
pub(crate) struct Seat<'a> {
    pub(crate) steps: &'a [Step],
    pub(crate) places: Vec<u64>,
}

// A client on its seat, with its pass, and what became of it.
#[derive(Drop)]
pub(crate) struct Entrant<'a, P> {
    pub(crate) seat: Seat<'a>,
    pub(crate) pass: P,
    pub(crate) outcome: Outcome,
}

// A seat for each script.
fn take_seats(alloc: Global, scripts: &[Listing<Step>]) -> Result<Vec<Seat<'_>>, Memory>
    ensures { IfOk result (λ seats. AllZip IsSeat scripts.now seats.items) }
{
    let mut seats = Vec::new(alloc);
    for script in scripts {
        let steps = script.as_slice();
        let places = Vec::with_capacity(alloc, steps.len())?;
        seats.push(Seat { steps, places })?;
    }
    Ok(seats)
}

// A client enters on a seat, with two parts of the pass.
fn enter_one<'a, T: Forms, D: Disk + Drop, A: Address, N: Named<T::Op, T::Reply>>(
    alloc: Global,
    shared: &Shared<T, D, A, N>,
    pass: &mut Pass<T, N>,
    seat: Seat<'a>,
) -> Entrant<'a, Pass<T, N>>
    requires parts { 2 < pass.old.parts }
    ensures ready { IsReady pass.old seat.entry result }
    ensures pass { pass.new ≡ record pass.old { parts = pass.old.parts - 2 } }
{
    let places = Listing::from_vec(Vec::new(alloc));
    Entrant {
        seat,
        pass: shared.enter(pass, 2),
        outcome: Outcome::Done { places },
    }
}

// A client for each seat enters. There is room for all.
fn enter_all<'a, T: Forms, D: Disk + Drop, A: Address, N: Named<T::Op, T::Reply> + Drop>(
    alloc: Global,
    shared: &Shared<T, D, A, N>,
    pass: &mut Pass<T, N>,
    seats: Vec<Seat<'a>>,
    mut entrants: Vec<Entrant<'a, Pass<T, N>>>,
) -> Vec<Entrant<'a, Pass<T, N>>>
    requires parts { 2 * length seats.items < pass.old.parts }
    requires none { entrants.items ≡ [] }
    requires room { length seats.items ≤ vec_capacity entrants }
    ensures ready { AllZip (IsReady pass.old) seats.entry.items result.items }
    ensures entered { HaveEntered (length seats.entry.items) pass.old pass.new }
{
    for seat in seats {
        let entrant = enter_one(alloc, shared, pass, seat);
        note(&mut entrants, entrant);
    }
    entrants
}

// A client does its steps.
fn work<T: Forms, D: Disk + Drop, A: Address, N: Named<T::Op, T::Reply>, G: Gate, R: Wait>(
    client: &Client<'_, T, D, A, N, G, R>,
    alloc: Global,
    entrant: &mut Entrant<'_, Pass<T, N>>,
)
    requires allowed { AllByRecursion (AllowsStep T.forms N.allows) entrant.old.seat.steps.now }
    requires parts { 1 < entrant.old.pass.parts }
    requires none { entrant.old.seat.places.items ≡ [] }
    requires room { length entrant.old.seat.steps.now ≤ vec_capacity entrant.old.seat.places }
    ensures { HasWorked (setting (fix T.meaning N.terms A.address) T.forms N.opened)
        entrant.old
        entrant.new }
{
    let places = mem::replace(&mut entrant.seat.places, Vec::new(alloc));
    entrant.outcome = client.run(alloc, &mut entrant.pass, entrant.seat.steps, places);
}

// All clients do their steps, each in a thread of its own as far as threads are to be had.
fn work_all<
    T: Forms + Send + Sync,
    D: Disk + Drop + Send,
    A: Address + Send,
    N: Named<T::Op, T::Reply> + Send + Sync,
    G: Gate,
    R: Threads + Wait + Sync,
>(
    rt: &R,
    alloc: Global,
    shared: &Shared<T, D, A, N>,
    gate: &G,
    entrants: &mut [Entrant<'_, Pass<T, N>>],
)
    requires allowed { (i : ℕ) (d : _) → i < length entrants.old
        → AllByRecursion (AllowsStep T.forms N.allows)
        (slice_index_or entrants.old i d).seat.steps.now }
    requires parts { (i : ℕ) (d : _) → i < length entrants.old
        → 1 < (slice_index_or entrants.old i d).pass.parts }
    requires none { (i : ℕ) (d : _) → i < length entrants.old
        → (slice_index_or entrants.old i d).seat.places.items ≡ [] }
    requires room { (i : ℕ) (d : _) → i < length entrants.old
        → length (slice_index_or entrants.old i d).seat.steps.now
        ≤ vec_capacity (slice_index_or entrants.old i d).seat.places }
    ensures same { length entrants.new ≡ length entrants.old }
    ensures worked { (i : ℕ) (d : _) → i < length entrants.old
        → HasWorked (setting (fix T.meaning N.terms A.address) T.forms N.opened)
        (slice_index_or entrants.old i d) (slice_index_or entrants.new i d) }
{
    let threads = entrants.len().max(1);
    thread::for_each_mut(
        rt,
        entrants,
        threads,
        &|number: usize, entrant: &mut Entrant<'_, Pass<T, N>>|
            requires { AllByRecursion (AllowsStep T.forms N.allows) entrant.old.seat.steps.now
                × (1 < entrant.old.pass.parts)
                × (entrant.old.seat.places.items ≡ [])
                × (length entrant.old.seat.steps.now ≤ vec_capacity entrant.old.seat.places) }
            ensures { HasWorked
                (setting (fix T.meaning N.terms A.address) T.forms N.opened)
                entrant.old entrant.new }
        {
            let client = Client {
                rt,
                shared,
                gate,
                number: number as u64,
            };
            work(&client, alloc, entrant)
        },
    );
}

// Each client leaves into the pass. Gives what became of them, for which there is room.
fn leave_all<T: Forms, D: Disk + Drop, A: Address, N: Named<T::Op, T::Reply> + Drop>(
    shared: &Shared<T, D, A, N>,
    pass: &mut Pass<T, N>,
    entrants: Vec<Entrant<'_, Pass<T, N>>>,
    mut outcomes: Vec<Outcome>,
) -> Vec<Outcome>
    requires ran { AllByRecursion
        (HasRunOwn (setting (fix T.meaning N.terms A.address) T.forms N.opened) pass.old)
        entrants.items }
    requires none { outcomes.items ≡ [] }
    requires room { length entrants.items ≤ vec_capacity outcomes }
    ensures { HaveLeft (setting (fix T.meaning N.terms A.address) T.forms N.opened)
        pass.old
        pass.new entrants.entry.items result.items }
{
    for entrant in entrants {
        let Entrant {
            seat: _,
            pass: own,
            outcome,
        } = entrant;
        shared.leave(own, pass);
        note(&mut outcomes, outcome);
    }
    outcomes
}

/// Does the steps of each script, as a client with sessions and a pass of its own, in a thread of its own; where no
/// thread is to be had, the caller's does them. Of threads no clause speaks. A client looks again after each of its moves
/// but a drop, and where its landing or drop is stale, before it repeats the step; a look again at a branch that was dropped
/// is passed over, also where another has its name by then, and so is a fork whose name is taken. Any other refusal ends
/// it. The store's name has to allow what the steps may make.
///
/// There is one outcome for each script, in their order, by what the pass has seen when all are done: the moves of a
/// client's steps, in order, all behind what the pass had seen before, and a moment from there on at which each step that
/// made none was done. No two clients have a place in common, and the pass claims the moves of all. All memory for them is
/// taken before any client starts: after `Memory` the pass is as it was, so no move was made.
pub fn run_clients<
    T: Forms + Send + Sync,
    D: Disk + Drop + Send,
    A: Address + Send,
    N: Named<T::Op, T::Reply> + Drop + Send + Sync,
    G: Gate,
    R: Threads + Wait + Sync,
>(
    rt: &R,
    alloc: Global,
    shared: &Shared<T, D, A, N>,
    pass: &mut Pass<T, N>,
    scripts: &[Listing<Step>],
    gate: &G,
) -> Result<Listing<Outcome>, Memory>
    requires parts { 2 * length scripts.now < pass.old.parts }
    requires allowed { AllowsScripts T.forms N.allows scripts.now }
    ensures ran { IfOk result
        (Ran (setting (fix T.meaning N.terms A.address) T.forms N.opened) pass.old
        pass.new
        scripts.now) }
    ensures kept { OnErr result (pass.new ≡ pass.old) }
{
    let seats = take_seats(alloc, scripts)?;
    let entrants = Vec::with_capacity(alloc, scripts.len())?;
    let outcomes = Vec::with_capacity(alloc, scripts.len())?;
    let mut entrants = enter_all(alloc, shared, pass, seats, entrants);
    work_all(rt, alloc, shared, gate, &mut entrants);
    Ok(Listing::from_vec(leave_all(shared, pass, entrants, outcomes)))
}
