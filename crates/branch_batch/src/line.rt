// What lies under the lock of a queue.
ghost use Rattle.std.specs.Prelude.{◌≡◌, ◌+◌, ◌<◌, ◌≤◌, ◌^◌, [], ◌∷◌, ◌++◌, length, map, option_to_list, take, drop, vec_capacity, vec_len, Some, None, IfOk, IfErr, IfSome, IfNone, OnOk, OnErr, OnSome, slice_get};
ghost use Rattle.branch_batch.specs.Lists.{RisesFrom, first_of, all_but, place_of};
ghost use Rattle.branch_batch.specs.Tickets.{front_of};
ghost use Rattle.branch_batch.specs.Lines.{HasWritten, all_given, answer_in, batch_of, given, is_first, left_of, number_of, room_number};

use crate::service::Service;
use crate::slot::Slot;
use crate::ticket::{Claim, Finished, Ticket, Waiting};
use branch_front::{Front, Pass, Told, Writer};
use std::alloc::Global;
use std::collections::VecDeque;
use std::marker::{Brand, Model, PhantomData};
use std::snapshot::Snapshot;

/// The most jobs that are taken at once.
const MOST: usize = 64;

/// What lies under the lock of a queue: the writer of its jobs, with the pass that claims come off; the jobs that wait; and
/// the rooms for answers. Contracts see a `LineView`.
#[derive(Drop)]
pub(crate) struct Line<J: Drop, R: Drop, S: Service<J, R>> {
    writer: Writer<J>,
    pass: Pass<J>,
    waiting: VecDeque<Waiting<J, R, S>>,
    slots: Vec<Slot<J, R, S>>,
    count: u64,
}

impl<J: Drop, R: Drop, S: Service<J, R>> Model for Line<J, R, S> {
    ghost use Rattle.std.specs.Prelude.{map};
    ghost use Rattle.branch_batch.specs.Lists.{RisesFrom};
    ghost use Rattle.branch_batch.specs.Lines.{HasWritten, LineView, number_of};

    ghost Value = { LineView J R };

    ghost view = { λ l. record {
      waiting = l.waiting.items;
      rooms = l.slots.items;
      count = l.count;
    } };

    ghost invariant = { λ l. HasWritten S.table l.count l.writer l.pass
        × RisesFrom 0 (map number_of l.waiting.items) l.count };
}

impl<J: Drop, R: Drop, S: Service<J, R>> Line<J, R, S> {
    /// No job was put yet.
    pub(crate) fn new(alloc: Global, writer: Writer<J>, pass: Pass<J>) -> Line<J, R, S>
        requires { HasWritten S.table 0 writer pass }
        ensures { result ≡ record { waiting = []; rooms = []; count = 0 } }
    {
        Line {
            writer,
            pass,
            waiting: VecDeque::new(alloc),
            slots: Vec::new(alloc),
            count: 0,
        }
    }

    /// Puts a job behind all others, with room for its answer.
    #[tactic(auto, using(crate::proofs::Rising::rises_more))]
    pub(crate) fn put(&mut self, front: &Front<J>, job: J) -> Result<Ticket<J, R, S>, J>
        requires takes { S.takes job }
        requires front { front.now ≡ front_of S.table }
        ensures ticket { IfOk result (λ ticket.
            ticket ≡ record { number = self.old.count; job = job }) }
        ensures line { OnOk result (self.new ≡ record {
          waiting = self.old.waiting ++ record { number = self.old.count; job = job } ∷ [];
          rooms = self.old.rooms ++ record { number = self.old.count; answer = None } ∷ [];
          count = self.old.count + 1;
        }) }
        ensures back { IfErr result (λ back. back ≡ job) }
        ensures same { OnErr result (self.new ≡ self.old) }
    {
        if self.count == u64::MAX
            || self.waiting.reserve(1).is_err()
            || self.slots.reserve(1).is_err()
        {
            return Err(job);
        }
        let number = self.count;
        note(front, &mut self.writer, &mut self.pass, number, &job);
        let ticket = Ticket {
            claim: claim(front, &mut self.pass, number, &job),
        };
        let claim = claim(front, &mut self.pass, number, &job);
        self.waiting.push_back_reserved(Waiting { job, claim });
        self.slots.push_reserved(Slot {
            number,
            answer: None,
        });
        self.count = number + 1;
        Ok(ticket)
    }

    /// Takes the first jobs for the holder of the ticket with the number `own`.
    pub(crate) fn take(&mut self, own: u64, batch: &mut Vec<Waiting<J, R, S>>)
        requires empty { batch.old.items ≡ [] }
        requires room { 64 ≤ vec_capacity batch.old }
        ensures batch { batch.new.items ≡ batch_of own self.old.waiting }
        ensures line { self.new ≡ record self.old { waiting = left_of own self.old.waiting } }
        ensures few { length batch.new.items ≤ 64 }
        ensures order { RisesFrom 0 (map number_of batch.new.items) (2 ^ 64) }
    {
        move_batch(&mut self.waiting, own, batch);
    }

    /// Gives answers back, each under the number of its job.
    pub(crate) fn give(&mut self, finished: Vec<Finished<J, R, S>>)
        ensures { self.new ≡ record self.old { rooms = all_given finished.items self.old.rooms } }
    {
        give_all(&mut self.slots, finished);
    }

    /// Takes the answer to the ticket's job out, with its room, if it is there.
    pub(crate) fn take_out(
        &mut self,
        front: &Front<J>,
        ticket: Ticket<J, R, S>,
    ) -> Result<R, Ticket<J, R, S>>
        requires front { front.now ≡ front_of S.table }
        ensures serves { IfOk result (λ answer. S.serves ticket.job answer) }
        ensures found { IfOk result (λ answer.
            answer_in (first_of room_number ticket.number self.old.rooms)
            ≡ Some (record { number = ticket.number; job = ticket.job; answer = answer })) }
        ensures line { OnOk result (self.new ≡ record self.old {
          rooms = all_but room_number ticket.number self.old.rooms;
        }) }
        ensures none { OnErr result
            (answer_in (first_of room_number ticket.number self.old.rooms) ≡ None) }
        ensures back { IfErr result (λ back. back ≡ ticket) }
        ensures same { OnErr result (self.new ≡ self.old) }
    {
        let Some(finished) = answer_out(&mut self.slots, ticket.claim.number) else {
            return Err(ticket);
        };
        let Finished { claim, answer } = finished;
        ticket.claim.agrees(front, claim);
        Ok(answer)
    }

    /// Takes the ticket's job out again, with the room for its answer, if it still waits.
    pub(crate) fn withdraw(
        &mut self,
        front: &Front<J>,
        ticket: Ticket<J, R, S>,
    ) -> Result<J, Ticket<J, R, S>>
        requires front { front.now ≡ front_of S.table }
        ensures job { IfOk result (λ job. job ≡ ticket.job) }
        ensures waited { OnOk result
            (first_of number_of ticket.number self.old.waiting ≡ Some ticket) }
        ensures line { OnOk result (self.new ≡ record self.old {
          waiting = all_but number_of ticket.number self.old.waiting;
          rooms = all_but room_number ticket.number self.old.rooms;
        }) }
        ensures none { OnErr result
            (first_of number_of ticket.number self.old.waiting ≡ None) }
        ensures back { IfErr result (λ back. back ≡ ticket) }
        ensures same { OnErr result (self.new ≡ self.old) }
    {
        let number = ticket.claim.number;
        let Some(waiting) = take_at(&mut self.waiting, number) else {
            return Err(ticket);
        };
        remove_room(&mut self.slots, number);
        let Waiting { job, claim } = waiting;
        ticket.claim.agrees(front, claim);
        Ok(job)
    }
}

// The job is written behind all others.
fn note<J>(front: &Front<J>, writer: &mut Writer<J>, pass: &mut Pass<J>, count: u64, job: &J)
    requires front { front.now ≡ front_of front.now.table }
    requires written { HasWritten front.now.table count writer.old pass.old }
    requires room { count + 1 < 2 ^ 64 }
    ensures written { HasWritten front.now.table (count + 1) writer.new pass.new }
    ensures stands { slice_get pass.new.moves count ≡ Some job.now }
{
    note_as::<J, Brand>(front, writer, pass, count, job);
}

#[tactic(auto, using(crate::proofs::Agreeing::last_at))]
fn note_as<J, E: Told<J>>(
    front: &Front<J>,
    writer: &mut Writer<J>,
    pass: &mut Pass<J>,
    count: u64,
    job: &J,
)
    requires front { front.now ≡ front_of front.now.table }
    requires written { HasWritten front.now.table count writer.old pass.old }
    requires room { count + 1 < 2 ^ 64 }
    requires told { (E.entry ≡ job.now ∷ []) × (E.faults ≡ 0) }
    ensures written { HasWritten front.now.table (count + 1) writer.new pass.new }
    ensures stands { slice_get pass.new.moves count ≡ Some job.now }
{
    let _ = count;
    let _ = job;
    writer.add::<E>(front, pass);
}

// A claim to the job, which stands under the number.
fn claim<J, R, S: Service<J, R>>(
    front: &Front<J>,
    pass: &mut Pass<J>,
    number: u64,
    job: &J,
) -> Claim<J, R, S>
    requires front { front.now ≡ front_of S.table }
    requires pass { (pass.old.table ≡ S.table) × (pass.old.parts ≡ 1) }
    requires stands { slice_get pass.old.moves number ≡ Some job.now }
    ensures claim { result ≡ record { number = number; job = job.now } }
    ensures pass { pass.new ≡ pass.old }
{
    Claim {
        number,
        job: Snapshot::of(job),
        pass: pass.split_off(front, 0),
        of: PhantomData,
    }
}

// The place of the job with the number among those that wait.
#[tactic(auto, using(crate::proofs::Places::place_none))]
fn place_among<J: Drop, R, S: Service<J, R>>(
    waiting: &VecDeque<Waiting<J, R, S>>,
    number: u64,
) -> Option<usize>
    ensures place { IfSome result (λ place. place ≡ place_of number_of number waiting.now.items) }
    ensures found { IfSome result (λ place. place < length waiting.now.items) }
    ensures none { IfNone result (first_of number_of number waiting.now.items ≡ None) }
{
    for place in 0..waiting.len() {
        if waiting[place].claim.number == number {
            return Some(place);
        }
    }
    None
}

// Whether the job with the number is among the first of those that wait.
fn stands_first<J: Drop, R, S: Service<J, R>>(
    waiting: &VecDeque<Waiting<J, R, S>>,
    own: u64,
) -> bool
    ensures { result ≡ is_first own waiting.now.items }
{
    match place_among(waiting, own) {
        Some(place) => place < MOST,
        None => false,
    }
}

// Moves the first jobs that wait into the batch.
#[tactic(auto, using(crate::proofs::Places::take_one, crate::proofs::Places::drop_one, crate::proofs::Places::take_all, crate::proofs::Places::drop_all))]
fn move_first<J: Drop, R, S: Service<J, R>>(
    waiting: &mut VecDeque<Waiting<J, R, S>>,
    most: usize,
    batch: &mut Vec<Waiting<J, R, S>>,
)
    requires empty { batch.old.items ≡ [] }
    requires room { most ≤ vec_capacity batch.old }
    ensures batch { batch.new.items ≡ take most waiting.old.items }
    ensures waiting { waiting.new.items ≡ drop most waiting.old.items }
    ensures few { vec_len batch.new ≤ most }
    ensures room { vec_capacity batch.new ≡ vec_capacity batch.old }
{
    for _ in 0..most {
        if let Some(first) = waiting.pop_front() {
            batch.push_reserved(first);
        }
    }
}

// Takes the job with the number from those that wait.
#[tactic(auto, using(crate::proofs::Places::place_get, crate::proofs::Places::place_remove, crate::proofs::Places::but_none, crate::proofs::Places::first_has))]
fn take_at<J: Drop, R, S: Service<J, R>>(
    waiting: &mut VecDeque<Waiting<J, R, S>>,
    number: u64,
) -> Option<Waiting<J, R, S>>
    ensures taken { result ≡ first_of number_of number waiting.old.items }
    ensures waiting { waiting.new.items ≡ all_but number_of number waiting.old.items }
    ensures number { IfSome result (λ job. job.number ≡ number) }
    ensures same { IfNone result (waiting.new.items ≡ waiting.old.items) }
{
    let place = place_among(waiting, number)?;
    waiting.remove(place)
}

// Moves the job with the number from those that wait into the batch.
fn move_own<J: Drop, R, S: Service<J, R>>(
    waiting: &mut VecDeque<Waiting<J, R, S>>,
    own: u64,
    batch: &mut Vec<Waiting<J, R, S>>,
)
    requires room { vec_len batch.old < vec_capacity batch.old }
    ensures batch { batch.new.items ≡ batch.old.items
        ++ option_to_list (first_of number_of own waiting.old.items) }
    ensures waiting { waiting.new.items ≡ all_but number_of own waiting.old.items }
{
    if let Some(mine) = take_at(waiting, own) {
        batch.push_reserved(mine);
    }
}

// Moves what is taken for the holder of the ticket with the number `own` into the batch.
#[tactic(auto, using(crate::proofs::Taking::batch_first, crate::proofs::Taking::batch_own, crate::proofs::Taking::left_first, crate::proofs::Taking::left_own))]
fn move_batch<J: Drop, R, S: Service<J, R>>(
    waiting: &mut VecDeque<Waiting<J, R, S>>,
    own: u64,
    batch: &mut Vec<Waiting<J, R, S>>,
)
    requires empty { batch.old.items ≡ [] }
    requires room { 64 ≤ vec_capacity batch.old }
    ensures batch { batch.new.items ≡ batch_of own waiting.old.items }
    ensures waiting { waiting.new.items ≡ left_of own waiting.old.items }
{
    if stands_first(waiting, own) {
        move_first(waiting, MOST, batch);
    } else {
        move_first(waiting, MOST - 1, batch);
        move_own(waiting, own, batch);
    }
}

// The place of the room with the number.
#[tactic(auto, using(crate::proofs::Places::place_none))]
fn slot_at<J, R: Drop, S: Service<J, R>>(slots: &[Slot<J, R, S>], number: u64) -> Option<usize>
    ensures place { IfSome result (λ place. place ≡ place_of room_number number slots.now) }
    ensures found { IfSome result (λ place. place < length slots.now) }
    ensures none { IfNone result (first_of room_number number slots.now ≡ None) }
{
    for (place, slot) in slots.iter().enumerate() {
        if slot.number == number {
            return Some(place);
        }
    }
    None
}

// Takes the answer out of the first room with the number, with the room, if it is there.
fn answer_out<J, R: Drop, S: Service<J, R>>(
    slots: &mut Vec<Slot<J, R, S>>,
    number: u64,
) -> Option<Finished<J, R, S>>
    ensures taken { result ≡ answer_in (first_of room_number number slots.old.items) }
    ensures slots { OnSome result (slots.new.items ≡ all_but room_number number slots.old.items) }
    ensures number { IfSome result (λ answer. answer.number ≡ number) }
    ensures same { IfNone result (slots.new.items ≡ slots.old.items) }
{
    let place = slot_at(slots, number)?;
    if slots[place].answer.is_none() {
        return None;
    }
    slots.remove(place).answer
}

// Removes the first room with the number.
#[tactic(auto, using(crate::proofs::Places::but_none, crate::proofs::Places::place_remove))]
fn remove_room<J, R: Drop, S: Service<J, R>>(slots: &mut Vec<Slot<J, R, S>>, number: u64)
    ensures { slots.new.items ≡ all_but room_number number slots.old.items }
{
    if let Some(place) = slot_at(slots, number) {
        slots.remove(place);
    }
}

// The answer comes into the room with its number. Where there is none, it is let go.
fn give_one<J, R: Drop, S: Service<J, R>>(
    slots: &mut Vec<Slot<J, R, S>>,
    finished: Finished<J, R, S>,
)
    ensures { slots.new.items ≡ given finished slots.old.items }
{
    if let Some(place) = slot_at(slots, finished.claim.number) {
        slots[place].fill(finished);
    }
}

// Each answer comes into the room with its number.
fn give_all<J, R: Drop, S: Service<J, R>>(
    slots: &mut Vec<Slot<J, R, S>>,
    finished: Vec<Finished<J, R, S>>,
)
    ensures { slots.new.items ≡ all_given finished.items slots.old.items }
{
    for finished in finished {
        give_one(slots, finished);
    }
}
