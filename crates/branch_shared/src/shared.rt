// A store that threads share.
ghost use Rattle.std.specs.Prelude.{ℕ, ◌≡◌, ◌≢◌, ◌+◌, ◌-◌, ◌<◌, ◌≤◌, ◌++◌, [], length, max, vec_capacity, Err, IfOk, IfErr, OnErr, OnOk};
ghost use mathlib.Core.List.{IsPrefix};
ghost use Rattle.branch_front.specs.Lists.{longer, AreAllWithin, AreApart, AreDistinct, AreSomeWithin};
ghost use Rattle.branch_history.specs.declared.moves.Move.TheVariants as move;
ghost use Rattle.branch_history.specs.Machine.{turn, answers};
ghost use Rattle.branch_history.specs.Steps as machine;
ghost use Rattle.branch_machine.specs.Fixed.{fix};
ghost use Rattle.branch_machine.specs.Validity.{IsFullyValid};
ghost use Rattle.store_seen.specs.Groups.{IsGrouped, GroupRefusedAs};
ghost use Rattle.store_seen.specs.Pairs.{IsPaired, PairRefusedAs};
ghost use Rattle.store_seen.specs.Turns.{LookRefusedAs};
ghost use Rattle.store_core.specs.Answers.{drop_answer};
ghost use Rattle.branch_shared.specs.Allowed.{AllowsWork, GrowsBy};
ghost use Rattle.branch_shared.specs.Keeps.{faults_since};
ghost use Rattle.branch_shared.specs.Batches.{MayLand, Serves};
ghost use Rattle.branch_shared.specs.Crashes.{AreSure, IsSafe, IsSharedAt};
ghost use Rattle.branch_shared.specs.Names.{IsNamed};
ghost use Rattle.branch_shared.specs.Passes.{seen_by, IsSeenOn, KnowsMoments, LandedAt, LandRefusedAt, BatchRefusedAt, ForkedAt, ForkRefusedAt, AnsweredAt};
ghost use Rattle.branch_shared.specs.Spelled.{LandsSpelled};

use crate::blank::Blank;
use crate::job::{Given, Job, Landing};
use crate::kept::Kept;
use crate::name::{EntryOf, Named};
use crate::pass::Pass;
use crate::room::Room;
use crate::rounds::Rounds;
use crate::spelled::spells_landings;
use branch_address::Address;
use branch_batch::{Queue, Ticket};
use branch_disk::Disk;
use branch_front::Front;
use branch_names::Name;
use mrdt_model::{Memory, Mrdt};
use std::alloc::Global;
use std::marker::{Model, PhantomData};
use std::sync::{Mutex, MutexGuard, Wait};
use store_core::{
    Addressed, Core, DropRefused, ForkRefused, Forked, Group, LandRefused, Landed, LookRefused,
    Pair, PairRefused, Prepared, Seen,
};

// The jobs that wait to be landed together.
type Line<T, A, N> = Queue<Job<T, A>, Given<T, N>, Landing<T, A, N>>;

// The right to what comes back for a job.
type Claim<T, A, N> = Ticket<Job<T, A>, Given<T, N>, Landing<T, A, N>>;

/// A store that threads share by reference. What it began with, its terms and the number of its parts are those that N
/// names. Contracts see the front's `Opening`.
///
/// `look`, `pair`, `group`, `land`, `fork` and `drop_branch` wait for the one lock, and do under it what one event of the
/// store is; `land_batched` waits for it too, or for another caller who holds it and lands its move with others. After each
/// of them, refused or not, the pass has seen a beginning of the one history, no shorter than the one that it had seen, and
/// the answer is the machine's there. That this is all of the history up to the call is how the code goes: no contract can
/// say it of callers that never met.
///
/// The lock is held to find names, to compare and move heads, to copy the bytes of a new commit behind the others, for
/// the calls of the disk, and to hash the commit's own few bytes. What else takes time with the length of a value is done
/// outside of it: applying and merging, spelling, and hashing the value that a landing brings.
#[derive(Drop)]
pub struct Shared<T: Mrdt, D: Disk + Drop, A: Address, N: Named<T::Op, T::Reply>> {
    alloc: Global,
    front: Front<EntryOf<T>>,
    kept: Mutex<Kept<T, D, A, N>>,
    queue: Line<T, A, N>,
    rounds: Rounds,
    begun: u64,
}

impl<T: Mrdt, D: Disk + Drop, A: Address, N: Named<T::Op, T::Reply>> Model for Shared<T, D, A, N> {
    ghost use Rattle.std.specs.Prelude.{◌≡◌, length};
    ghost use Rattle.branch_front.specs.Views.{Opening};
    ghost use Rattle.branch_shared.specs.Keeps.{front_of};

    ghost Value = { Opening };

    ghost view = { λ s. s.front };

    ghost invariant = { λ s. (s.front ≡ front_of N.table N.begun N.parts)
        × (s.begun ≡ length N.begun) };
}

/// What is left of a shared store.
#[derive(Drop)]
pub struct Closed<T: Mrdt, D: Disk + Drop, A: Address> {
    /// The core, with the moves of all callers.
    pub core: Core<T, D, A>,
    /// How many moves landed since the store was shared.
    pub landed: u64,
    /// How many of them the last pass, and those that left into it, landed.
    pub receipts: u64,
}

impl<T: Mrdt, D: Disk + Drop, A: Address, N: Named<T::Op, T::Reply>> Shared<T, D, A, N> {
    /// The store under its name, and the pass that holds all parts. The name also says which moment of the disk this is,
    /// and what a crash might have left until then.
    pub fn new(blank: Blank<T, D, A>) -> (Shared<T, D, A, N>, Pass<T, N>)
        requires name { IsNamed blank N.table N.queue N.begun N.terms N.parts N.opened }
        requires since { IsSharedAt D.Disk N.since N.left blank.core }
        ensures { result.1 ≡ record {
          moves = blank.core.history;
          sure = [];
          mine = [];
          others = [];
          faults = faults_since D.faults blank.core;
          parts = blank.parts;
          receipts = 0;
        } }
    {
        let Blank {
            alloc,
            core,
            front,
            mut writer,
            begun,
            queue,
        } = blank;
        // Its clauses say what is known of a core.
        let _ = core.moves();
        let pass = writer.first(&front);
        let kept = Kept {
            core,
            writer,
            of: PhantomData,
        };
        let shared = Shared {
            alloc,
            front,
            kept: Mutex::new(kept),
            queue: Queue::new(queue),
            rounds: Rounds::new(),
            begun,
        };
        let pass = Pass {
            pass,
            of: PhantomData,
        };
        (shared, pass)
    }

    /// A new pass with some of the parts of another, which has seen as much and has landed nothing.
    pub fn enter(&self, from: &mut Pass<T, N>, parts: u64) -> Pass<T, N>
        requires parts { (0 < parts) × (parts < from.old.parts) }
        ensures from { from.new ≡ record from.old { parts = from.old.parts - parts } }
        ensures entered { result ≡ record from.old {
          mine = [];
          others = [];
          parts = parts;
          receipts = 0;
        } }
        ensures begun { IsPrefix N.begun result.moves }
    {
        Pass {
            pass: from.pass.split_off(&self.front, parts),
            of: PhantomData,
        }
    }

    /// Looks at the branch with a name, also where the disk has failed. `UnknownBranch` comes exactly where no branch has
    /// the name.
    pub fn look<R: Wait>(
        &self,
        rt: &R,
        pass: &mut Pass<T, N>,
        branch: &Name,
    ) -> Result<Seen<T>, LookRefused>
        ensures prefix { IsPrefix pass.old.moves pass.new.moves }
        ensures sure { KnowsMoments N.begun pass.old pass.new }
        ensures begun { IsPrefix N.begun pass.new.moves }
        ensures valid { IsFullyValid (fix T.meaning N.terms A.address) pass.new.moves }
        ensures faults { pass.old.faults ≤ pass.new.faults }
        ensures rest { IsSeenOn pass.old pass.new }
        ensures on { IfOk result (λ seen. (seen.history ≡ pass.new.moves)
            × (seen.terms ≡ N.terms)) }
        ensures sees { IfOk result (λ seen.
            turn T.meaning N.terms pass.new.moves (machine.Look branch.now)
            ≡ answers (machine.Sees seen.branch seen.head)) }
        ensures refused { IfErr result
            (LookRefusedAs T.meaning (seen_by pass.new N.terms) branch.now) }
    {
        self.visit(rt).look(&self.front, pass, branch)
    }

    /// Pairs a look, taken now or earlier, with the head that a branch has now, also where the disk has failed.
    /// `UnknownBranch` comes exactly where no branch has the name.
    pub fn pair<R: Wait>(
        &self,
        rt: &R,
        pass: &mut Pass<T, N>,
        seen: &Seen<T>,
        from: &Name,
    ) -> Result<Pair<T>, PairRefused>
        requires history { IsPrefix seen.now.history pass.old.moves }
        requires terms { seen.now.terms ≡ N.terms }
        ensures prefix { IsPrefix pass.old.moves pass.new.moves }
        ensures sure { KnowsMoments N.begun pass.old pass.new }
        ensures begun { IsPrefix N.begun pass.new.moves }
        ensures valid { IsFullyValid (fix T.meaning N.terms A.address) pass.new.moves }
        ensures faults { pass.old.faults ≤ pass.new.faults }
        ensures rest { IsSeenOn pass.old pass.new }
        ensures paired { IfOk result
            (IsPaired T.meaning (seen_by pass.new N.terms) seen.now from.now) }
        ensures refused { IfErr result
            (PairRefusedAs T.meaning (seen_by pass.new N.terms) from.now) }
    {
        self.visit(rt).pair(&self.front, pass, seen, from)
    }

    /// Groups a look, taken now or earlier, with the heads that one to eight branches have now, also where the disk has
    /// failed. `UnknownBranch` comes exactly where no branch has one of the names, and tells the first such one.
    pub fn group<R: Wait>(
        &self,
        rt: &R,
        pass: &mut Pass<T, N>,
        seen: &Seen<T>,
        from: &[Name],
    ) -> Result<Group<T>, PairRefused>
        requires history { IsPrefix seen.now.history pass.old.moves }
        requires terms { seen.now.terms ≡ N.terms }
        requires some { 1 ≤ length from.now }
        requires few { length from.now ≤ 8 }
        ensures prefix { IsPrefix pass.old.moves pass.new.moves }
        ensures sure { KnowsMoments N.begun pass.old pass.new }
        ensures begun { IsPrefix N.begun pass.new.moves }
        ensures valid { IsFullyValid (fix T.meaning N.terms A.address) pass.new.moves }
        ensures faults { pass.old.faults ≤ pass.new.faults }
        ensures rest { IsSeenOn pass.old pass.new }
        ensures grouped { IfOk result
            (IsGrouped T.meaning (seen_by pass.new N.terms) seen.now from.now) }
        ensures refused { IfErr result
            (GroupRefusedAs T.meaning (seen_by pass.new N.terms) from.now) }
    {
        self.visit(rt).group(&self.front, pass, seen, from)
    }

    /// Lands what was prepared on a look, now or earlier. After `Ok` the last move that the pass has seen is this one.
    /// It is refused exactly as the machine refuses it on the history that the pass has seen then, or where the disk fails
    /// or has failed. The value that it brings is spelled as it was prepared.
    ///
    /// The object of the new value is spelled and hashed before the lock is waited for, in memory of its own; only where
    /// that is short, it is hashed under the lock. Under the lock the heads are compared, the new bytes are copied, the
    /// commit's own few bytes are hashed, and the disk is called.
    pub fn land<R: Wait>(
        &self,
        rt: &R,
        pass: &mut Pass<T, N>,
        prepared: Prepared<T>,
    ) -> Result<Landed<T::Reply>, LandRefused>
        requires history { IsPrefix prepared.seen.history pass.old.moves }
        requires terms { prepared.seen.terms ≡ N.terms }
        requires allowed { AllowsWork N.allows prepared.seen.branch prepared.work }
        ensures prefix { IsPrefix pass.old.moves pass.new.moves }
        ensures sure { KnowsMoments N.begun pass.old pass.new }
        ensures begun { IsPrefix N.begun pass.new.moves }
        ensures valid { IsFullyValid (fix T.meaning N.terms A.address) pass.new.moves }
        ensures faults { pass.old.faults ≤ pass.new.faults }
        ensures parts { pass.new.parts ≡ pass.old.parts }
        ensures landed { IfOk result (λ landed.
            LandedAt (fix T.meaning N.terms A.address) prepared pass.old pass.new landed.moves
            landed.kind) }
        ensures spelled { OnOk result
            (LandsSpelled (fix T.meaning N.terms A.address) prepared pass.new.moves) }
        ensures refused { IfErr result
            (LandRefusedAt (fix T.meaning N.terms A.address) N.opened prepared pass.old pass.new) }
        ensures rest { OnErr result (IsSeenOn pass.old pass.new) }
        ensures quiet { result ≢ Err LandRefused.DiskFault
            → ((moves : ℕ) → result ≢ Err (LandRefused.Failed moves)) → pass.new.faults ≡ 0 }
    {
        spells_landings::<T, A>(&prepared);
        let prepared = Addressed::new(self.alloc, prepared);
        self.visit(rt).land(&self.front, pass, prepared)
    }

    /// Lands what was prepared on a look, as `land` does, but together with the landings of other callers who wait too: one
    /// of them lands all, at most 64, with one write of their records. After `Ok` the last move that the pass has seen is
    /// its own, though others may have landed behind it in the same batch. It is refused exactly as the machine refuses it
    /// on the history that the pass has seen then; where the disk fails or has failed, it is so for all of a batch. The value
    /// that it brings is spelled as it was prepared.
    ///
    /// A part of the pass goes with the move, and comes back with the answer. Where memory for the queue is short, the move
    /// is landed alone.
    pub fn land_batched<R: Wait>(
        &self,
        rt: &R,
        pass: &mut Pass<T, N>,
        prepared: Prepared<T>,
    ) -> Result<Landed<T::Reply>, LandRefused>
        requires parts { 1 < pass.old.parts }
        requires history { IsPrefix prepared.seen.history pass.old.moves }
        requires terms { prepared.seen.terms ≡ N.terms }
        requires allowed { AllowsWork N.allows prepared.seen.branch prepared.work }
        ensures prefix { IsPrefix pass.old.moves pass.new.moves }
        ensures sure { KnowsMoments N.begun pass.old pass.new }
        ensures begun { IsPrefix N.begun pass.new.moves }
        ensures valid { IsFullyValid (fix T.meaning N.terms A.address) pass.new.moves }
        ensures faults { pass.old.faults ≤ pass.new.faults }
        ensures parts { pass.new.parts ≡ pass.old.parts }
        ensures landed { IfOk result (λ landed.
            LandedAt (fix T.meaning N.terms A.address) prepared pass.old pass.new landed.moves
            landed.kind) }
        ensures spelled { OnOk result
            (LandsSpelled (fix T.meaning N.terms A.address) prepared pass.new.moves) }
        ensures refused { IfErr result
            (BatchRefusedAt (fix T.meaning N.terms A.address) N.opened prepared pass.old
            pass.new) }
        ensures rest { OnErr result (IsSeenOn pass.old pass.new) }
        ensures quiet { result ≢ Err LandRefused.DiskFault
            → ((moves : ℕ) → result ≢ Err (LandRefused.Failed moves)) → pass.new.faults ≡ 0 }
    {
        spells_landings::<T, A>(&prepared);
        let prepared = Addressed::new(self.alloc, prepared);
        let part = pass.pass.split_off(&self.front, 1);
        let given = self.land_together(
            rt,
            Job {
                prepared,
                pass: part,
            },
        );
        let Given { pass: part, answer } = given;
        pass.pass.adopt(&self.front, part.pass);
        answer
    }

    // What lies under the lock, for a caller who leads no round: whoever is about to lead one lets it go first.
    fn visit<R: Wait>(&self, rt: &R) -> MutexGuard<'_, Kept<T, D, A, N>> {
        self.rounds.come();
        let kept = self.kept.lock(rt);
        self.rounds.go_in();
        kept
    }

    // Lands a job together with those of others, or alone where memory for the queue is short.
    fn land_together<R: Wait>(&self, rt: &R, job: Job<T, A>) -> Given<T, N>
        requires may { MayLand N.table N.begun N.terms N.allows job }
        ensures { Serves (fix T.meaning N.terms A.address) N.opened N.begun job result }
    {
        match self.queue.put(rt, job) {
            Ok(claim) => self.await_answer(rt, claim),
            Err(job) => self.visit(rt).land_alone(&self.front, job),
        }
    }

    // What comes back for a job: the caller looks for it, and leads a round or waits for one where it is not there.
    fn await_answer<R: Wait>(&self, rt: &R, claim: Claim<T, A, N>) -> Given<T, N>
        requires may { MayLand N.table N.begun N.terms N.allows claim.job }
        ensures { Serves (fix T.meaning N.terms A.address) N.opened N.begun claim.job result }
    {
        let mut claim = claim;
        for _ in rt.forever() {
            match self.turn(rt, claim) {
                Ok(given) => return given,
                Err(back) => claim = back,
            }
        }
        unreachable!()
    }

    // One turn: what came back for the job, if it is done, and else the claim to it, behind a round that some caller led.
    fn turn<R: Wait>(&self, rt: &R, claim: Claim<T, A, N>) -> Result<Given<T, N>, Claim<T, A, N>>
        requires may { MayLand N.table N.begun N.terms N.allows claim.job }
        ensures serves { IfOk result
            (Serves (fix T.meaning N.terms A.address) N.opened N.begun claim.job) }
        ensures back { IfErr result (λ back. back ≡ claim) }
    {
        let ended = self.rounds.ended(rt);
        match self.queue.take_out(rt, claim) {
            Ok(given) => Ok(given),
            Err(claim) => self.lead_or_wait(rt, claim, ended),
        }
    }

    // Leads a round where nobody does, or waits until one is over that was not when so many were.
    fn lead_or_wait<R: Wait>(
        &self,
        rt: &R,
        claim: Claim<T, A, N>,
        ended: u64,
    ) -> Result<Given<T, N>, Claim<T, A, N>>
        requires may { MayLand N.table N.begun N.terms N.allows claim.job }
        ensures serves { IfOk result
            (Serves (fix T.meaning N.terms A.address) N.opened N.begun claim.job) }
        ensures back { IfErr result (λ back. back ≡ claim) }
    {
        match self.rounds.try_lead() {
            Some(lead) => {
                let answer = self.lead(rt, claim);
                self.rounds.end(rt, lead);
                answer
            }
            None => {
                self.rounds.wait(rt, ended);
                Err(claim)
            }
        }
    }

    // Under the store's lock: what has come back for the job, or else the next batch is landed, the job in it.
    fn lead<R: Wait>(&self, rt: &R, claim: Claim<T, A, N>) -> Result<Given<T, N>, Claim<T, A, N>>
        requires may { MayLand N.table N.begun N.terms N.allows claim.job }
        ensures serves { IfOk result
            (Serves (fix T.meaning N.terms A.address) N.opened N.begun claim.job) }
        ensures back { IfErr result (λ back. back ≡ claim) }
    {
        self.rounds.let_in();
        let mut kept = self.kept.lock(rt);
        match self.queue.take_out(rt, claim) {
            Ok(given) => Ok(given),
            Err(claim) => self.land_next(rt, &mut kept, claim),
        }
    }

    // Lands the next batch, and gives back what serves its jobs. Where memory is short, the own job is landed alone.
    fn land_next<R: Wait>(
        &self,
        rt: &R,
        kept: &mut Kept<T, D, A, N>,
        claim: Claim<T, A, N>,
    ) -> Result<Given<T, N>, Claim<T, A, N>>
        requires may { MayLand N.table N.begun N.terms N.allows claim.job }
        ensures serves { IfOk result
            (Serves (fix T.meaning N.terms A.address) N.opened N.begun claim.job) }
        ensures back { IfErr result (λ back. back ≡ claim) }
    {
        match Room::new(self.alloc) {
            Ok(room) => Err(self.land_taken(rt, kept, room, claim)),
            Err(Memory) => self.land_withdrawn(rt, kept, claim),
        }
    }

    // Takes the next batch, lands it, and gives back what serves its jobs.
    fn land_taken<R: Wait>(
        &self,
        rt: &R,
        kept: &mut Kept<T, D, A, N>,
        room: Room<T, A, N>,
        claim: Claim<T, A, N>,
    ) -> Claim<T, A, N>
        requires jobs { (room.jobs.items ≡ []) × (64 ≤ vec_capacity room.jobs) }
        requires taken { (room.taken.items ≡ []) × (64 ≤ vec_capacity room.taken) }
        requires prepared { (room.prepared.items ≡ []) × (64 ≤ vec_capacity room.prepared) }
        requires done { (room.done.items ≡ []) × (64 ≤ vec_capacity room.done) }
        ensures back { result ≡ claim }
    {
        let mut room = room;
        self.queue.take(rt, &claim, &mut room.jobs);
        let done = kept.land_batch(&self.front, room);
        self.queue.give(rt, done);
        claim
    }

    // Lands the claim's job alone, if it still waits.
    fn land_withdrawn<R: Wait>(
        &self,
        rt: &R,
        kept: &mut Kept<T, D, A, N>,
        claim: Claim<T, A, N>,
    ) -> Result<Given<T, N>, Claim<T, A, N>>
        requires may { MayLand N.table N.begun N.terms N.allows claim.job }
        ensures serves { IfOk result
            (Serves (fix T.meaning N.terms A.address) N.opened N.begun claim.job) }
        ensures back { IfErr result (λ back. back ≡ claim) }
    {
        match self.queue.withdraw(rt, claim) {
            Ok(job) => Ok(kept.land_alone(&self.front, job)),
            Err(claim) => Err(claim),
        }
    }

    /// Forks a new branch from the head that another has now. After `Ok` the last move that the pass has seen is this one.
    /// It is refused exactly as the machine refuses it on the history that the pass has seen then, or where the disk fails
    /// or has failed.
    pub fn fork<R: Wait>(
        &self,
        rt: &R,
        pass: &mut Pass<T, N>,
        new: Name,
        from: &Name,
    ) -> Result<Forked, ForkRefused>
        requires allowed { (number source : ℕ) → N.allows (move.Fork new number source) }
        ensures prefix { IsPrefix pass.old.moves pass.new.moves }
        ensures sure { KnowsMoments N.begun pass.old pass.new }
        ensures begun { IsPrefix N.begun pass.new.moves }
        ensures valid { IsFullyValid (fix T.meaning N.terms A.address) pass.new.moves }
        ensures faults { pass.old.faults ≤ pass.new.faults }
        ensures parts { pass.new.parts ≡ pass.old.parts }
        ensures forked { IfOk result
            (ForkedAt (fix T.meaning N.terms A.address) new from.now pass.old pass.new) }
        ensures refused { IfErr result
            (ForkRefusedAt (fix T.meaning N.terms A.address) N.opened new from.now pass.old
            pass.new) }
        ensures rest { OnErr result (IsSeenOn pass.old pass.new) }
        ensures quiet { result ≢ Err ForkRefused.DiskFault
            → ((moves : ℕ) → result ≢ Err (ForkRefused.Failed moves)) → pass.new.faults ≡ 0 }
    {
        self.visit(rt).fork(&self.front, pass, new, from)
    }

    /// Drops the branch of a look, taken now or earlier, from the head that was seen, and says how many moves the history
    /// then has. After `Ok` the last move that the pass has seen is this one. It is refused exactly as the machine refuses
    /// it on the history that the pass has seen then, or where the disk fails or has failed.
    pub fn drop_branch<R: Wait>(
        &self,
        rt: &R,
        pass: &mut Pass<T, N>,
        seen: &Seen<T>,
    ) -> Result<u64, DropRefused>
        requires allowed { N.allows (move.Drop seen.now.branch) }
        requires history { IsPrefix seen.now.history pass.old.moves }
        requires terms { seen.now.terms ≡ N.terms }
        ensures prefix { IsPrefix pass.old.moves pass.new.moves }
        ensures sure { KnowsMoments N.begun pass.old pass.new }
        ensures begun { IsPrefix N.begun pass.new.moves }
        ensures valid { IsFullyValid (fix T.meaning N.terms A.address) pass.new.moves }
        ensures faults { pass.old.faults ≤ pass.new.faults }
        ensures parts { pass.new.parts ≡ pass.old.parts }
        ensures answered { AnsweredAt (fix T.meaning N.terms A.address) N.opened pass.old pass.new
            (machine.Drop seen.now.branch seen.now.head) (drop_answer seen.now result) }
    {
        self.visit(rt).drop_branch(&self.front, pass, seen)
    }

    /// A pass ends in another, which has then seen what either had, and claims what either did. Answers how many moves the
    /// pass, and those that left into it, landed.
    pub fn leave(&self, pass: Pass<T, N>, into: &mut Pass<T, N>) -> u64
        ensures receipts { result ≡ pass.receipts }
        ensures into { into.new ≡ record into.old {
          moves = longer into.old.moves pass.moves;
          sure = longer into.old.sure pass.sure;
          others = into.old.others ++ (pass.mine ++ pass.others);
          faults = max into.old.faults pass.faults;
          parts = into.old.parts + pass.parts;
          receipts = into.old.receipts + pass.receipts;
        } }

        // The longer of the two lists begins with both.
        ensures this { IsPrefix into.old.moves into.new.moves }
        ensures that { IsPrefix pass.moves into.new.moves }
        ensures sure { KnowsMoments N.begun into.old into.new }
        ensures theirs { KnowsMoments N.begun pass into.new }

        // No move is claimed twice, and none was claimed by both.
        ensures once { AreDistinct (into.new.mine ++ into.new.others) }
        ensures apart { AreApart (into.old.mine ++ into.old.others) (pass.mine ++ pass.others) }
    {
        let Pass { pass, of: _ } = pass;
        let receipts = pass.receipts();
        into.pass.join(&self.front, pass);
        receipts
    }

    /// The core, where no pass is at hand. Of what passes have seen, and of what callers were told, nothing is said then:
    /// `close_with` says it.
    ///
    /// At each moment since the store was shared, a crash leaves a beginning of its history that has all moves that it
    /// began with. Once the disk has failed, more moves may stand behind the history, at most 64: those of the one call
    /// that failed. They are valid there, and the store's name allows them. Of a run of callers that never ends nothing is
    /// said.
    pub fn close(self) -> Core<T, D, A>
        ensures history { IsPrefix N.begun result.history }
        ensures terms { result.terms ≡ N.terms }
        ensures opened { D.faults result.opened ≡ N.opened }
        ensures crashes { IsSafe D.Disk (fix T.meaning N.terms A.address) N.since N.left N.begun
            N.allows result }
    {
        let Shared {
            alloc: _,
            front: _,
            kept,
            queue: _,
            rounds: _,
            begun: _,
        } = self;
        let Kept {
            core,
            writer: _,
            of: _,
        } = kept.into_inner();
        core
    }

    /// The core, how many moves landed since the store was shared, and how many of them the last pass, and those that
    /// left into it, landed: all, where it holds all parts, and then it claims each of them, once. The store's name allows
    /// each of these moves. What a crash leaves is as after `close`.
    ///
    /// Each move that the last pass has seen, since the store was shared, is in what a crash leaves at each moment since the
    /// one at which it was acknowledged, with all moves before it. The pass knew this moment when the call that landed the
    /// move returned, and the moment has come whenever the store is closed.
    pub fn close_with(self, last: Pass<T, N>) -> Closed<T, D, A>
        ensures history { IsPrefix last.moves result.core.history }
        ensures begun { IsPrefix N.begun result.core.history }
        ensures terms { result.core.terms ≡ N.terms }
        ensures opened { D.faults result.core.opened ≡ N.opened }
        ensures crashes { IsSafe D.Disk (fix T.meaning N.terms A.address) N.since N.left N.begun
            N.allows result.core }
        ensures sure { AreSure D.Disk (fix T.meaning N.terms A.address) N.begun last.moves last.sure
            result.core.disk }
        ensures faults { last.faults ≤ faults_since D.faults result.core }
        ensures allowed { GrowsBy N.allows N.begun result.core.history }
        ensures landed { length N.begun + result.landed ≡ length result.core.history }
        ensures receipts { result.receipts ≡ last.receipts }
        ensures all { last.parts ≡ N.parts → result.receipts ≡ result.landed }
        ensures counted { result.receipts ≡ length (last.mine ++ last.others) }
        ensures every { last.parts ≡ N.parts → AreAllWithin (length N.begun)
            (last.mine ++ last.others) (length result.core.history) }

        // It claims moves that landed, each once.
        ensures claims { AreSomeWithin (length N.begun) (last.mine ++ last.others)
            (length result.core.history) }
    {
        let Shared {
            alloc: _,
            front,
            kept,
            queue: _,
            rounds: _,
            begun,
        } = self;
        let Kept {
            core,
            writer,
            of: _,
        } = kept.into_inner();
        let Pass { pass, of: _ } = last;
        let receipts = writer.close(&front, pass);
        let landed = core.moves() - begun;
        Closed {
            core,
            landed,
            receipts,
        }
    }
}
