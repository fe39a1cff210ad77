// What lies under the lock lands the jobs of a batch.
ghost use Rattle.std.specs.Prelude.{◌≡◌, ◌+◌, ◌≤◌, ◌<◌, ◌^◌, ◌++◌, length, map, take, Err, OnOk};
ghost use Rattle.std.specs.List.{AllByRecursion};
ghost use mathlib.Core.List.{IsPrefix};
ghost use Rattle.branch_front.specs.Views.{IsIdle};
ghost use Rattle.branch_machine.specs.Fixed.{fix};
ghost use Rattle.branch_shared.specs.Entries.{AreNoted, moments_of, moves_of};
ghost use Rattle.branch_shared.specs.Keeps.{faults_since, front_of};
ghost use Rattle.branch_shared.specs.Batches.{IsBehind, MayLand, Serves, answered, answered_all, bring, brings, brought, pass_of, seen_to, shortage, sure_after, told, with_refusal};

use crate::blank::note_faults;
use crate::job::{Given, Job, Taken, pass_again};
use crate::kept::{Kept, see};
use crate::name::{EntryOf, Named};
use crate::pass::Pass;
use branch_address::Address;
use branch_disk::Disk;
use branch_front::{Front, Told, Writer};
use branch_machine::laws::has_fully_valid_prefixes;
use mrdt_model::{Memory, Mrdt};
use std::marker::Brand;
use store_core::{Addressed, Core, LandRefused, Landed};

// What became of a job.
type Answer<T> = Result<Landed<<T as Mrdt>::Reply>, LandRefused>;

impl<T: Mrdt, D: Disk + Drop, A: Address, N: Named<T::Op, T::Reply>> Kept<T, D, A, N> {
    /// Lands the jobs that were taken, in order, each for its own pass: the pass is told at its place in the batch, so that
    /// it sees no move behind its own. All see first: only so is it known that what was prepared was made on a beginning
    /// of the history.
    pub(crate) fn land_all(
        &mut self,
        front: &Front<EntryOf<T>>,
        all: &mut [Taken<T, A, N>],
        prepared: Vec<Addressed<T, A>>,
    )
        requires front { front.now ≡ front_of N.table N.begun N.parts }
        requires few { length all.old ≤ 64 }
        requires prepared { prepared.items ≡ map (λ taken. taken.job.prepared) all.old }
        requires passes { AllByRecursion (λ taken.
            taken.given.pass ≡ pass_of N.begun taken.job.pass) all.old }
        requires may { AllByRecursion (λ taken. MayLand N.table N.begun N.terms N.allows taken.job) all.old }
        ensures { AllByRecursion (λ taken.
            Serves (fix T.meaning N.terms A.address) N.opened N.begun taken.job taken.given)
            all.new }
    {
        has_fully_valid_prefixes::<T>();
        // Its clauses say what is known of a core, here and behind the landings.
        let _ = self.core.moves();
        see_each(front, &mut self.writer, all, &self.core);
        match self.core.land_all_addressed(prepared) {
            Ok(answers) => {
                let _ = self.core.moves();
                note_faults(front, &mut self.writer, &self.core);
                answer_each(front, &mut self.writer, all, &self.core, answers.into_vec());
            }
            Err(Memory) => refuse_each(all, &self.core),
        }
    }

    /// Lands a job alone.
    pub(crate) fn land_alone(&mut self, front: &Front<EntryOf<T>>, job: Job<T, A>) -> Given<T, N>
        requires front { front.now ≡ front_of N.table N.begun N.parts }
        requires may { MayLand N.table N.begun N.terms N.allows job }
        ensures { Serves (fix T.meaning N.terms A.address) N.opened N.begun job result }
    {
        let Job { prepared, pass } = job;
        let mut pass = pass_again(pass);
        let answer = self.land(front, &mut pass, prepared);
        Given { pass, answer }
    }
}

// The job's pass sees the core's history.
fn see_one<T: Mrdt, D: Disk + Drop, A: Address, N: Named<T::Op, T::Reply>>(
    front: &Front<EntryOf<T>>,
    writer: &mut Writer<EntryOf<T>>,
    taken: &mut Taken<T, A, N>,
    core: &Core<T, D, A>,
)
    requires front { front.now ≡ front_of N.table N.begun N.parts }
    requires table { writer.old.table ≡ N.table }
    requires idle { IsIdle writer.old }
    requires history { core.now.history ≡ N.begun ++ moves_of writer.old.moves }
    requires known { writer.old.faults ≡ faults_since D.faults core.now }
    ensures writer { writer.new ≡ writer.old }
    ensures taken { taken.new ≡ seen_to (faults_since D.faults core.now) core.now.history
        (moments_of writer.old.moves) taken.old }
    ensures behind { IsBehind (faults_since D.faults core.now) core.now.history
        (moments_of writer.old.moves) taken.old.given.pass }
{
    see(front, writer, &mut taken.given.pass, core);
}

// Each job's pass sees the core's history.
fn see_each<T: Mrdt, D: Disk + Drop, A: Address, N: Named<T::Op, T::Reply>>(
    front: &Front<EntryOf<T>>,
    writer: &mut Writer<EntryOf<T>>,
    all: &mut [Taken<T, A, N>],
    core: &Core<T, D, A>,
)
    requires front { front.now ≡ front_of N.table N.begun N.parts }
    requires table { writer.old.table ≡ N.table }
    requires idle { IsIdle writer.old }
    requires history { core.now.history ≡ N.begun ++ moves_of writer.old.moves }
    requires known { writer.old.faults ≡ faults_since D.faults core.now }
    ensures writer { writer.new ≡ writer.old }
    ensures seen { all.new ≡ map (seen_to (faults_since D.faults core.now) core.now.history
        (moments_of writer.old.moves)) all.old }
    ensures behind { AllByRecursion (λ taken.
        IsBehind (faults_since D.faults core.now) core.now.history
        (moments_of writer.old.moves) taken.given.pass) all.old }
{
    for taken in all.iter_mut() {
        see_one(front, writer, taken, core);
    }
}

// The pass is told its answer: where that is a landing, the core's next move is its own.
fn tell<T: Mrdt, D: Disk + Drop, A: Address, N: Named<T::Op, T::Reply>>(
    front: &Front<EntryOf<T>>,
    writer: &mut Writer<EntryOf<T>>,
    pass: &mut Pass<T, N>,
    core: &Core<T, D, A>,
    answer: &Answer<T>,
)
    requires front { front.now ≡ front_of N.table N.begun N.parts }
    requires table { writer.old.table ≡ N.table }
    requires idle { IsIdle writer.old }
    requires known { IsPrefix (N.begun ++ moves_of writer.old.moves) core.now.history }
    requires more { length (N.begun ++ moves_of writer.old.moves) + brings answer.now
        ≤ length core.now.history }
    requires rise { writer.old.faults ≤ faults_since D.faults core.now }
    requires room { length core.now.history < 2 ^ 64 }
    ensures table { writer.new.table ≡ writer.old.table }
    ensures idle { IsIdle writer.new }
    ensures faults { writer.new.faults ≡ faults_since D.faults core.now }
    ensures history { N.begun ++ moves_of writer.new.moves
        ≡ take (length (N.begun ++ moves_of writer.old.moves) + brings answer.now)
        core.now.history }
    ensures noted { AreNoted (D.moment core.now.disk) writer.old.moves writer.new.moves }
    ensures sure { moments_of writer.new.moves
        ≡ sure_after (D.moment core.now.disk) (moments_of writer.old.moves) answer.now }
    ensures pass { pass.new ≡ told (faults_since D.faults core.now)
        (take (length (N.begun ++ moves_of writer.old.moves) + brings answer.now)
        core.now.history)
        (sure_after (D.moment core.now.disk) (moments_of writer.old.moves) answer.now)
        answer.now pass.old }
{
    tell_as::<T, D, A, N, Brand>(front, writer, pass, core, answer);
}

fn tell_as<T: Mrdt, D: Disk + Drop, A: Address, N: Named<T::Op, T::Reply>, E: Told<EntryOf<T>>>(
    front: &Front<EntryOf<T>>,
    writer: &mut Writer<EntryOf<T>>,
    pass: &mut Pass<T, N>,
    core: &Core<T, D, A>,
    answer: &Answer<T>,
)
    requires front { front.now ≡ front_of N.table N.begun N.parts }
    requires table { writer.old.table ≡ N.table }
    requires idle { IsIdle writer.old }
    requires entry { OnOk answer.now (length E.entry ≡ 1) }
    requires rise { writer.old.faults ≤ E.faults }
    requires room { OnOk answer.now (length N.begun + length writer.old.moves + 1 < 2 ^ 64) }
    ensures writer { writer.new ≡ record writer.old {
      moves = writer.old.moves ++ brought E.entry answer.now;
      faults = E.faults;
    } }
    ensures pass { pass.new ≡ told E.faults (N.begun ++ moves_of writer.new.moves)
        (moments_of writer.new.moves) answer.now pass.old }
{
    let _ = core;
    if answer.is_ok() {
        writer.add::<E>(front, &mut pass.pass);
    } else {
        writer.look::<E>(front, &mut pass.pass);
    }
}

// The job is answered at its place.
fn answer_one<T: Mrdt, D: Disk + Drop, A: Address, N: Named<T::Op, T::Reply>>(
    front: &Front<EntryOf<T>>,
    writer: &mut Writer<EntryOf<T>>,
    taken: &mut Taken<T, A, N>,
    core: &Core<T, D, A>,
    answer: Answer<T>,
)
    requires front { front.now ≡ front_of N.table N.begun N.parts }
    requires table { writer.old.table ≡ N.table }
    requires idle { IsIdle writer.old }
    requires known { IsPrefix (N.begun ++ moves_of writer.old.moves) core.now.history }
    requires more { length (N.begun ++ moves_of writer.old.moves) + brings answer
        ≤ length core.now.history }
    requires rise { writer.old.faults ≤ faults_since D.faults core.now }
    requires room { length core.now.history < 2 ^ 64 }
    ensures table { writer.new.table ≡ writer.old.table }
    ensures idle { IsIdle writer.new }
    ensures faults { writer.new.faults ≡ faults_since D.faults core.now }
    ensures history { N.begun ++ moves_of writer.new.moves
        ≡ take (length (N.begun ++ moves_of writer.old.moves) + brings answer)
        core.now.history }
    ensures noted { AreNoted (D.moment core.now.disk) writer.old.moves writer.new.moves }
    ensures sure { moments_of writer.new.moves
        ≡ sure_after (D.moment core.now.disk) (moments_of writer.old.moves) answer }
    ensures taken { taken.new ≡ answered (faults_since D.faults core.now)
        (take (length (N.begun ++ moves_of writer.old.moves) + brings answer) core.now.history)
        (sure_after (D.moment core.now.disk) (moments_of writer.old.moves) answer)
        answer taken.old }
{
    tell(front, writer, &mut taken.given.pass, core, &answer);
    taken.given.answer = answer;
}

// Each job is answered at its place: the writer adds the moves that it does not know yet, each for the job that it is of.
fn answer_each<T: Mrdt, D: Disk + Drop, A: Address, N: Named<T::Op, T::Reply>>(
    front: &Front<EntryOf<T>>,
    writer: &mut Writer<EntryOf<T>>,
    all: &mut [Taken<T, A, N>],
    core: &Core<T, D, A>,
    answers: Vec<Answer<T>>,
)
    requires front { front.now ≡ front_of N.table N.begun N.parts }
    requires table { writer.old.table ≡ N.table }
    requires idle { IsIdle writer.old }
    requires known { IsPrefix (N.begun ++ moves_of writer.old.moves) core.now.history }
    requires more { length (N.begun ++ moves_of writer.old.moves) + bring answers.items
        ≡ length core.now.history }
    requires each { length all.old ≡ length answers.items }
    requires rise { writer.old.faults ≡ faults_since D.faults core.now }
    requires room { length core.now.history < 2 ^ 64 }
    ensures table { writer.new.table ≡ writer.old.table }
    ensures idle { IsIdle writer.new }
    ensures faults { writer.new.faults ≡ faults_since D.faults core.now }
    ensures history { N.begun ++ moves_of writer.new.moves ≡ core.now.history }
    ensures noted { AreNoted (D.moment core.now.disk) writer.old.moves writer.new.moves }
    ensures answered { all.new ≡ answered_all (faults_since D.faults core.now) core.now.history
        (D.moment core.now.disk) (moments_of writer.old.moves)
        (length (N.begun ++ moves_of writer.old.moves)) answers.items all.old }
{
    let mut answers = answers.into_iter();
    for taken in all.iter_mut() {
        if let Some(answer) = answers.next() {
            answer_one(front, writer, taken, core, answer);
        }
    }
}

// Why no job lands where memory is short.
fn shortage_of<T: Mrdt, D: Disk + Drop, A: Address>(core: &Core<T, D, A>) -> LandRefused
    ensures { result ≡ shortage core.now }
{
    if core.has_failed() {
        LandRefused::Failed {
            moves: core.moves(),
        }
    } else {
        LandRefused::Memory
    }
}

// The job is refused.
fn refuse_one<T: Mrdt, A: Address, N: Named<T::Op, T::Reply>>(
    taken: &mut Taken<T, A, N>,
    why: LandRefused,
)
    ensures { taken.new ≡ with_refusal why taken.old }
{
    taken.given.answer = Err(why);
}

// Each job is refused, since memory is short.
fn refuse_each<T: Mrdt, D: Disk + Drop, A: Address, N: Named<T::Op, T::Reply>>(
    all: &mut [Taken<T, A, N>],
    core: &Core<T, D, A>,
)
    ensures { all.new ≡ map (with_refusal (shortage core.now)) all.old }
{
    for taken in all.iter_mut() {
        refuse_one(taken, shortage_of(core));
    }
}
