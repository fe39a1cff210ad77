// What lies under the lock.
ghost use Rattle.std.specs.Prelude.{ℕ, ◌≡◌, ◌≢◌, ◌+◌, ◌≤◌, ◌^◌, ◌∷◌, ◌++◌, [], length, true, false, Err, IfOk, IfErr, OnErr};
ghost use Rattle.std.specs.List.{AllByRecursion};
ghost use mathlib.Core.List.{IsPrefix};
ghost use Rattle.branch_io.specs.Causes.{Rose};
ghost use Rattle.branch_front.specs.Views.{IsIdle};
ghost use Rattle.branch_history.specs.declared.moves.Move.{Move};
ghost use Rattle.branch_history.specs.declared.moves.Move.TheVariants as move;
ghost use Rattle.branch_history.specs.Machine.{turn, answers};
ghost use Rattle.branch_history.specs.Steps as machine;
ghost use Rattle.branch_machine.specs.Fixed.{fix};
ghost use Rattle.branch_machine.specs.Validity.{IsFullyValid};
ghost use Rattle.store_seen.specs.Groups.{IsGrouped, GroupRefusedAs};
ghost use Rattle.store_seen.specs.Pairs.{IsPaired, PairRefusedAs};
ghost use Rattle.store_seen.specs.Turns.{LookRefusedAs};
ghost use Rattle.store_core.specs.Answers.{drop_answer};
ghost use Rattle.branch_shared.specs.Allowed.{AllowsWork};
ghost use Rattle.branch_shared.specs.Entries.{AreNoted, moments_of, moves_of};
ghost use Rattle.branch_shared.specs.Keeps.{faults_since, front_of};
ghost use Rattle.branch_shared.specs.Passes.{seen_by, IsSeenOn, KnowsMoments, LandedAt, LandRefusedAt, ForkedAt, ForkRefusedAt, AnsweredAt};

use crate::name::{EntryOf, Named};
use crate::pass::Pass;
use branch_address::Address;
use branch_disk::Disk;
use branch_front::{Front, Told, Writer};
use branch_names::Name;
use mrdt_model::Mrdt;
use std::marker::{Brand, Model, PhantomData};
use store_core::{
    Addressed, Core, DropRefused, ForkRefused, Forked, Group, LandRefused, Landed, LookRefused,
    Pair, PairRefused, Seen,
};

/// What lies under the lock of a shared store: its core, and the writer, which knows the core's history and faults.
/// Contracts see the core's `StoreView`.
#[derive(Drop)]
pub struct Kept<T: Mrdt, D: Disk + Drop, A: Address, N: Named<T::Op, T::Reply>> {
    pub(crate) core: Core<T, D, A>,
    pub(crate) writer: Writer<EntryOf<T>>,
    pub(crate) of: PhantomData<N>,
}

impl<T: Mrdt, D: Disk + Drop, A: Address, N: Named<T::Op, T::Reply>> Model for Kept<T, D, A, N> {
    ghost use Rattle.branch_history.specs.declared.moves.Move.{Move};
    ghost use Rattle.branch_machine.specs.Fixed.{fix};
    ghost use Rattle.store_core.specs.Views.{StoreView};
    ghost use Rattle.branch_shared.specs.Keeps.{IsKept};

    ghost Value = { StoreView (Move T.Op T.Reply) D };

    ghost view = { λ k. k.core };

    ghost invariant = { λ k.
        IsKept D.Disk (fix T.meaning N.terms A.address) N.table N.begun N.terms N.opened N.allows
        N.since N.left k.core k.writer };
}

impl<T: Mrdt, D: Disk + Drop, A: Address, N: Named<T::Op, T::Reply>> Kept<T, D, A, N> {
    /// Looks at the branch with a name, for the pass.
    pub(crate) fn look(
        &mut self,
        front: &Front<EntryOf<T>>,
        pass: &mut Pass<T, N>,
        branch: &Name,
    ) -> Result<Seen<T>, LookRefused>
        requires front { front.now ≡ front_of N.table N.begun N.parts }
        ensures prefix { IsPrefix pass.old.moves pass.new.moves }
        ensures sure { KnowsMoments N.begun pass.old pass.new }
        ensures begun { IsPrefix N.begun pass.new.moves }
        ensures valid { IsFullyValid (fix T.meaning N.terms A.address) pass.new.moves }
        ensures faults { pass.old.faults ≤ pass.new.faults }
        ensures rest { IsSeenOn pass.old pass.new }
        ensures on { IfOk result (λ seen. (seen.history ≡ pass.new.moves)
            × (seen.terms ≡ N.terms)) }
        ensures sees { IfOk result (λ seen.
            turn T.meaning N.terms pass.new.moves (machine.Look branch.now)
            ≡ answers (machine.Sees seen.branch seen.head)) }
        ensures refused { IfErr result
            (LookRefusedAs T.meaning (seen_by pass.new N.terms) branch.now) }
    {
        see(front, &mut self.writer, pass, &self.core);
        self.core.look(branch)
    }

    /// Pairs a look with the head that a branch has now, for the pass.
    pub(crate) fn pair(
        &mut self,
        front: &Front<EntryOf<T>>,
        pass: &mut Pass<T, N>,
        seen: &Seen<T>,
        from: &Name,
    ) -> Result<Pair<T>, PairRefused>
        requires front { front.now ≡ front_of N.table N.begun N.parts }
        requires history { IsPrefix seen.now.history pass.old.moves }
        requires terms { seen.now.terms ≡ N.terms }
        ensures prefix { IsPrefix pass.old.moves pass.new.moves }
        ensures sure { KnowsMoments N.begun pass.old pass.new }
        ensures begun { IsPrefix N.begun pass.new.moves }
        ensures valid { IsFullyValid (fix T.meaning N.terms A.address) pass.new.moves }
        ensures faults { pass.old.faults ≤ pass.new.faults }
        ensures rest { IsSeenOn pass.old pass.new }
        ensures paired { IfOk result
            (IsPaired T.meaning (seen_by pass.new N.terms) seen.now from.now) }
        ensures refused { IfErr result
            (PairRefusedAs T.meaning (seen_by pass.new N.terms) from.now) }
    {
        see(front, &mut self.writer, pass, &self.core);
        self.core.pair(seen, from)
    }

    /// Groups a look with the heads that branches have now, for the pass.
    pub(crate) fn group(
        &mut self,
        front: &Front<EntryOf<T>>,
        pass: &mut Pass<T, N>,
        seen: &Seen<T>,
        from: &[Name],
    ) -> Result<Group<T>, PairRefused>
        requires front { front.now ≡ front_of N.table N.begun N.parts }
        requires history { IsPrefix seen.now.history pass.old.moves }
        requires terms { seen.now.terms ≡ N.terms }
        requires some { 1 ≤ length from.now }
        requires few { length from.now ≤ 8 }
        ensures prefix { IsPrefix pass.old.moves pass.new.moves }
        ensures sure { KnowsMoments N.begun pass.old pass.new }
        ensures begun { IsPrefix N.begun pass.new.moves }
        ensures valid { IsFullyValid (fix T.meaning N.terms A.address) pass.new.moves }
        ensures faults { pass.old.faults ≤ pass.new.faults }
        ensures rest { IsSeenOn pass.old pass.new }
        ensures grouped { IfOk result
            (IsGrouped T.meaning (seen_by pass.new N.terms) seen.now from.now) }
        ensures refused { IfErr result
            (GroupRefusedAs T.meaning (seen_by pass.new N.terms) from.now) }
    {
        see(front, &mut self.writer, pass, &self.core);
        self.core.group(seen, from)
    }

    /// Lands what was prepared, for the pass. It sees first: only so is it known that what was prepared was made on a
    /// beginning of the history.
    pub(crate) fn land(
        &mut self,
        front: &Front<EntryOf<T>>,
        pass: &mut Pass<T, N>,
        prepared: Addressed<T, A>,
    ) -> Result<Landed<T::Reply>, LandRefused>
        requires front { front.now ≡ front_of N.table N.begun N.parts }
        requires history { IsPrefix prepared.seen.history pass.old.moves }
        requires terms { prepared.seen.terms ≡ N.terms }
        requires allowed { AllowsWork N.allows prepared.seen.branch prepared.work }
        ensures prefix { IsPrefix pass.old.moves pass.new.moves }
        ensures sure { KnowsMoments N.begun pass.old pass.new }
        ensures begun { IsPrefix N.begun pass.new.moves }
        ensures valid { IsFullyValid (fix T.meaning N.terms A.address) pass.new.moves }
        ensures faults { pass.old.faults ≤ pass.new.faults }
        ensures parts { pass.new.parts ≡ pass.old.parts }
        ensures landed { IfOk result (λ landed.
            LandedAt (fix T.meaning N.terms A.address) prepared pass.old pass.new landed.moves
            landed.kind) }
        ensures refused { IfErr result
            (LandRefusedAt (fix T.meaning N.terms A.address) N.opened prepared pass.old pass.new) }
        ensures rest { OnErr result (IsSeenOn pass.old pass.new) }
        ensures quiet { result ≢ Err LandRefused.DiskFault
            → ((moves : ℕ) → result ≢ Err (LandRefused.Failed moves)) → pass.new.faults ≡ 0 }
    {
        see(front, &mut self.writer, pass, &self.core);
        let outcome = self.core.land_addressed(prepared);
        if outcome.is_ok() {
            add(front, &mut self.writer, pass, &self.core);
        } else {
            see(front, &mut self.writer, pass, &self.core);
        }
        outcome
    }

    /// Forks a new branch from the head of another, for the pass.
    pub(crate) fn fork(
        &mut self,
        front: &Front<EntryOf<T>>,
        pass: &mut Pass<T, N>,
        new: Name,
        from: &Name,
    ) -> Result<Forked, ForkRefused>
        requires front { front.now ≡ front_of N.table N.begun N.parts }
        requires allowed { (number source : ℕ) → N.allows (move.Fork new number source) }
        ensures prefix { IsPrefix pass.old.moves pass.new.moves }
        ensures sure { KnowsMoments N.begun pass.old pass.new }
        ensures begun { IsPrefix N.begun pass.new.moves }
        ensures valid { IsFullyValid (fix T.meaning N.terms A.address) pass.new.moves }
        ensures faults { pass.old.faults ≤ pass.new.faults }
        ensures parts { pass.new.parts ≡ pass.old.parts }
        ensures forked { IfOk result
            (ForkedAt (fix T.meaning N.terms A.address) new from.now pass.old pass.new) }
        ensures refused { IfErr result
            (ForkRefusedAt (fix T.meaning N.terms A.address) N.opened new from.now pass.old
            pass.new) }
        ensures rest { OnErr result (IsSeenOn pass.old pass.new) }
        ensures quiet { result ≢ Err ForkRefused.DiskFault
            → ((moves : ℕ) → result ≢ Err (ForkRefused.Failed moves)) → pass.new.faults ≡ 0 }
    {
        see(front, &mut self.writer, pass, &self.core);
        let outcome = self.core.fork(new, from);
        if outcome.is_ok() {
            add(front, &mut self.writer, pass, &self.core);
        } else {
            see(front, &mut self.writer, pass, &self.core);
        }
        outcome
    }

    /// Drops the branch of a look, for the pass.
    pub(crate) fn drop_branch(
        &mut self,
        front: &Front<EntryOf<T>>,
        pass: &mut Pass<T, N>,
        seen: &Seen<T>,
    ) -> Result<u64, DropRefused>
        requires front { front.now ≡ front_of N.table N.begun N.parts }
        requires allowed { N.allows (move.Drop seen.now.branch) }
        requires history { IsPrefix seen.now.history pass.old.moves }
        requires terms { seen.now.terms ≡ N.terms }
        ensures prefix { IsPrefix pass.old.moves pass.new.moves }
        ensures sure { KnowsMoments N.begun pass.old pass.new }
        ensures begun { IsPrefix N.begun pass.new.moves }
        ensures valid { IsFullyValid (fix T.meaning N.terms A.address) pass.new.moves }
        ensures faults { pass.old.faults ≤ pass.new.faults }
        ensures parts { pass.new.parts ≡ pass.old.parts }
        ensures answered { AnsweredAt (fix T.meaning N.terms A.address) N.opened pass.old pass.new
            (machine.Drop seen.now.branch seen.now.head) (drop_answer seen.now result) }
    {
        see(front, &mut self.writer, pass, &self.core);
        let outcome = self.core.drop_branch(seen);
        if outcome.is_ok() {
            add(front, &mut self.writer, pass, &self.core);
        } else {
            see(front, &mut self.writer, pass, &self.core);
        }
        outcome
    }
}

// The pass sees the core's history, and the writer and the pass how often its disk has failed.
pub(crate) fn see<T: Mrdt, D: Disk + Drop, A: Address, N: Named<T::Op, T::Reply>>(
    front: &Front<EntryOf<T>>,
    writer: &mut Writer<EntryOf<T>>,
    pass: &mut Pass<T, N>,
    core: &Core<T, D, A>,
)
    requires front { front.now ≡ front_of N.table N.begun N.parts }
    requires table { writer.old.table ≡ N.table }
    requires idle { IsIdle writer.old }
    requires history { core.now.history ≡ N.begun ++ moves_of writer.old.moves }
    requires rise { writer.old.faults ≤ faults_since D.faults core.now }
    ensures writer { writer.new ≡ record writer.old { faults = faults_since D.faults core.now } }
    ensures pass { pass.new ≡ record pass.old {
      moves = core.now.history;
      sure = moments_of writer.old.moves;
      faults = faults_since D.faults core.now;
    } }
    ensures prefix { IsPrefix pass.old.moves core.now.history }
    ensures sure { IsPrefix pass.old.sure (moments_of writer.old.moves) }
    ensures knows { KnowsMoments N.begun pass.old pass.new }
    ensures faults { pass.old.faults ≤ writer.old.faults }
    ensures valid { IsFullyValid (fix T.meaning core.now.terms A.address) core.now.history }
    ensures later { D.faults core.now.opened ≤ D.faults core.now.disk }
    ensures caused { core.now.failed ≡ true
        → Rose (D.faults core.now.opened) (D.faults core.now.disk) }
    ensures quiet { core.now.failed ≡ false → D.faults core.now.disk ≡ D.faults core.now.opened }
{
    see_as::<T, D, A, N, Brand>(front, writer, pass, core);
}

fn see_as<T: Mrdt, D: Disk + Drop, A: Address, N: Named<T::Op, T::Reply>, E: Told<EntryOf<T>>>(
    front: &Front<EntryOf<T>>,
    writer: &mut Writer<EntryOf<T>>,
    pass: &mut Pass<T, N>,
    core: &Core<T, D, A>,
)
    requires front { front.now ≡ front_of N.table N.begun N.parts }
    requires table { writer.old.table ≡ N.table }
    requires idle { IsIdle writer.old }
    requires history { core.now.history ≡ N.begun ++ moves_of writer.old.moves }
    requires rise { writer.old.faults ≤ faults_since D.faults core.now }
    requires told { E.faults ≡ faults_since D.faults core.now }
    ensures writer { writer.new ≡ record writer.old { faults = faults_since D.faults core.now } }
    ensures pass { pass.new ≡ record pass.old {
      moves = core.now.history;
      sure = moments_of writer.old.moves;
      faults = faults_since D.faults core.now;
    } }
    ensures prefix { IsPrefix pass.old.moves core.now.history }
    ensures sure { IsPrefix pass.old.sure (moments_of writer.old.moves) }
    ensures knows { KnowsMoments N.begun pass.old pass.new }
    ensures faults { pass.old.faults ≤ writer.old.faults }
    ensures valid { IsFullyValid (fix T.meaning core.now.terms A.address) core.now.history }
    ensures later { D.faults core.now.opened ≤ D.faults core.now.disk }
    ensures caused { core.now.failed ≡ true
        → Rose (D.faults core.now.opened) (D.faults core.now.disk) }
    ensures quiet { core.now.failed ≡ false → D.faults core.now.disk ≡ D.faults core.now.opened }
{
    // Its clauses say what is known of a core.
    let _ = core.moves();
    writer.look::<E>(front, &mut pass.pass);
}

// The writer adds the core's last move, for the pass: now it is acknowledged.
fn add<T: Mrdt, D: Disk + Drop, A: Address, N: Named<T::Op, T::Reply>>(
    front: &Front<EntryOf<T>>,
    writer: &mut Writer<EntryOf<T>>,
    pass: &mut Pass<T, N>,
    core: &Core<T, D, A>,
)
    requires front { front.now ≡ front_of N.table N.begun N.parts }
    requires table { writer.old.table ≡ N.table }
    requires idle { IsIdle writer.old }
    requires grown { (made : Move T.Op T.Reply)
        × (core.now.history ≡ (N.begun ++ moves_of writer.old.moves) ++ made ∷ [])
        × N.allows made }
    requires allowed { AllByRecursion N.allows (moves_of writer.old.moves) }
    requires rise { writer.old.faults ≤ faults_since D.faults core.now }
    requires room { length core.now.history ≤ 2 ^ 48 }
    ensures table { writer.new.table ≡ writer.old.table }
    ensures history { core.now.history ≡ N.begun ++ moves_of writer.new.moves }
    ensures noted { AreNoted (D.moment core.now.disk) writer.old.moves writer.new.moves }
    ensures writer { (writer.new.faults ≡ faults_since D.faults core.now) × IsIdle writer.new }
    ensures allowed { AllByRecursion N.allows (moves_of writer.new.moves) }
    ensures pass { pass.new ≡ record pass.old {
      moves = core.now.history;
      sure = moments_of writer.new.moves;
      mine = pass.old.mine ++ length core.now.history ∷ [];
      faults = faults_since D.faults core.now;
      receipts = pass.old.receipts + 1;
    } }
    ensures knows { KnowsMoments N.begun pass.old pass.new }
    ensures valid { IsFullyValid (fix T.meaning core.now.terms A.address) core.now.history }
{
    add_as::<T, D, A, N, Brand>(front, writer, pass, core);
}

fn add_as<T: Mrdt, D: Disk + Drop, A: Address, N: Named<T::Op, T::Reply>, E: Told<EntryOf<T>>>(
    front: &Front<EntryOf<T>>,
    writer: &mut Writer<EntryOf<T>>,
    pass: &mut Pass<T, N>,
    core: &Core<T, D, A>,
)
    requires front { front.now ≡ front_of N.table N.begun N.parts }
    requires table { writer.old.table ≡ N.table }
    requires idle { IsIdle writer.old }
    requires entry { (length E.entry ≡ 1)
        × (core.now.history ≡ (N.begun ++ moves_of writer.old.moves) ++ moves_of E.entry) }
    requires rise { writer.old.faults ≤ faults_since D.faults core.now }
    requires told { E.faults ≡ faults_since D.faults core.now }
    requires room { length core.now.history ≤ 2 ^ 48 }
    ensures writer { writer.new ≡ record writer.old {
      moves = writer.old.moves ++ E.entry;
      faults = faults_since D.faults core.now;
    } }
    ensures pass { pass.new ≡ record pass.old {
      moves = core.now.history;
      sure = moments_of writer.new.moves;
      mine = pass.old.mine ++ length core.now.history ∷ [];
      faults = faults_since D.faults core.now;
      receipts = pass.old.receipts + 1;
    } }
    ensures knows { KnowsMoments N.begun pass.old pass.new }
    ensures valid { IsFullyValid (fix T.meaning core.now.terms A.address) core.now.history }
{
    // Its clauses say what is known of a core.
    let _ = core.moves();
    writer.add::<E>(front, &mut pass.pass);
}
