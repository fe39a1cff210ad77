// A history, its commits in memory, and its stored objects.
ghost use Rattle.std.specs.Prelude.{◌≡◌, ◌+◌, ◌<◌, ◌≤◌, All, false, ◌∷◌, [], ◌++◌, length, slice_get, Some, Ok, IfOk, IfErr, IfSome, OnOk, OnErr};
ghost use Rattle.std.specs.Option.{option_copied, option_map};
ghost use mathlib.Core.List.{IsPrefix};
ghost use Rattle.branch_io.specs.Causes.{HasCause};
ghost use Rattle.branch_disk.specs.Disk.{After, Holds, LeavesOnly, OnPart, Tells, Torn};
ghost use Rattle.branch_graph.specs.Graph.{reaches};
ghost use Rattle.branch_wire.specs.Objects.{commit_object};
ghost use Rattle.branch_wire.specs.StoredObjects.{first_with};
ghost use Rattle.branch_names.specs.Heads.{branch_named, is_dropped};
ghost use Rattle.branch_names.specs.declared.branch.Branch.{Branch};
ghost use Rattle.branch_history.specs.Commits.{graph_of, visible};
ghost use Rattle.branch_history.specs.History.{store_of};
ghost use Rattle.branch_history.specs.Machine.{turn, answers};
ghost use Rattle.branch_history.specs.Steps as machine;
ghost use Rattle.branch_machine.specs.Fixed.{fix};
ghost use Rattle.branch_machine.specs.Objects.{end_of, objects_of, objects_text, pairs_of, region};
ghost use Rattle.branch_machine.specs.Validity.{IsFullyValid};
ghost use Rattle.object_store.specs.Commits.{kept_spelling, root_fields, root_pair};
ghost use Rattle.object_store.specs.Images.{AllBegin, AllCome, Grows};
ghost use Rattle.store_seen.specs.Groups.{grouped_at, IsGrouped, GroupRefusedAs, IsStepOfAll, MergeAllRefusedAs};
ghost use Rattle.store_seen.specs.Pairs.{IsPaired, PairRefusedAs, paired_at, IsStepOf, MergeRefusedAs};
ghost use Rattle.store_seen.specs.Turns.{FromOn, LookRefusedAs};
ghost use Rattle.recorded_history.specs.Items.{lent_item};
ghost use Rattle.recorded_history.specs.Keeps.{CameBehind, IsBackAt};
ghost use Rattle.recorded_history.specs.Machine.{addresses_of, commit_of_address, Forks, LandsAs, LandsMore, Steps, IsRecordOf, place_answer, drop_answer, regions};
ghost use Rattle.recorded_history.specs.Refusals.{ForkRefusedAs, LandRefusedAs, LeavesPending};
ghost use Rattle.recorded_history.specs.Views.{core_of};

use crate::addressed::Addressed;
use crate::answers::{Branched, Dropped, LandRefused, Made};
use crate::items::{first_item, item_at};
use crate::staging::{record_for, stage};
use branch_address::Address;
use branch_disk::{Disk, DiskFailed, Part};
use branch_history::Move;
use branch_names::{Layout, Name, Terms};
use heads_journal::Record;
use mrdt_model::{Listing, Memory, Mrdt};
use object_store::Objects;
use std::alloc::Global;
use std::marker::Model;
use std::snapshot::Snapshot;
use store_seen::{
    DropRefused, ForkRefused, Group, LookRefused, Pair, PairPrepareRefused, PairRefused, PairStep,
    PlaceRefused, Seen, Versions,
};

/// A history with the bytes of its files. Contracts see a `RecordedView`: the moves that are written, those that were
/// made and are not written yet, and the terms.
#[derive(Drop)]
pub struct Recorded<T: Mrdt, A: Address> {
    pub(crate) alloc: Global,
    pub(crate) versions: Versions<T>,
    pub(crate) objects: Objects<A>,
    // What was there when no move was pending last.
    pub(crate) settled: Snapshot<Versions<T>>,
    // For each pending move, where its branch stood before it.
    pub(crate) stood: Vec<u32>,
}

impl<T: Mrdt, A: Address> Model for Recorded<T, A> {
    ghost use Rattle.branch_history.specs.declared.moves.Move.{Move};
    ghost use Rattle.recorded_history.specs.Views.{RecordedView, recorded_of};
    ghost use Rattle.recorded_history.specs.Keeps.{IsRecorded};

    ghost Value = { RecordedView (Move T.Op T.Reply) };

    ghost view = { λ r. recorded_of r.settled.value.core r.versions.core };

    ghost invariant = { λ r.
        IsRecorded T.meaning A.address (recorded_of r.settled.value.core r.versions.core)
        r.stood.items r.versions r.objects };
}

impl<T: Mrdt, A: Address> Recorded<T, A> {
    /// The empty history, with `main` at commit 0, whose objects stand in memory: `create` writes them.
    pub fn fresh(alloc: Global, terms: Terms) -> Result<Recorded<T, A>, Memory>
        ensures { IfOk result (λ recorded. recorded ≡ record {
          written = [];
          pending = [];
          terms = terms;
        }) }
    {
        let (objects, root) = first_objects::<T, A>(alloc, terms.layout)?;
        let versions = Versions::fresh(alloc, terms, root)?;
        Ok(Recorded {
            alloc,
            settled: Snapshot::of(&versions),
            versions,
            objects,
            stood: Vec::new(alloc),
        })
    }

    /// The allocator that it takes memory from.
    pub fn alloc(&self) -> Global {
        self.alloc
    }

    /// How many moves the history has, the pending ones counted. It is a valid history of a store that keeps objects.
    pub fn moves(&self) -> u64
        ensures moves { result ≡ length (self.now.written ++ self.now.pending) }
        ensures valid { IsFullyValid (fix T.meaning self.now.terms A.address)
            (self.now.written ++ self.now.pending) }
    {
        self.versions.moves()
    }

    /// The moves that are written, in order, where none is pending; they are lent.
    pub fn history(&self) -> &[Move<T::Op, T::Reply>]
        requires { self.now.pending ≡ [] }
        ensures { result.now ≡ self.now.written }
    {
        self.versions.history()
    }

    /// The moves that are written, in order, where none is pending. It takes no memory.
    pub fn into_moves(self) -> Listing<Move<T::Op, T::Reply>>
        requires { self.pending ≡ [] }
        ensures { result ≡ self.written }
    {
        self.versions.into_moves()
    }

    /// How many commits the store holds, commit 0 counted, and those of the pending moves.
    pub fn commits(&self) -> u32
        ensures { result
            ≡ length (store_of self.now.terms.origin
            (self.now.written ++ self.now.pending)).commits }
    {
        self.versions.commits()
    }

    /// How many branches the store holds, `main`, those that were dropped and those of the pending moves counted.
    pub fn branches(&self) -> u32
        ensures { result
            ≡ length (store_of self.now.terms.origin
            (self.now.written ++ self.now.pending)).branches }
    {
        self.versions.branches()
    }

    /// The terms that it was made under.
    pub fn terms(&self) -> Terms
        ensures { result ≡ self.now.terms }
    {
        self.versions.terms()
    }

    /// The name and the head of a branch, after the pending moves, of a dropped one those that it had; `None` exactly
    /// past the last branch. No other branch has the name of one that was not dropped.
    pub fn branch(&self, number: u32) -> Option<(Name, u32)>
        ensures named { IfSome result (λ found.
            is_dropped (store_of self.now.terms.origin
            (self.now.written ++ self.now.pending)).branches number ≡ false
            → branch_named
            (store_of self.now.terms.origin (self.now.written ++ self.now.pending)).branches found.0
            ≡ Some number) }
        ensures found { result ≡ option_map (λ (b : Branch).
            (b.name, b.head))
            (slice_get (store_of self.now.terms.origin
            (self.now.written ++ self.now.pending)).branches number) }
    {
        self.versions.branch(number)
    }

    /// Whether a branch was dropped.
    pub fn is_dropped(&self, number: u32) -> bool
        requires { number
            < length (store_of self.now.terms.origin
            (self.now.written ++ self.now.pending)).branches }
        ensures { result
            ≡ is_dropped (store_of self.now.terms.origin
            (self.now.written ++ self.now.pending)).branches number }
    {
        self.versions.is_dropped(number)
    }

    /// The value of a commit, where no move is pending; it is lent. It stands for the events that are visible there, and its
    /// spelling is theirs.
    pub fn value_at(&self, commit: u32) -> &T
        requires settled { self.now.pending ≡ [] }
        requires there { commit
            < length (store_of self.now.terms.origin self.now.written).commits }
        ensures stands { T.meaning.stands result.now
            (visible (store_of self.now.terms.origin self.now.written).commits commit) }
        ensures spelling { T.meaning.state_spelling result.now
            ≡ T.meaning.spelling_of
            (visible (store_of self.now.terms.origin self.now.written).commits commit) }
    {
        self.versions.value_at(commit)
    }

    /// What a commit answers to a query, now and however the history goes on, where no move is pending.
    pub fn ask_at(&self, commit: u32, query: &T::Query) -> Result<T::Answer, Memory>
        requires settled { self.now.pending ≡ [] }
        requires there { commit
            < length (store_of self.now.terms.origin self.now.written).commits }
        ensures { IfOk result (λ answer.
            FromOn T.meaning self.now.terms self.now.written (λ later.
            turn T.meaning self.now.terms later (machine.Ask commit query.now)
            ≡ answers (machine.Answered answer))) }
    {
        self.versions.ask_at(commit, query)
    }

    /// Looks at the branch with a name. `UnknownBranch` comes exactly where no branch has it, or it was dropped.
    pub fn look(&self, name: &Name) -> Result<Seen<T>, LookRefused>
        requires settled { self.now.pending ≡ [] }
        ensures on { IfOk result (λ seen. (seen.history ≡ self.now.written)
            × (seen.terms ≡ self.now.terms)) }
        ensures sees { IfOk result (λ seen.
            turn T.meaning self.now.terms self.now.written (machine.Look name.now)
            ≡ answers (machine.Sees seen.branch seen.head)) }
        ensures refused { IfErr result (LookRefusedAs T.meaning (core_of self.now) name.now) }
    {
        self.versions.look(name)
    }

    /// Pairs a look at this history, taken now or earlier, with the head that a branch has now. `UnknownBranch` comes
    /// exactly where no branch has the name. Where neither commit reaches the other, the pair is handed their base, which
    /// is made with the folds that are kept.
    pub fn pair(&mut self, seen: &Seen<T>, from: &Name) -> Result<Pair<T>, PairRefused>
        requires settled { self.old.pending ≡ [] }
        requires history { IsPrefix seen.now.history self.old.written }
        requires terms { seen.now.terms ≡ self.old.terms }
        ensures paired { IfOk result (IsPaired T.meaning (core_of self.old) seen.now from.now) }
        ensures refused { IfErr result (PairRefusedAs T.meaning (core_of self.old) from.now) }
        ensures same { self.new ≡ self.old }
    {
        self.versions.pair(seen, from)
    }

    /// Makes the merge of a commit ready to land on a look at this history, taken now or earlier: what a pair of the two
    /// prepares, with the folds that are kept.
    pub fn prepare_at(
        &mut self,
        seen: &Seen<T>,
        other: u32,
    ) -> Result<PairStep<T>, PairPrepareRefused>
        requires settled { self.old.pending ≡ [] }
        requires history { IsPrefix seen.now.history self.old.written }
        requires terms { seen.now.terms ≡ self.old.terms }
        requires there { other < length (store_of self.old.terms.origin self.old.written).commits }
        ensures step { IfOk result
            (IsStepOf T.meaning (paired_at (core_of self.old) seen.now other)) }
        ensures refused { IfErr result
            (MergeRefusedAs T.meaning (paired_at (core_of self.old) seen.now other)) }
        ensures same { self.new ≡ self.old }
    {
        self.versions.prepare_at(seen, other)
    }

    /// Pairs a look at this history, taken now or earlier, with a commit.
    pub fn pair_at(&self, seen: &Seen<T>, commit: u32) -> Result<Pair<T>, Memory>
        requires settled { self.now.pending ≡ [] }
        requires history { IsPrefix seen.now.history self.now.written }
        requires terms { seen.now.terms ≡ self.now.terms }
        requires there { commit < length (store_of self.now.terms.origin self.now.written).commits }
        ensures { IfOk result (λ pair. pair ≡ paired_at (core_of self.now) seen.now commit) }
    {
        self.versions.pair_at(seen, commit)
    }

    /// Groups a look at this history, taken now or earlier, with the heads that branches have now, of one to eight
    /// names. `UnknownBranch` comes exactly where one of them is no branch's, and names the first such.
    pub fn group(&self, seen: &Seen<T>, from: &[Name]) -> Result<Group<T>, PairRefused>
        requires settled { self.now.pending ≡ [] }
        requires history { IsPrefix seen.now.history self.now.written }
        requires terms { seen.now.terms ≡ self.now.terms }
        requires some { 1 ≤ length from.now }
        requires few { length from.now ≤ 8 }
        ensures grouped { IfOk result (IsGrouped T.meaning (core_of self.now) seen.now from.now) }
        ensures refused { IfErr result (GroupRefusedAs T.meaning (core_of self.now) from.now) }
    {
        self.versions.group(seen, from)
    }

    /// Makes the merge of a group that was grouped at this history ready to land: what the group prepares, with the folds
    /// that are kept.
    pub fn prepare_group(&mut self, group: &Group<T>) -> Result<PairStep<T>, PairPrepareRefused>
        requires settled { self.old.pending ≡ [] }
        requires history { group.now.history ≡ self.old.written }
        requires terms { group.now.terms ≡ self.old.terms }
        ensures step { IfOk result (IsStepOfAll T.meaning group.now) }
        ensures refused { IfErr result (MergeAllRefusedAs T.meaning group.now) }
        ensures same { self.new ≡ self.old }
    {
        self.versions.prepare_group(group)
    }

    /// Makes the merge of one to eight commits ready to land on a look at this history, taken now or earlier: what a
    /// group of them prepares, with the folds that are kept.
    pub fn prepare_all_at(
        &mut self,
        seen: &Seen<T>,
        others: &[u32],
    ) -> Result<PairStep<T>, PairPrepareRefused>
        requires settled { self.old.pending ≡ [] }
        requires history { IsPrefix seen.now.history self.old.written }
        requires terms { seen.now.terms ≡ self.old.terms }
        requires there { All (λ n.
            n < length (store_of self.old.terms.origin self.old.written).commits) others.now }
        requires some { 1 ≤ length others.now }
        requires few { length others.now ≤ 8 }
        ensures step { IfOk result
            (IsStepOfAll T.meaning (grouped_at (core_of self.old) seen.now others.now)) }
        ensures refused { IfErr result
            (MergeAllRefusedAs T.meaning (grouped_at (core_of self.old) seen.now others.now)) }
        ensures same { self.new ≡ self.old }
    {
        self.versions.prepare_all_at(seen, others)
    }

    /// The address of a commit's object; `None` exactly past the last commit. It takes no memory.
    pub fn address(&self, commit: u32) -> Option<[u8; 32]>
        requires settled { self.now.pending ≡ [] }
        ensures { result
            ≡ slice_get (addresses_of (fix T.meaning self.now.terms A.address) self.now.written)
            commit }
    {
        if commit < self.versions.commits() {
            Some(*self.versions.address(commit))
        } else {
            None
        }
    }

    /// The bytes of the two objects of a commit, that of its value, which is empty in the layout that keeps no values,
    /// and then its own; `None` exactly past the last commit. It takes no memory.
    pub fn item(&self, commit: u32) -> Option<(&[u8], &[u8])>
        requires settled { self.now.pending ≡ [] }
        ensures { lent_item result
            ≡ slice_get (pairs_of (fix T.meaning self.now.terms A.address)
            (store_of self.now.terms.origin self.now.written).commits) commit }
    {
        self.item_of(commit)
    }

    /// The bytes of the two objects of a commit, as `item` lends them, those of pending moves counted.
    pub(crate) fn item_of(&self, commit: u32) -> Option<(&[u8], &[u8])>
        ensures { lent_item result
            ≡ slice_get (pairs_of (fix T.meaning self.now.terms A.address)
            (store_of self.now.terms.origin (self.now.written ++ self.now.pending)).commits)
            commit }
    {
        if commit >= self.versions.commits() {
            return None;
        }
        match commit {
            0 => first_item(&self.objects, self.versions.terms().layout),
            _ => item_at(&self.objects, self.versions.address(commit)),
        }
    }

    /// The first of the stored objects that have an address; `None` exactly where none has it. It takes no memory.
    pub fn object(&self, address: &[u8; 32]) -> Option<&[u8]>
        requires settled { self.now.pending ≡ [] }
        ensures { option_copied result ≡ first_with A.address address.now
            (objects_of (fix T.meaning self.now.terms A.address) self.now.written) }
    {
        self.objects.get(address)
    }

    /// The first commit whose object has an address; `None` exactly where none has it. It takes no memory.
    pub fn commit_at(&self, address: &[u8; 32]) -> Option<u32>
        requires settled { self.now.pending ≡ [] }
        ensures { result ≡ commit_of_address (fix T.meaning self.now.terms A.address)
            self.now.written address.now }
    {
        self.versions.commit_at(address)
    }

    /// Keeps at most so many folds of bases from now on, for `prepare_at`. They are kept until `drop_folds`, or
    /// until a commit is undone.
    pub fn keep_folds(&mut self, limit: u32) -> Result<(), Memory>
        requires { 0 < limit }
        ensures { self.new ≡ self.old }
    {
        self.versions.keep_folds(limit)
    }

    /// Keeps no folds any more. It takes no memory.
    pub fn drop_folds(&mut self)
        ensures { self.new ≡ self.old }
    {
        self.versions.drop_folds();
    }

    /// Whether a commit is another one or lies above it.
    pub fn reaches(&self, above: u32, below: u32) -> Result<bool, Memory>
        requires settled { self.now.pending ≡ [] }
        requires above { above < length (store_of self.now.terms.origin self.now.written).commits }
        requires below { below < length (store_of self.now.terms.origin self.now.written).commits }
        ensures { IfOk result (λ is.
            is ≡ reaches (graph_of (store_of self.now.terms.origin self.now.written).commits) above
            below) }
    {
        self.versions.reaches(above, below)
    }

    /// Lands what was prepared on a look at this history, now or earlier, in memory; then it is pending. It is refused
    /// exactly as the machine refuses it, and then nothing has changed: `Dropped` before `Stale` before `FullCommits`,
    /// which only a new commit meets, before `FullMoves`, before `Collision`.
    ///
    /// Where the address of the new value's object was worked out before, it only copies the value, and hashes nothing
    /// but the new commit's own bytes. In the layout that keeps no values it does not copy the value either.
    pub fn land(&mut self, prepared: Addressed<T, A>) -> Result<Made<T::Reply>, LandRefused>
        requires settled { self.old.pending ≡ [] }
        requires history { IsPrefix prepared.seen.history self.old.written }
        requires terms { prepared.seen.terms ≡ self.old.terms }
        ensures made { IfOk result
            (LandsAs (fix T.meaning self.old.terms A.address) prepared self.old self.new) }
        ensures refused { IfErr result
            (LandRefusedAs (fix T.meaning self.old.terms A.address) prepared self.old.written) }
        ensures kept { OnErr result (self.new ≡ self.old) }
    {
        self.land_more(prepared)
    }

    /// Lands what was prepared, as `land` does, behind the moves that are pending already; then it is pending too. It is
    /// refused exactly as the machine refuses it behind those moves, and then nothing has changed; but where memory is
    /// short, no move is pending any more.
    pub fn land_more(&mut self, prepared: Addressed<T, A>) -> Result<Made<T::Reply>, LandRefused>
        requires history { IsPrefix prepared.seen.history (self.old.written ++ self.old.pending) }
        requires terms { prepared.seen.terms ≡ self.old.terms }
        ensures made { IfOk result
            (LandsMore (fix T.meaning self.old.terms A.address) prepared self.old self.new) }
        ensures refused { IfErr result
            (LandRefusedAs (fix T.meaning self.old.terms A.address) prepared
            (self.old.written ++ self.old.pending)) }
        ensures kept { IfErr result (LeavesPending self.old self.new) }
    {
        let Addressed {
            prepared,
            known,
            by: _,
        } = prepared;
        self.versions.may_land(&prepared)?;
        let head = prepared.head();
        if self.stood.reserve(1).is_err() {
            self.undo();
            return Err(LandRefused::Memory);
        }
        let address = match stage(
            self.alloc,
            &self.versions,
            &mut self.objects,
            &prepared,
            known,
        ) {
            Ok(address) => address,
            Err(LandRefused::Memory) => {
                self.undo();
                return Err(LandRefused::Memory);
            }
            Err(refused) => return Err(refused),
        };
        let record = record_for(&prepared, address, self.objects.end());
        let Ok(landed) = self.versions.land(prepared, address) else {
            take_back(&self.settled, &mut self.versions, &mut self.stood);
            self.objects.drop_staged();
            return Err(LandRefused::Memory);
        };
        // The longer history is valid: its count tells the proof so.
        let _moves = self.versions.moves();
        self.stood.push_reserved(head);
        Ok(Made { landed, record })
    }

    /// Forks a new branch from the head of another, in memory; then it is pending. It is refused exactly as the machine
    /// refuses it, and then nothing has changed: `UnknownBranch` before `NameTaken` before `FullBranches` before
    /// `FullMoves`.
    pub fn fork(&mut self, new: Name, from: &Name) -> Result<Branched, ForkRefused>
        requires settled { self.old.pending ≡ [] }
        ensures forked { IfOk result
            (Forks (fix T.meaning self.old.terms A.address) new from.now self.old self.new) }
        ensures refused { IfErr result
            (ForkRefusedAs (fix T.meaning self.old.terms A.address) new from.now self.old.written) }
        ensures kept { OnErr result (self.new ≡ self.old) }
    {
        let Some(source) = self.versions.find(from) else {
            return Err(ForkRefused::UnknownBranch { name: *from });
        };
        if self.stood.reserve(1).is_err() {
            return Err(ForkRefused::Memory);
        }
        let forked = self.versions.fork(new, from)?;
        // The longer history is valid: its count tells the proof so.
        let _moves = self.versions.moves();
        self.stood.push_reserved(forked.head);
        let record = Record::Fork {
            number: forked.number,
            from: source,
            name: new,
            end: self.objects.end(),
        };
        Ok(Branched { forked, record })
    }

    /// Places a new branch at a commit, in memory; then it is pending. It is refused exactly as the machine refuses it,
    /// and then nothing has changed: `NameTaken` before `FullBranches` before `FullMoves`.
    pub fn place(&mut self, name: Name, commit: u32) -> Result<Branched, PlaceRefused>
        requires settled { self.old.pending ≡ [] }
        requires there { commit < length (store_of self.old.terms.origin self.old.written).commits }
        ensures steps { Steps (fix T.meaning self.old.terms A.address)
            (machine.Place name commit) self.old self.new (place_answer result) }
        ensures recorded { IfOk result (λ made.
            IsRecordOf (fix T.meaning self.old.terms A.address) self.new made.record) }
    {
        if self.stood.reserve(1).is_err() {
            return Err(PlaceRefused::Memory);
        }
        let forked = self.versions.place(name, commit)?;
        // The longer history is valid: its count tells the proof so.
        let _moves = self.versions.moves();
        self.stood.push_reserved(forked.head);
        let record = Record::Place {
            number: forked.number,
            commit,
            name,
            end: self.objects.end(),
        };
        Ok(Branched { forked, record })
    }

    /// Drops the branch of a look at this history, taken now or earlier, from the head that was seen, in memory; then
    /// the drop is pending. It is refused exactly as the machine refuses it, and then nothing has changed: `Dropped`
    /// before `KeepsMain` before `Stale` before `FullMoves`.
    pub fn drop_branch(&mut self, seen: &Seen<T>) -> Result<Dropped, DropRefused>
        requires settled { self.old.pending ≡ [] }
        requires history { IsPrefix seen.now.history self.old.written }
        requires terms { seen.now.terms ≡ self.old.terms }
        ensures steps { Steps (fix T.meaning self.old.terms A.address)
            (machine.Drop seen.now.branch seen.now.head) self.old self.new
            (drop_answer seen.now result) }
        ensures recorded { IfOk result (λ made.
            IsRecordOf (fix T.meaning self.old.terms A.address) self.new made.record) }
    {
        if self.stood.reserve(1).is_err() {
            return Err(DropRefused::Memory);
        }
        let moves = self.versions.drop_branch(seen)?;
        // The longer history is valid: its count tells the proof so.
        let _moves = self.versions.moves();
        self.stood.push_reserved(seen.head());
        let record = Record::Drop {
            branch: seen.branch(),
            end: self.objects.end(),
        };
        Ok(Dropped { moves, record })
    }

    /// The bytes that the pending moves add to the objects; none where no move is pending.
    pub fn region(&self) -> &[u8]
        ensures all { result.now
            ≡ regions (fix T.meaning self.now.terms A.address) self.now.written self.now.pending }
        ensures region { (made : Move T.Op T.Reply) → self.now.pending ≡ made ∷ []
            → result.now ≡ region (fix T.meaning self.now.terms A.address) self.now.written made }
        ensures none { self.now.pending ≡ [] → result.now ≡ [] }
    {
        self.objects.staged()
    }

    /// Where the objects end, behind those of the pending moves.
    pub fn end(&self) -> u64
        ensures { result ≡ end_of (fix T.meaning self.now.terms A.address)
            (self.now.written ++ self.now.pending) }
    {
        self.objects.end()
    }

    /// Writes the objects of the history over what the file of the objects has, and syncs them.
    pub fn create<D: Disk>(&self, disk: &mut D) -> Result<(), DiskFailed>
        requires settled { self.now.pending ≡ [] }
        ensures any_moment { LeavesOnly D.moment D.left_since disk.old disk.new
            (After (OnPart Part.Objects
            (Torn 0 (end_of (fix T.meaning self.now.terms A.address) self.now.written)))
            (D.may_leave disk.old)) }
        ensures acknowledged { OnOk result
            (AllBegin (objects_text (fix T.meaning self.now.terms A.address) self.now.written)
            (D.may_leave disk.new)) }
        ensures heads { OnOk result
            (AllCome (Grows
            (objects_text (fix T.meaning self.now.terms A.address) self.now.written))
            (D.may_leave disk.old) (D.may_leave disk.new)) }
        ensures written { OnOk result
            (Tells (OnPart Part.Objects
            (Holds 0 (objects_text (fix T.meaning self.now.terms A.address) self.now.written)))
            (D.contents disk.old) (D.contents disk.new)) }
        ensures torn { Tells
            (OnPart Part.Objects
            (Torn 0 (end_of (fix T.meaning self.now.terms A.address) self.now.written)))
            (D.contents disk.old) (D.contents disk.new) }
        ensures cause { HasCause (D.faults disk.old) (D.faults disk.new) result }
    {
        self.objects.create_in(disk)
    }

    /// Writes the objects of the pending moves behind the others, and syncs them; where there are none, it makes no
    /// device call. Then the moves are still pending.
    pub fn write<D: Disk>(&self, disk: &mut D) -> Result<(), DiskFailed>
        requires { AllBegin (objects_text (fix T.meaning self.now.terms A.address) self.now.written)
            (D.may_leave disk.old) }
        ensures any_moment { LeavesOnly D.moment D.left_since disk.old disk.new
            (After (Grows (objects_text (fix T.meaning self.now.terms A.address) self.now.written))
            (D.may_leave disk.old)) }
        ensures acknowledged { OnOk result
            (AllBegin (objects_text (fix T.meaning self.now.terms A.address)
            (self.now.written ++ self.now.pending)) (D.may_leave disk.new)) }
        ensures heads { OnOk result
            (AllCome (Grows (objects_text (fix T.meaning self.now.terms A.address)
            (self.now.written ++ self.now.pending))) (D.may_leave disk.old)
            (D.may_leave disk.new)) }
        ensures written { (made : Move T.Op T.Reply) → self.now.pending ≡ made ∷ []
            → OnOk result
            (Tells (OnPart Part.Objects
            (Holds (end_of (fix T.meaning self.now.terms A.address) self.now.written)
            (region (fix T.meaning self.now.terms A.address) self.now.written made)))
            (D.contents disk.old) (D.contents disk.new)) }
        ensures all_written { OnOk result (Tells
            (OnPart Part.Objects
            (Holds (end_of (fix T.meaning self.now.terms A.address) self.now.written)
            (regions (fix T.meaning self.now.terms A.address) self.now.written self.now.pending)))
            (D.contents disk.old) (D.contents disk.new)) }
        ensures torn { (made : Move T.Op T.Reply) → self.now.pending ≡ made ∷ []
            → Tells (OnPart Part.Objects
            (Torn (end_of (fix T.meaning self.now.terms A.address) self.now.written)
            (length (region (fix T.meaning self.now.terms A.address) self.now.written made))))
            (D.contents disk.old) (D.contents disk.new) }
        ensures all_torn { Tells
            (OnPart Part.Objects
            (Torn (end_of (fix T.meaning self.now.terms A.address) self.now.written)
            (length
            (regions (fix T.meaning self.now.terms A.address) self.now.written self.now.pending))))
            (D.contents disk.old) (D.contents disk.new) }
        ensures untouched { objects_of (fix T.meaning self.now.terms A.address)
            (self.now.written ++ self.now.pending)
            ≡ objects_of (fix T.meaning self.now.terms A.address) self.now.written
            → (disk.new ≡ disk.old) × (result ≡ Ok tt) }
        ensures cause { HasCause (D.faults disk.old) (D.faults disk.new) result }
    {
        self.objects.write(disk)
    }

    /// Counts the pending moves as written. It takes no memory.
    pub fn settle(&mut self)
        ensures { self.new ≡ record {
          written = self.old.written ++ self.old.pending;
          pending = [];
          terms = self.old.terms;
        } }
    {
        self.objects.keep_staged();
        self.settled = Snapshot::of(&self.versions);
        self.stood.clear();
    }

    /// Takes the pending moves off again. It takes no memory.
    pub fn undo(&mut self)
        ensures { self.new ≡ record self.old { pending = [] } }
    {
        take_back(&self.settled, &mut self.versions, &mut self.stood);
        self.objects.drop_staged();
    }
}

// The objects of commit 0 in a layout, and the address of its own.
fn first_objects<T: Mrdt, A: Address>(
    alloc: Global,
    layout: Layout,
) -> Result<(Objects<A>, [u8; 32]), Memory>
    ensures stored { IfOk result (λ made. made.0.stored
        ≡ root_pair A.address (kept_spelling layout (T.meaning.spelling_of []))) }
    ensures staged { IfOk result (λ made. made.0.staged ≡ []) }
    ensures root { IfOk result (λ made. made.1
        ≡ A.address
        (commit_object
        (root_fields A.address (kept_spelling layout (T.meaning.spelling_of []))))) }
{
    match layout {
        Layout::Whole => {
            let mut value = Vec::new(alloc);
            T::initial(alloc).put(&mut value)?;
            Objects::fresh(alloc, Some(&value))
        }
        Layout::Changes => Objects::fresh(alloc, None),
    }
}

// Takes moves off again, the last one first, until those are left that were settled.
pub(crate) fn take_back<T: Mrdt>(
    settled: &Snapshot<Versions<T>>,
    versions: &mut Versions<T>,
    stood: &mut Vec<u32>,
)
    requires { CameBehind settled.now.value.core versions.old.core stood.old.items }
    ensures back { IsBackAt settled.now.value.core versions.old versions.new }
    ensures none { stood.new.items ≡ [] }
{
    while let Some(head) = stood.pop() {
        versions.undo(head);
    }
    // Each commit has an address: their count tells the proof so.
    let _count = versions.commits();
}
