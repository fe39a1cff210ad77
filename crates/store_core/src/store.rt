// A store on a disk.
ghost use Rattle.std.specs.Prelude.{◌≡◌, ◌≢◌, ◌<◌, ◌≤◌, ◌++◌, [], length, slice_get, IfOk, IfErr, IfSome, OnOk, OnErr, Some, Err, true, false};
ghost use Rattle.std.specs.Option.{option_map, ForSome};
ghost use mathlib.Core.List.{IsPrefix};
ghost use Rattle.branch_io.specs.Causes.{HasCauseOf, Rose};
ghost use Rattle.branch_disk.specs.Disk.{Files, LeavesOnly, Tells};
ghost use Rattle.branch_names.specs.declared.branch.Branch.{Branch};
ghost use Rattle.branch_names.specs.Heads.{branch_named, is_dropped};
ghost use Rattle.branch_history.specs.Commits.{visible};
ghost use Rattle.branch_history.specs.History.{store_of};
ghost use Rattle.branch_history.specs.Machine.{turn, answers};
ghost use Rattle.branch_history.specs.Steps as machine;
ghost use Rattle.branch_machine.specs.Fixed.{fix};
ghost use Rattle.branch_machine.specs.Machine.{full_turn};
ghost use Rattle.branch_machine.specs.Objects.{end_of, pairs_of};
ghost use Rattle.branch_machine.specs.Validity.{IsFullyValid};
ghost use Rattle.branch_files.specs.Reading.{Opens, ReadsAs};
ghost use Rattle.machine_answers.specs.Answers.{Takes};
ghost use Rattle.recorded_history.specs.Items.{lent_item};
ghost use Rattle.recorded_history.specs.Machine.{addresses_of, commit_of_address};
ghost use Rattle.store_seen.specs.Groups.{IsGrouped, GroupRefusedAs, IsStepOfAll, MergeAllRefusedAs};
ghost use Rattle.store_seen.specs.Pairs.{paired_at, IsPaired, PairRefusedAs};
ghost use Rattle.store_seen.specs.Turns.{FromOn, LookRefusedAs};
ghost use Rattle.store_core.specs.Answers.{place_answer, drop_answer, turn_of, Leaves};
ghost use Rattle.store_core.specs.Bundling.{IsBundleOf};
ghost use Rattle.store_core.specs.Views.{held};
ghost use Rattle.store_core.specs.Images.{AllStand, WithOrWithout, MayBeLeft, NoneOrEmpty};
ghost use Rattle.store_core.specs.Contents.{HoldsExactly, IsTorn, LeavesExactly, LeavesTorn};
ghost use Rattle.store_core.specs.Turns.{step_made, LandsAs, LandRefusedAs, LandLeaves, Forks, ForkRefusedAs, ForkLeaves};
ghost use Rattle.store_core.specs.Inits.{IsEmpty, InitRefusedAs};
ghost use Rattle.store_core.specs.Opens.{OpenRefusedAs, ReadsOnlyAs, RefusedOnlyAs, ReadsAsNone};

use crate::answers::{
    DropRefused, ForkRefused, InitRefused, LandRefused, OpenRefused, PlaceRefused,
};
use crate::bundling::bundle_for;
use crate::put::put;
use crate::reading::read_back;
use branch_address::Address;
use branch_bundle::Bundle;
use branch_disk::{Disk, Part};
use branch_files::laws::stands_for_what_is_read;
use branch_history::Move;
use branch_machine::laws::grows_by_full_moves;
use branch_names::{Name, Terms};
use branch_progress::Listener;
use heads_journal::Journal;
use mrdt_model::{Memory, Mrdt};
use recorded_history::{Addressed, Recorded};
use std::alloc::Global;
use std::marker::Model;
use std::snapshot::Snapshot;
use store_seen::{
    Forked, Group, Landed, LookRefused, Pair, PairPrepareRefused, PairRefused, PairStep, Prepared,
    Seen,
};

/// A history of accepted moves, kept on a disk. Contracts see a `StoreView`: the history and the terms, whether the
/// disk has failed, the disk, and the disk as it was when the core was given.
///
/// Where the disk has not failed, each image that a crash may leave of it stands for the history. Once it failed,
/// nothing lands any more; looks are answered as before.
#[derive(Drop)]
pub struct Core<T: Mrdt, D: Disk + Drop, A: Address> {
    pub(crate) recorded: Recorded<T, A>,
    pub(crate) journal: Journal,
    pub(crate) disk: D,
    pub(crate) failed: bool,
    opened: Snapshot<D>,
}

impl<T: Mrdt, D: Disk + Drop, A: Address> Model for Core<T, D, A> {
    ghost use Rattle.branch_history.specs.declared.moves.Move.{Move};
    ghost use Rattle.store_core.specs.Views.{StoreView};

    ghost Value = { StoreView (Move T.Op T.Reply) D };

    ghost use Rattle.store_core.specs.Keeps.{IsCore};

    ghost view = { λ c. record {
      history = c.recorded.written;
      terms = c.recorded.terms;
      failed = c.failed;
      disk = c.disk;
      opened = c.opened.value;
    } };

    ghost invariant = { λ c.
        IsCore T.meaning A.address D.may_leave D.faults c.recorded c.journal c.disk c.opened.value
        c.failed };
}

// Whether a disk holds no bytes.
fn is_empty<D: Disk>(disk: &mut D) -> Result<(), InitRefused>
    ensures empty { OnOk result (ForSome (D.contents disk.old) IsEmpty) }
    ensures refused { IfErr result (λ refused. (refused ≢ InitRefused.Memory)
        × ForSome (D.contents disk.old) (InitRefusedAs refused)) }
    ensures same { D.contents disk.new ≡ D.contents disk.old }
    ensures any_moment { LeavesOnly D.moment D.left_since disk.old disk.new (D.may_leave disk.old) }
    ensures cause { HasCauseOf InitRefused.DiskFault (D.faults disk.old)
        (D.faults disk.new) result }
{
    let Ok(objects) = disk.length(Part::Objects) else {
        return Err(InitRefused::DiskFault);
    };
    let Ok(heads) = disk.length(Part::Heads) else {
        return Err(InitRefused::DiskFault);
    };
    if objects != 0 || heads != 0 {
        let length = objects.saturating_add(heads);
        return Err(InitRefused::NotEmpty { length });
    }
    Ok(())
}

impl<T: Mrdt, D: Disk + Drop, A: Address> Core<T, D, A> {
    /// Makes a store of an empty disk, of the kind of values and in the layout that the terms have. After `Ok` each image
    /// that a crash may leave is a store of no moves. Where each image was empty, a crash at any moment leaves a disk that
    /// is no store, or one of no moves, whatever the answer. An `Err` hands the disk back; of a disk that holds bytes only
    /// the two lengths were asked for.
    ///
    /// Of a disk that tells its bytes, the two parts are exactly those of a store of no moves: its first objects, and
    /// the header with a closed gate. After a fault nothing has changed but in those places; after all else, nothing.
    pub fn init(alloc: Global, disk: D, terms: Terms) -> Result<Core<T, D, A>, (InitRefused, D)>
        ensures made { IfOk result (λ core. core ≡ record {
          history = [];
          terms = terms;
          failed = false;
          disk = core.disk;
          opened = core.disk;
        }) }
        ensures empty { OnOk result (ForSome (D.contents disk) IsEmpty) }
        ensures refused { IfErr result (λ e. ForSome (D.contents disk) (InitRefusedAs e.0)) }
        ensures stands { IfOk result (λ core.
            AllStand (fix T.meaning terms A.address) [] (D.may_leave core.disk)) }
        ensures exact { let fixed = fix T.meaning terms A.address in
            IfOk result (λ core. HoldsExactly fixed [] (D.contents disk) (D.contents core.disk)) }
        ensures same { IfErr result (λ e. e.0 ≢ InitRefused.DiskFault
            → D.contents e.1 ≡ D.contents disk) }
        ensures torn { let end = end_of (fix T.meaning terms A.address) [] in
            IfErr result (λ e. Tells (IsTorn 0 end 0) (D.contents disk) (D.contents e.1)) }
        ensures any_moment { IfOk result (λ core. ((c : Files) → D.may_leave disk c → IsEmpty c)
            → LeavesOnly D.moment D.left_since disk core.disk
            (NoneOrEmpty (fix T.meaning terms A.address))) }
        ensures any_moment_err { IfErr result (λ e. ((c : Files) → D.may_leave disk c → IsEmpty c)
            → LeavesOnly D.moment D.left_since disk e.1
            (NoneOrEmpty (fix T.meaning terms A.address))) }
        ensures untouched { IfErr result (λ e. e.0 ≢ InitRefused.DiskFault
            → LeavesOnly D.moment D.left_since disk e.1 (D.may_leave disk)) }
        ensures kept { IfErr result (λ e. (f : Files) → D.contents disk ≡ Some f → ¬ IsEmpty f
            → LeavesOnly D.moment D.left_since disk e.1 (D.may_leave disk)) }
        ensures no_cause { IfOk result (λ core. D.faults core.disk ≡ D.faults disk) }
        ensures cause { IfErr result (λ e.
            HasCauseOf {T = Unit {0}} InitRefused.DiskFault (D.faults disk) (D.faults e.1)
            (Err e.0)) }
    {
        grows_by_full_moves::<T>();
        let mut disk = disk;
        match is_empty(&mut disk) {
            Ok(()) => {}
            Err(refused) => return Err((refused, disk)),
        }
        let Ok(recorded) = Recorded::fresh(alloc, terms) else {
            return Err((InitRefused::Memory, disk));
        };
        let Ok(()) = recorded.create(&mut disk) else {
            return Err((InitRefused::DiskFault, disk));
        };
        let Ok(journal) = Journal::create(&mut disk, &terms) else {
            return Err((InitRefused::DiskFault, disk));
        };
        let opened = Snapshot::of(&disk);
        Ok(Core {
            recorded,
            journal,
            disk,
            failed: false,
            opened,
        })
    }

    /// Opens the store of a kind of values that a disk holds, in the layout that its header tells, which a crash may have
    /// left. It syncs both parts and reads, and writes nothing. `Ok` and each refusal but `DiskFault` and `Memory` come
    /// exactly where the files read so for one that asks for this kind: what it opens is the one answer of the files, and
    /// so is why it refuses them. The store of another kind is `NotAStore`. An `Err` hands the disk back. The listener
    /// hears of each record that was read back, and changes nothing; `NoListener` is one for those who want none.
    pub fn open<L: Listener>(
        alloc: Global,
        disk: D,
        kind: u8,
        listener: &mut L,
    ) -> Result<Core<T, D, A>, (OpenRefused, D)>
        ensures opened { IfOk result (λ core. core ≡ record {
          history = core.history;
          terms = core.terms;
          failed = false;
          disk = core.disk;
          opened = core.disk;
        }) }
        ensures reads { IfOk result (λ core.
            ForSome (D.contents disk) (λ f.
            ReadsAs T.meaning A.address f (Opens core.terms core.history))) }
        ensures only { IfOk result (λ core.
            ForSome (D.contents disk)
            (ReadsOnlyAs T.meaning A.address (Opens core.terms core.history))) }
        ensures kind { IfOk result (λ core. core.terms.kind ≡ kind) }
        ensures valid { IfOk result (λ core.
            IsFullyValid (fix T.meaning core.terms A.address) core.history) }
        ensures stands { IfOk result (λ core.
            AllStand (fix T.meaning core.terms A.address) core.history (D.may_leave core.disk)) }
        ensures refused { IfErr result (λ e.
            ForSome (D.contents disk) (OpenRefusedAs kind T.meaning A.address e.0)) }
        ensures refused_only { IfErr result (λ e. e.0 ≢ OpenRefused.DiskFault
            → e.0 ≢ OpenRefused.Memory
            → ForSome (D.contents disk) (ReadsAsNone kind T.meaning A.address)) }
        ensures only_refused { IfErr result (λ e.
            ForSome (D.contents disk) (RefusedOnlyAs kind T.meaning A.address e.0)) }
        ensures same { IfOk result (λ core. D.contents core.disk ≡ D.contents disk) }
        ensures same_err { IfErr result (λ e. D.contents e.1 ≡ D.contents disk) }
        ensures any_moment { IfOk result (λ core.
            LeavesOnly D.moment D.left_since disk core.disk (D.may_leave disk)) }
        ensures any_moment_err { IfErr result (λ e.
            LeavesOnly D.moment D.left_since disk e.1 (D.may_leave disk)) }
        ensures no_cause { IfOk result (λ core. D.faults core.disk ≡ D.faults disk) }
        ensures cause { IfErr result (λ e.
            HasCauseOf {T = Unit {0}} OpenRefused.DiskFault (D.faults disk) (D.faults e.1)
            (Err e.0)) }
    {
        stands_for_what_is_read::<T>();
        let mut disk = disk;
        match read_back::<T, D, A, L>(alloc, &mut disk, kind, listener) {
            Ok((journal, recorded)) => {
                let opened = Snapshot::of(&disk);
                Ok(Core {
                    recorded,
                    journal,
                    disk,
                    failed: false,
                    opened,
                })
            }
            Err(refused) => Err((refused, disk)),
        }
    }

    /// How many moves the history has, which is a valid one. Until the disk failed, each image stands for it; then each
    /// stands for it, or for a valid one with more moves behind it: those of a batch, at most.
    pub fn moves(&self) -> u64
        ensures moves { result ≡ length self.now.history }
        ensures valid { IsFullyValid (fix T.meaning self.now.terms A.address) self.now.history }
        ensures stands { self.now.failed ≡ false
            → AllStand (fix T.meaning self.now.terms A.address) self.now.history
            (D.may_leave self.now.disk) }
        ensures left { (c : Files) → D.may_leave self.now.disk c
            → MayBeLeft (fix T.meaning self.now.terms A.address) self.now.history c }
        ensures later { D.faults self.now.opened ≤ D.faults self.now.disk }
        ensures caused { self.now.failed ≡ true
            → Rose (D.faults self.now.opened) (D.faults self.now.disk) }
        ensures quiet { self.now.failed ≡ false
            → D.faults self.now.disk ≡ D.faults self.now.opened }
    {
        self.recorded.moves()
    }

    /// Whether the disk has failed since the core was given: then nothing lands any more.
    pub fn has_failed(&self) -> bool
        ensures { result ≡ self.now.failed }
    {
        self.failed
    }

    /// How many commits the store holds, commit 0 counted.
    pub fn commits(&self) -> u32
        ensures { result ≡ length (store_of self.now.terms.origin self.now.history).commits }
    {
        self.recorded.commits()
    }

    /// How many branches the store holds, `main` and those that were dropped counted.
    pub fn branches(&self) -> u32
        ensures { result ≡ length (store_of self.now.terms.origin self.now.history).branches }
    {
        self.recorded.branches()
    }

    /// The terms that the store was made under.
    pub fn terms(&self) -> Terms
        ensures { result ≡ self.now.terms }
    {
        self.recorded.terms()
    }

    /// The first origin: branch r has the origin that lies r above it.
    pub fn origin(&self) -> u32
        ensures { result ≡ self.now.terms.origin }
    {
        self.recorded.terms().origin
    }

    /// The address of a commit's object; `None` exactly past the last commit. It takes no memory.
    pub fn address(&self, commit: u32) -> Option<[u8; 32]>
        ensures { let fixed = fix T.meaning self.now.terms A.address in
            result ≡ slice_get (addresses_of fixed self.now.history) commit }
    {
        self.recorded.address(commit)
    }

    /// The first commit whose object has an address; `None` exactly where none has it. It takes no memory.
    pub fn commit_at(&self, address: &[u8; 32]) -> Option<u32>
        ensures { let fixed = fix T.meaning self.now.terms A.address in
            result ≡ commit_of_address fixed self.now.history address.now }
    {
        self.recorded.commit_at(address)
    }

    /// The bytes of the two objects of a commit, that of its value, which is empty in the layout that keeps no values,
    /// and then its own; `None` exactly past the last commit. It takes no memory.
    pub fn item(&self, commit: u32) -> Option<(&[u8], &[u8])>
        ensures { let fixed = fix T.meaning self.now.terms A.address in
            lent_item result ≡ slice_get (pairs_of fixed
            (store_of self.now.terms.origin self.now.history).commits) commit }
    {
        self.recorded.item(commit)
    }

    /// The bundle of a commit for a store that has the commits here with these addresses: the objects of what the commit
    /// reaches, but for commit 0 and what those commits reach, by rising number. An address that no commit here has is
    /// passed over. It goes over the moves once, and over the parents of each commit twice at most.
    pub fn bundle(&self, tip: u32, here: &[[u8; 32]]) -> Result<Bundle, Memory>
        requires { tip < length (store_of self.now.terms.origin self.now.history).commits }
        ensures { IfOk result (IsBundleOf (fix T.meaning self.now.terms A.address)
            self.now.history tip here.now) }
    {
        bundle_for(&self.recorded, tip, here)
    }

    /// The name and the head of a branch, of a dropped one those that it had; `None` exactly past the last branch. No
    /// other branch has the name of one that was not dropped.
    pub fn branch(&self, number: u32) -> Option<(Name, u32)>
        ensures named { IfSome result (λ found.
            is_dropped (store_of self.now.terms.origin self.now.history).branches number ≡ false
            → branch_named (store_of self.now.terms.origin self.now.history).branches found.0
            ≡ Some number) }
        ensures found { result ≡ option_map (λ (b : Branch).
            (b.name, b.head)) (slice_get (store_of self.now.terms.origin self.now.history).branches
            number) }
    {
        self.recorded.branch(number)
    }

    /// Whether the branch of a number was dropped. The branch has to be there: a number below `branches()`.
    pub fn is_dropped(&self, number: u32) -> bool
        requires { number < length (store_of self.now.terms.origin self.now.history).branches }
        ensures { result ≡ is_dropped (store_of self.now.terms.origin self.now.history).branches
            number }
    {
        self.recorded.is_dropped(number)
    }

    /// The moves of the history, in order, which are lent.
    pub fn history(&self) -> &[Move<T::Op, T::Reply>]
        ensures { result.now ≡ self.now.history }
    {
        self.recorded.history()
    }

    /// The value of a commit, which is lent. It stands for the events that are visible there, and its spelling is theirs.
    /// The commit has to be there: a number below `commits()`.
    pub fn value_at(&self, commit: u32) -> &T
        requires there { commit
            < length (store_of self.now.terms.origin self.now.history).commits }
        ensures stands { T.meaning.stands result.now
            (visible (store_of self.now.terms.origin self.now.history).commits commit) }
        ensures spelling { T.meaning.state_spelling result.now
            ≡ T.meaning.spelling_of
            (visible (store_of self.now.terms.origin self.now.history).commits commit) }
    {
        self.recorded.value_at(commit)
    }

    /// What a commit answers to a query, now and however the history goes on, also where the disk has failed. The commit
    /// has to be there, and want of memory is the only error.
    pub fn ask_at(&self, commit: u32, query: &T::Query) -> Result<T::Answer, Memory>
        requires there { commit
            < length (store_of self.now.terms.origin self.now.history).commits }
        ensures { IfOk result (λ answer.
            FromOn T.meaning self.now.terms self.now.history (λ later.
            turn T.meaning self.now.terms later (machine.Ask commit query.now)
            ≡ answers (machine.Answered answer))) }
    {
        self.recorded.ask_at(commit, query)
    }

    /// Looks at the branch with a name, also where the disk has failed. `UnknownBranch` comes exactly where no branch
    /// has the name, or it was dropped.
    pub fn look(&self, name: &Name) -> Result<Seen<T>, LookRefused>
        ensures on { IfOk result (λ seen. (seen.history ≡ self.now.history)
            × (seen.terms ≡ self.now.terms)) }
        ensures sees { IfOk result (λ seen.
            turn T.meaning self.now.terms self.now.history (machine.Look name.now)
            ≡ answers (machine.Sees seen.branch seen.head)) }
        ensures refused { IfErr result (LookRefusedAs T.meaning (held self.now) name.now) }
    {
        self.recorded.look(name)
    }

    /// Pairs a look at this core, taken now or earlier, with the head that a branch has now, also where the disk has
    /// failed. `UnknownBranch` comes exactly where no branch has the name, or it was dropped. Where neither commit reaches
    /// the other, the pair is handed their base, which is made with the folds that the core keeps. It makes no device
    /// call.
    pub fn pair(&mut self, seen: &Seen<T>, from: &Name) -> Result<Pair<T>, PairRefused>
        requires history { IsPrefix seen.now.history self.old.history }
        requires terms { seen.now.terms ≡ self.old.terms }
        ensures paired { IfOk result (IsPaired T.meaning (held self.old) seen.now from.now) }
        ensures refused { IfErr result (PairRefusedAs T.meaning (held self.old) from.now) }
        ensures same { self.new ≡ self.old }
    {
        self.recorded.pair(seen, from)
    }

    /// Pairs a look at this core, taken now or earlier, with a commit, also where the disk has failed. The commit has to
    /// be there, and want of memory is the only error.
    pub fn pair_at(&self, seen: &Seen<T>, commit: u32) -> Result<Pair<T>, Memory>
        requires history { IsPrefix seen.now.history self.now.history }
        requires terms { seen.now.terms ≡ self.now.terms }
        requires there { commit < length (store_of self.now.terms.origin self.now.history).commits }
        ensures { IfOk result (λ pair. pair ≡ paired_at (held self.now) seen.now commit) }
    {
        self.recorded.pair_at(seen, commit)
    }

    /// Groups a look at this core, taken now or earlier, with the heads that branches have now, of one to eight names,
    /// also where the disk has failed. `UnknownBranch` comes exactly where one of them is no branch's, or that of a
    /// branch that was dropped, and names the first such.
    pub fn group(&self, seen: &Seen<T>, from: &[Name]) -> Result<Group<T>, PairRefused>
        requires history { IsPrefix seen.now.history self.now.history }
        requires terms { seen.now.terms ≡ self.now.terms }
        requires some { 1 ≤ length from.now }
        requires few { length from.now ≤ 8 }
        ensures grouped { IfOk result (IsGrouped T.meaning (held self.now) seen.now from.now) }
        ensures refused { IfErr result (GroupRefusedAs T.meaning (held self.now) from.now) }
    {
        self.recorded.group(seen, from)
    }

    /// Makes the merge of a group that was grouped at this history ready to land: what the group itself prepares, but with
    /// the folds that the core keeps. It makes no device call.
    pub fn prepare_group(&mut self, group: &Group<T>) -> Result<PairStep<T>, PairPrepareRefused>
        requires history { group.now.history ≡ self.old.history }
        requires terms { group.now.terms ≡ self.old.terms }
        ensures step { IfOk result (IsStepOfAll T.meaning group.now) }
        ensures refused { IfErr result (MergeAllRefusedAs T.meaning group.now) }
        ensures same { self.new ≡ self.old }
    {
        self.recorded.prepare_group(group)
    }

    /// Lands what was prepared on a look at this core, now or earlier. It is refused exactly as the machine refuses
    /// it, and then nothing has changed: `Dropped` before `Stale` before `FullCommits`, which only a new commit meets,
    /// before `FullMoves`, before `Collision`. All memory is taken before the first device call. At every moment a
    /// crash leaves the history before, or that with the move; after `Ok`, the latter. Both are valid, so that the disk
    /// can be opened again after a fault.
    ///
    /// Of a disk that tells its bytes, after `Ok` the two parts begin with exactly the objects of the longer history
    /// and its records with a closed gate, and no other byte has changed. After a fault nothing has changed but in the
    /// move's region and from its record's gate to the next one.
    pub fn land(&mut self, prepared: Prepared<T>) -> Result<Landed<T::Reply>, LandRefused>
        requires history { IsPrefix prepared.seen.history self.old.history }
        requires terms { prepared.seen.terms ≡ self.old.terms }
        ensures landed { IfOk result (λ landed.
            LandsAs (fix T.meaning self.old.terms A.address) prepared self.old self.new landed.moves
            landed.kind) }
        ensures stands { OnOk result
            (AllStand (fix T.meaning self.old.terms A.address) self.new.history
            (D.may_leave self.new.disk)) }
        ensures failed { self.old.failed ≡ true
            → result ≡ Err (LandRefused.Failed (length self.old.history)) }
        ensures refused { IfErr result
            (LandRefusedAs (fix T.meaning self.old.terms A.address) prepared self.old) }
        ensures kept { IfErr result (LandLeaves self.old self.new) }
        ensures any_moment { self.old.failed ≡ false
            → LeavesOnly D.moment D.left_since self.old.disk self.new.disk
            (WithOrWithout (fix T.meaning self.old.terms A.address) self.old.history
            (full_turn (fix T.meaning self.old.terms A.address) self.old.history
            (step_made prepared)).made) }
        ensures fault_leaves { result ≡ Err LandRefused.DiskFault → (c : Files)
            → D.may_leave self.new.disk c
            → WithOrWithout (fix T.meaning self.old.terms A.address) self.old.history
            (full_turn (fix T.meaning self.old.terms A.address) self.old.history
            (step_made prepared)).made c }
        ensures fault_valid { result ≡ Err LandRefused.DiskFault
            → IsFullyValid (fix T.meaning self.old.terms A.address)
            (self.old.history ++ (full_turn (fix T.meaning self.old.terms A.address)
            self.old.history (step_made prepared)).made) }
        ensures exact { OnOk result
            (LeavesExactly T.meaning A.address D.contents self.old self.new) }
        ensures torn { result ≡ Err LandRefused.DiskFault
            → LeavesTorn T.meaning A.address D.contents self.old self.new (step_made prepared) }
        ensures cause { HasCauseOf LandRefused.DiskFault (D.faults self.old.disk)
            (D.faults self.new.disk) result }
    {
        self.land_addressed(Addressed::later(prepared))
    }

    /// Lands what was prepared, as `land` does. Where the address of the new value's object was worked out before, it only
    /// copies the value, and hashes nothing but the new commit's own bytes. In the layout that keeps no values it does not
    /// copy the value either.
    pub fn land_addressed(
        &mut self,
        prepared: Addressed<T, A>,
    ) -> Result<Landed<T::Reply>, LandRefused>
        requires history { IsPrefix prepared.seen.history self.old.history }
        requires terms { prepared.seen.terms ≡ self.old.terms }
        ensures landed { IfOk result (λ landed.
            LandsAs (fix T.meaning self.old.terms A.address) prepared self.old self.new landed.moves
            landed.kind) }
        ensures stands { OnOk result
            (AllStand (fix T.meaning self.old.terms A.address) self.new.history
            (D.may_leave self.new.disk)) }
        ensures failed { self.old.failed ≡ true
            → result ≡ Err (LandRefused.Failed (length self.old.history)) }
        ensures refused { IfErr result
            (LandRefusedAs (fix T.meaning self.old.terms A.address) prepared self.old) }
        ensures kept { IfErr result (LandLeaves self.old self.new) }
        ensures any_moment { self.old.failed ≡ false
            → LeavesOnly D.moment D.left_since self.old.disk self.new.disk
            (WithOrWithout (fix T.meaning self.old.terms A.address) self.old.history
            (full_turn (fix T.meaning self.old.terms A.address) self.old.history
            (step_made prepared)).made) }
        ensures fault_leaves { result ≡ Err LandRefused.DiskFault → (c : Files)
            → D.may_leave self.new.disk c
            → WithOrWithout (fix T.meaning self.old.terms A.address) self.old.history
            (full_turn (fix T.meaning self.old.terms A.address) self.old.history
            (step_made prepared)).made c }
        ensures fault_valid { result ≡ Err LandRefused.DiskFault
            → IsFullyValid (fix T.meaning self.old.terms A.address)
            (self.old.history ++ (full_turn (fix T.meaning self.old.terms A.address)
            self.old.history (step_made prepared)).made) }
        ensures exact { OnOk result
            (LeavesExactly T.meaning A.address D.contents self.old self.new) }
        ensures torn { result ≡ Err LandRefused.DiskFault
            → LeavesTorn T.meaning A.address D.contents self.old self.new (step_made prepared) }
        ensures cause { HasCauseOf LandRefused.DiskFault (D.faults self.old.disk)
            (D.faults self.new.disk) result }
    {
        if self.failed {
            let moves = self.recorded.moves();
            return Err(LandRefused::Failed { moves });
        }
        let made = self.recorded.land(prepared)?;
        let Ok(()) = put(
            &mut self.recorded,
            &mut self.journal,
            &mut self.disk,
            &mut self.failed,
            &[made.record],
        ) else {
            return Err(LandRefused::DiskFault);
        };
        Ok(made.landed)
    }

    /// Forks a new branch from the head of another. It is refused exactly as the machine refuses it, and then
    /// nothing has changed: `UnknownBranch` before `NameTaken` before `FullBranches` before `FullMoves`. At every
    /// moment a crash leaves the history before, or that with the fork; after `Ok`, the latter. Both are valid. What a
    /// disk tells is then as after `land`.
    pub fn fork(&mut self, new: Name, from: &Name) -> Result<Forked, ForkRefused>
        ensures forked { IfOk result
            (Forks (fix T.meaning self.old.terms A.address) new from.now self.old self.new) }
        ensures stands { OnOk result
            (AllStand (fix T.meaning self.old.terms A.address) self.new.history
            (D.may_leave self.new.disk)) }
        ensures failed { self.old.failed ≡ true
            → result ≡ Err (ForkRefused.Failed (length self.old.history)) }
        ensures refused { IfErr result
            (ForkRefusedAs (fix T.meaning self.old.terms A.address) new from.now self.old) }
        ensures kept { IfErr result (ForkLeaves self.old self.new) }
        ensures any_moment { self.old.failed ≡ false
            → LeavesOnly D.moment D.left_since self.old.disk self.new.disk
            (WithOrWithout (fix T.meaning self.old.terms A.address) self.old.history
            (full_turn (fix T.meaning self.old.terms A.address) self.old.history
            (machine.Fork new from.now)).made) }
        ensures fault_leaves { result ≡ Err ForkRefused.DiskFault → (c : Files)
            → D.may_leave self.new.disk c
            → WithOrWithout (fix T.meaning self.old.terms A.address) self.old.history
            (full_turn (fix T.meaning self.old.terms A.address) self.old.history
            (machine.Fork new from.now)).made c }
        ensures fault_valid { result ≡ Err ForkRefused.DiskFault
            → IsFullyValid (fix T.meaning self.old.terms A.address)
            (self.old.history ++ (full_turn (fix T.meaning self.old.terms A.address)
            self.old.history (machine.Fork new from.now)).made) }
        ensures exact { OnOk result
            (LeavesExactly T.meaning A.address D.contents self.old self.new) }
        ensures torn { result ≡ Err ForkRefused.DiskFault
            → LeavesTorn T.meaning A.address D.contents self.old self.new
            (machine.Fork new from.now) }
        ensures cause { HasCauseOf ForkRefused.DiskFault (D.faults self.old.disk)
            (D.faults self.new.disk) result }
    {
        if self.failed {
            let moves = self.recorded.moves();
            return Err(ForkRefused::Failed { moves });
        }
        let made = self.recorded.fork(new, from)?;
        let Ok(()) = put(
            &mut self.recorded,
            &mut self.journal,
            &mut self.disk,
            &mut self.failed,
            &[made.record],
        ) else {
            return Err(ForkRefused::DiskFault);
        };
        Ok(made.forked)
    }

    /// Places a new branch at a commit, which has to be there. It is refused exactly as the machine refuses it, and
    /// then nothing has changed: `Failed` before `NameTaken` before `FullBranches` before `FullMoves`. At every moment a
    /// crash leaves the history before, or that with the branch; after `Ok`, the latter. Both are valid. What a disk
    /// tells is then as after `land`.
    pub fn place(&mut self, name: Name, commit: u32) -> Result<Forked, PlaceRefused>
        requires { commit < length (store_of self.old.terms.origin self.old.history).commits }
        ensures takes { Takes (turn_of T.meaning A.address self.old (machine.Place name commit))
            self.old.history self.new.history (place_answer result) }
        ensures leaves { Leaves D.Disk T.meaning A.address (machine.Place name commit)
            self.old self.new (place_answer result) }
    {
        if self.failed {
            let moves = self.recorded.moves();
            return Err(PlaceRefused::Failed { moves });
        }
        let made = self.recorded.place(name, commit)?;
        let Ok(()) = put(
            &mut self.recorded,
            &mut self.journal,
            &mut self.disk,
            &mut self.failed,
            &[made.record],
        ) else {
            return Err(PlaceRefused::DiskFault);
        };
        Ok(made.forked)
    }

    /// Drops the branch of a look at this core, taken now or earlier, from the head that was seen, and says how many
    /// moves the history then has. Its name is free again, and its number is not. It is refused exactly as the machine
    /// refuses it, and then nothing has changed: `Failed` before `Dropped` before `KeepsMain` before `Stale` before
    /// `FullMoves`. At every moment a crash leaves the history before, or that with the drop; after `Ok`, the latter.
    /// Both are valid. What a disk tells is then as after `land`.
    pub fn drop_branch(&mut self, seen: &Seen<T>) -> Result<u64, DropRefused>
        requires history { IsPrefix seen.now.history self.old.history }
        requires terms { seen.now.terms ≡ self.old.terms }
        ensures takes { Takes (turn_of T.meaning A.address self.old
            (machine.Drop seen.now.branch seen.now.head))
            self.old.history self.new.history (drop_answer seen.now result) }
        ensures leaves { Leaves D.Disk T.meaning A.address
            (machine.Drop seen.now.branch seen.now.head)
            self.old self.new (drop_answer seen.now result) }
    {
        if self.failed {
            let moves = self.recorded.moves();
            return Err(DropRefused::Failed { moves });
        }
        let made = self.recorded.drop_branch(seen)?;
        let Ok(()) = put(
            &mut self.recorded,
            &mut self.journal,
            &mut self.disk,
            &mut self.failed,
            &[made.record],
        ) else {
            return Err(DropRefused::DiskFault);
        };
        Ok(made.moves)
    }

    /// Hands back the history, as it is recorded, and the disk. It makes no device call, and takes no memory. Each image
    /// stands for what `moves` says.
    pub fn into_recorded(self) -> (Recorded<T, A>, D)
        ensures recorded { result.0 ≡ record {
          written = self.history;
          pending = [];
          terms = self.terms;
        } }
        ensures same { result.1 ≡ self.disk }
        ensures valid { IsFullyValid (fix T.meaning self.terms A.address) self.history }
        ensures stands { self.failed ≡ false
            → AllStand (fix T.meaning self.terms A.address) self.history (D.may_leave result.1) }
        ensures left { let fixed = fix T.meaning self.terms A.address in
            (c : Files) → D.may_leave result.1 c → MayBeLeft fixed self.history c }
    {
        (self.recorded, self.disk)
    }

    /// Hands the disk back. It makes no device call, and takes no memory. Each image stands for what `moves` says.
    pub fn close(self) -> D
        ensures same { result ≡ self.disk }
        ensures valid { IsFullyValid (fix T.meaning self.terms A.address) self.history }
        ensures stands { self.failed ≡ false
            → AllStand (fix T.meaning self.terms A.address) self.history (D.may_leave result) }
        ensures left { let fixed = fix T.meaning self.terms A.address in
            (c : Files) → D.may_leave result c → MayBeLeft fixed self.history c }
    {
        self.disk
    }
}
