// The walk over the records.
ghost use Rattle.std.specs.Prelude.{◌≡◌, ℕ, [], All, length, IfOk, IfErr, OnOk};
ghost use Rattle.branch_machine.specs.Fixed.{fix, fix_in};
ghost use Rattle.branch_files.specs.Next.{end_at, MakesCommit};
ghost use Rattle.heads_journal.specs.declared.record.Record.TheVariants as entry;
ghost use Rattle.branch_files.specs.Records.{records_of, IsKnown, AreKnown};
ghost use Rattle.heads_journal.specs.Format.{Fits, IsRecord};
ghost use Rattle.commit_replay.specs.Follows.{form_of, Follows, MayCome};
ghost use Rattle.commit_replay.specs.Refusals.{ReplayRefusedAs, StopsAheadAs};
ghost use Rattle.commit_replay.specs.Walk.{bytes_ahead, left_ahead, GoesOn};

use crate::ahead::Ahead;
use crate::commit::{NotRemade, remake_commit};
use crate::first::first_text;
use crate::lookups::standing_of;
use crate::plan::Plan;
use crate::refused::ReplayRefused;
use crate::remake::{drop_branch, fork, place, remake};
use crate::rules::may_come;
use branch_address::Address;
use branch_disk::Part;
use branch_names::{Name, Terms};
use branch_progress::{Listener, Progress};
use heads_journal::Record;
use mrdt_model::{Memory, Mrdt};
use recorded_history::Recorded;
use std::alloc::Global;

// How many folds of bases are kept while a history is read back.
const FOLDS: u32 = 4096;

/// The history that the records and the bytes of objects stand for in a version of the files, under these terms. It is
/// refused exactly where there is none: `NotAStore` where the objects do not begin with those of a new store, and else
/// for the first record that goes no further.
///
/// Each move is made anew: an operation is read from its commit's object, and its reply, the value, their spellings
/// and the addresses are those that the machine makes. What the bytes say of them is only compared.
///
/// The records must be such as files of the version have, as those that `heads_journal::read_all` has read are.
///
/// The bytes of the objects are given up, and go from memory as their moves are made. The listener hears of each record
/// whose move was made.
pub fn replay<T: Mrdt, A: Address, L: Listener>(
    alloc: Global,
    version: u32,
    terms: Terms,
    records: &[Record],
    objects: Vec<u8>,
    listener: &mut L,
) -> Result<Recorded<T, A>, ReplayRefused>
    requires { All (IsRecord version) records.now }
    ensures settled { IfOk result (λ recorded.
        recorded ≡ record { written = recorded.written; pending = []; terms = terms }) }
    ensures replayed { let fixed = fix_in (form_of version) T.meaning terms A.address in
        IfOk result (λ recorded. Follows fixed recorded.written records.now objects.items) }
    ensures all { let fixed = fix_in (form_of version) T.meaning terms A.address in
        IfOk result (λ recorded. records_of fixed recorded.written ≡ records.now) }
    ensures refused { let fixed = fix_in (form_of version) T.meaning terms A.address in
        IfErr result (ReplayRefusedAs fixed records.now objects.items) }
{
    let Ok(first) = first_text::<T, A>(alloc, version, terms.layout) else {
        return Err(ReplayRefused::Memory);
    };
    if !objects.starts_with(&first) {
        return Err(ReplayRefused::NotAStore);
    }
    let mut ahead = Ahead::new(objects);
    let Ok(_) = ahead.take(first.len() as u64) else {
        return Err(ReplayRefused::Memory);
    };
    let Ok(mut recorded) = Recorded::fresh(alloc, terms) else {
        return Err(ReplayRefused::Memory);
    };
    let Ok(()) = recorded.keep_folds(FOLDS) else {
        return Err(ReplayRefused::Memory);
    };
    for next in records {
        if let Err(refused) = replay_record(alloc, version, &mut recorded, next, &mut ahead) {
            return Err(refused);
        }
        tell_opened(listener, &recorded, records);
    }
    recorded.drop_folds();
    Ok(recorded)
}

// Tells how many of the records were read back.
fn tell_opened<T: Mrdt, A: Address, L: Listener>(
    listener: &mut L,
    recorded: &Recorded<T, A>,
    records: &[Record],
) {
    listener.hear(Progress::Opened {
        records: recorded.moves(),
        of: records.len() as u64,
    });
}

// Goes on by the move of one record of a version, and takes the bytes of its objects off those ahead.
fn replay_record<T: Mrdt, A: Address>(
    alloc: Global,
    version: u32,
    recorded: &mut Recorded<T, A>,
    next: &Record,
    ahead: &mut Ahead,
) -> Result<(), ReplayRefused>
    requires settled { recorded.old.pending ≡ [] }
    requires known { AreKnown (fix T.meaning recorded.old.terms A.address) recorded.old.written }
    requires of { IsRecord version next.now }
    ensures went { OnOk result
        (GoesOn (fix T.meaning recorded.old.terms A.address) recorded.old recorded.new next.now
        (bytes_ahead (fix T.meaning recorded.old.terms A.address) recorded.old.written ahead.old
        next.now)) }
    ensures left { OnOk result
        (ahead.new ≡ left_ahead (fix T.meaning recorded.old.terms A.address) recorded.old.written
        ahead.old next.now) }
    ensures read { OnOk result (IsKnown next.now) }
    ensures stops { let own = fix_in (form_of version) T.meaning recorded.old.terms A.address in
        IfErr result (StopsAheadAs own recorded.old.written ahead.old next.now) }
{
    let Ok(may) = may_come(recorded, next) else {
        return Err(ReplayRefused::Memory);
    };
    if !may {
        return Err(ReplayRefused::BadRecord {
            number: recorded.moves() + 1,
        });
    }
    match next {
        Record::Fork { from, name, .. } => match replay_fork(recorded, next, *from, *name) {
            Ok(()) => Ok(()),
            Err(Memory) => Err(ReplayRefused::Memory),
        },
        Record::Operation { end, .. } => replay_commit(alloc, version, recorded, next, *end, ahead),
        Record::Merge { end, .. } => replay_commit(alloc, version, recorded, next, *end, ahead),
        Record::Forward { branch, to, .. } => {
            match replay_forward(recorded, next, *branch, *to) {
                Ok(()) => Ok(()),
                Err(Memory) => Err(ReplayRefused::Memory),
            }
        }
        Record::Join { end, .. } => replay_commit(alloc, version, recorded, next, *end, ahead),
        Record::Received { end, .. } => replay_commit(alloc, version, recorded, next, *end, ahead),
        Record::Place { commit, name, .. } => match replay_place(recorded, next, *commit, *name) {
            Ok(()) => Ok(()),
            Err(Memory) => Err(ReplayRefused::Memory),
        },
        Record::Drop { branch, .. } => match replay_drop(recorded, next, *branch) {
            Ok(()) => Ok(()),
            Err(Memory) => Err(ReplayRefused::Memory),
        },
    }
}

// Forks as a record says that may come. That never fails but for want of memory.
fn replay_fork<T: Mrdt, A: Address>(
    recorded: &mut Recorded<T, A>,
    next: &Record,
    from: u32,
    name: Name,
) -> Result<(), Memory>
    requires settled { recorded.old.pending ≡ [] }
    requires is { (number end : ℕ) × (next.now ≡ entry.Fork number from name end) }
    requires known { AreKnown (fix T.meaning recorded.old.terms A.address) recorded.old.written }
    requires fits { Fits next.now }
    requires may { MayCome (fix T.meaning recorded.old.terms A.address) recorded.old.written
        next.now }
    ensures { OnOk result
        (GoesOn (fix T.meaning recorded.old.terms A.address) recorded.old recorded.new next.now
        []) }
{
    let _moves = recorded.moves();
    if fork(recorded, name, from, next)? {
        Ok(())
    } else {
        unreachable!()
    }
}

// Moves a branch forward as a record says that may come. That never fails but for want of memory.
fn replay_forward<T: Mrdt, A: Address>(
    recorded: &mut Recorded<T, A>,
    next: &Record,
    branch: u32,
    to: u32,
) -> Result<(), Memory>
    requires settled { recorded.old.pending ≡ [] }
    requires is { (end : ℕ) × (next.now ≡ entry.Forward branch to end) }
    requires known { AreKnown (fix T.meaning recorded.old.terms A.address) recorded.old.written }
    requires fits { Fits next.now }
    requires may { MayCome (fix T.meaning recorded.old.terms A.address) recorded.old.written
        next.now }
    ensures { OnOk result
        (GoesOn (fix T.meaning recorded.old.terms A.address) recorded.old recorded.new next.now
        []) }
{
    let _moves = recorded.moves();
    let plan = Plan::Merge { branch, commit: to };
    if remake(recorded, plan, next, &[])? {
        Ok(())
    } else {
        unreachable!()
    }
}

// Places a branch at a commit as a record says that may come. That never fails but for want of memory.
fn replay_place<T: Mrdt, A: Address>(
    recorded: &mut Recorded<T, A>,
    next: &Record,
    commit: u32,
    name: Name,
) -> Result<(), Memory>
    requires settled { recorded.old.pending ≡ [] }
    requires is { (number end : ℕ) × (next.now ≡ entry.Place number commit name end) }
    requires known { AreKnown (fix T.meaning recorded.old.terms A.address) recorded.old.written }
    requires fits { Fits next.now }
    requires may { MayCome (fix T.meaning recorded.old.terms A.address) recorded.old.written
        next.now }
    ensures { OnOk result
        (GoesOn (fix T.meaning recorded.old.terms A.address) recorded.old recorded.new next.now
        []) }
{
    let _moves = recorded.moves();
    if place(recorded, name, commit, next)? {
        Ok(())
    } else {
        unreachable!()
    }
}

// Drops a branch as a record says that may come. That never fails but for want of memory.
fn replay_drop<T: Mrdt, A: Address>(
    recorded: &mut Recorded<T, A>,
    next: &Record,
    branch: u32,
) -> Result<(), Memory>
    requires settled { recorded.old.pending ≡ [] }
    requires is { (end : ℕ) × (next.now ≡ entry.Drop branch end) }
    requires known { AreKnown (fix T.meaning recorded.old.terms A.address) recorded.old.written }
    requires fits { Fits next.now }
    requires may { MayCome (fix T.meaning recorded.old.terms A.address) recorded.old.written
        next.now }
    ensures { OnOk result
        (GoesOn (fix T.meaning recorded.old.terms A.address) recorded.old recorded.new next.now
        []) }
{
    let _moves = recorded.moves();
    if drop_branch(recorded, branch, next)? {
        Ok(())
    } else {
        unreachable!()
    }
}

// Makes the commit of a record of a version that may come, from its objects.
fn replay_commit<T: Mrdt, A: Address>(
    alloc: Global,
    version: u32,
    recorded: &mut Recorded<T, A>,
    next: &Record,
    end: u64,
    ahead: &mut Ahead,
) -> Result<(), ReplayRefused>
    requires settled { recorded.old.pending ≡ [] }
    requires end { end ≡ end_at next.now }
    requires makes { MakesCommit next.now }
    requires known { AreKnown (fix T.meaning recorded.old.terms A.address) recorded.old.written }
    requires of { IsRecord version next.now }
    requires may { MayCome (fix T.meaning recorded.old.terms A.address) recorded.old.written
        next.now }
    ensures went { OnOk result
        (GoesOn (fix T.meaning recorded.old.terms A.address) recorded.old recorded.new next.now
        (bytes_ahead (fix T.meaning recorded.old.terms A.address) recorded.old.written ahead.old
        next.now)) }
    ensures left { OnOk result
        (ahead.new ≡ left_ahead (fix T.meaning recorded.old.terms A.address) recorded.old.written
        ahead.old next.now) }
    ensures stops { let own = fix_in (form_of version) T.meaning recorded.old.terms A.address in
        IfErr result (StopsAheadAs own recorded.old.written ahead.old next.now) }
{
    let now = standing_of(recorded);
    let place = now.end;
    if end - place > ahead.len() {
        return Err(ReplayRefused::Truncated {
            part: Part::Objects,
            place,
        });
    }
    let Ok(bytes) = ahead.take(end - place) else {
        return Err(ReplayRefused::Memory);
    };
    match remake_commit(alloc, version, recorded, next, &bytes) {
        Ok(()) => Ok(()),
        Err(NotRemade::Object) => Err(ReplayRefused::BadObject { place }),
        Err(NotRemade::Commit) => Err(ReplayRefused::BadCommit {
            number: now.commits,
        }),
        Err(NotRemade::Memory) => Err(ReplayRefused::Memory),
    }
}
