// One record of a move that makes a commit, with the bytes of its objects.
ghost use Rattle.std.specs.Prelude.{◌≡◌, ◌↔◌, ◌+◌, ◌≤◌, ℕ, List, [], length, IfErr, IfOk, IfSome, IsErrOf, IsTrue, OnOk};
ghost use Rattle.std.specs.declared.option.Option.{Option as SpecOption};
ghost use Rattle.branch_wire.specs.Objects.{CommitFields};
ghost use Rattle.branch_history.specs.History.{store_of};
ghost use Rattle.branch_machine.specs.Fixed.{fix, fix_in};
ghost use Rattle.branch_machine.specs.Objects.{end_of};
ghost use Rattle.branch_files.specs.Next.{end_at};
ghost use Rattle.branch_files.specs.Records.{AreKnown};
ghost use Rattle.heads_journal.specs.Format.{Fits};
ghost use Rattle.commit_replay.specs.Follows.{form_of, MayCome};
ghost use Rattle.commit_replay.specs.Parts.{AreParts, IsDoneIn, IsWhyNot, unread_as};
ghost use Rattle.commit_replay.specs.Walk.{GoesOn, HasPlan, MadeAnew, NotRemadeAs};

use crate::parts::{Parts, parted};
use crate::plan::{Plan, planned};
use crate::receive::receive;
use crate::remake::remake;
use branch_address::Address;
use heads_journal::Record;
use mrdt_model::{Bytes, Memory, Mrdt, Unread};
use recorded_history::Recorded;
use std::alloc::Global;

// Why no commit was made anew.
#[derive(Clone, Copy, Debug, PartialEq, Eq)]
pub enum NotRemade {
    // The bytes are no objects of such a commit.
    Object,
    // The bytes or the record are not those of the commit that is made so.
    Commit,
    // Want of memory.
    Memory,
}

// What it means that bytes of objects were not read.
fn unread(why: Unread) -> NotRemade
    ensures { result ≡ unread_as why }
{
    match why {
        Unread::NotCanonical => NotRemade::Object,
        Unread::Memory => NotRemade::Memory,
    }
}

// The version whose merges are of two commits alone.
const OLD: u32 = 1;

// How many parents a commit has there at the most.
const OLD_PARENTS: usize = 2;

// Whether a commit in files of a version may have as many parents.
fn are_few(version: u32, parents: usize) -> bool
    ensures { IsTrue result ↔ (version ≡ 1 → parents ≤ 2) }
{
    version != OLD || parents <= OLD_PARENTS
}

// Makes a commit anew from what its object says is done there, in files of a version.
pub fn remake_commit<T: Mrdt, A: Address>(
    alloc: Global,
    version: u32,
    recorded: &mut Recorded<T, A>,
    next: &Record,
    bytes: &[u8],
) -> Result<(), NotRemade>
    requires settled { recorded.old.pending ≡ [] }
    requires known { AreKnown (fix T.meaning recorded.old.terms A.address) recorded.old.written }
    requires fits { Fits next.now }
    requires may { MayCome (fix T.meaning recorded.old.terms A.address) recorded.old.written
        next.now }
    requires long { end_of (fix T.meaning recorded.old.terms A.address)
        recorded.old.written + length bytes.now ≡ end_at next.now }
    ensures went { OnOk result
        (GoesOn (fix T.meaning recorded.old.terms A.address) recorded.old recorded.new next.now
        bytes.now) }
    ensures not { let own = fix_in (form_of version) T.meaning recorded.old.terms A.address in
        IfErr result (NotRemadeAs own recorded.old.written next.now bytes.now) }
{
    let _moves = recorded.moves();
    let parts = match parts_of(alloc, recorded, bytes) {
        Ok(parts) => parts,
        Err(why) => return Err(unread(why)),
    };
    if !are_few(version, parts.parents) {
        return Err(NotRemade::Object);
    }
    let plan = match planned::<T>(alloc, next, &parts.action) {
        Ok(plan) => plan,
        Err(why) => return Err(unread(why)),
    };
    match made_anew(alloc, recorded, plan, &parts, next, bytes) {
        Ok(true) => Ok(()),
        Ok(false) => Err(why_not::<T>(alloc, &parts.value)),
        Err(Memory) => Err(NotRemade::Memory),
    }
}

// The parts of a commit that the bytes are in the layout of a store, and no more.
fn parts_of<T: Mrdt, A: Address>(
    alloc: Global,
    recorded: &Recorded<T, A>,
    bytes: &[u8],
) -> Result<Parts, Unread>
    ensures parts { IfOk result (IsDoneIn recorded.now.terms.layout bytes.now) }
    ensures none { IsErrOf result Unread.NotCanonical → (value : SpecOption (List ℕ))
        (c : CommitFields) → AreParts recorded.now.terms.layout bytes.now value c → ⊥ }
{
    parted(alloc, recorded.terms().layout, bytes)
}

// Makes the move of a plan, and without one the move that receives the commit of these parts, where it has this record
// and this region.
fn made_anew<T: Mrdt, A: Address>(
    alloc: Global,
    recorded: &mut Recorded<T, A>,
    plan: Option<Plan<T::Op>>,
    parts: &Parts,
    next: &Record,
    bytes: &[u8],
) -> Result<bool, Memory>
    requires settled { recorded.old.pending ≡ [] }
    requires there { IfSome plan
        (HasPlan (store_of recorded.old.terms.origin recorded.old.written)) }
    requires parts { IsDoneIn recorded.old.terms.layout bytes.now parts.now }
    ensures { IfOk result
        (MadeAnew (fix T.meaning recorded.old.terms A.address) recorded.old recorded.new plan
        parts.now next.now bytes.now) }
{
    match plan {
        Some(plan) => remake(recorded, plan, next, bytes),
        None => receive(alloc, recorded, parts, next, bytes),
    }
}

// Why the bytes of a commit were refused, whose value's object, if it stands there, has this spelling.
fn why_not<T: Mrdt>(alloc: Global, value: &Option<Bytes>) -> NotRemade
    ensures { IsWhyNot T.meaning value.now result }
{
    match value {
        None => NotRemade::Commit,
        Some(spelling) => match T::get(alloc, spelling.as_slice()) {
            Ok(_) => NotRemade::Commit,
            Err(why) => unread(why),
        },
    }
}
