// Making a move anew, and comparing it with its record and its region.
ghost use Rattle.std.specs.Prelude.{◌≡◌, ◌∷◌, [], List, ℕ, IfOk, IfSome, IsNone, Some};
ghost use Rattle.branch_history.specs.History.{store_of};
ghost use Rattle.branch_history.specs.Steps as machine;
ghost use Rattle.branch_machine.specs.Fixed.{fix};
ghost use Rattle.branch_machine.specs.Machine.{full_turn};
ghost use Rattle.branch_files.specs.Next.{HasBranch, HasCommit, AreJoined};
ghost use Rattle.branch_files.specs.Records.{record_of};
ghost use Rattle.branch_names.specs.Heads.{branch_named, head_of};
ghost use Rattle.branch_history.specs.declared.moves.Move.{Move as SpecMove};
ghost use Rattle.store_seen.specs.Turns.{step_of};
ghost use Rattle.commit_replay.specs.Plans.{step_for};
ghost use Rattle.commit_replay.specs.Walk.{HasPlan, Remade, IsKeptIfSame};

use crate::lookups::{branch_at, look_at};
use crate::plan::Plan;
use branch_address::Address;
use branch_names::Name;
use heads_journal::{Joined, Record};
use mrdt_model::{Memory, Mrdt};
use recorded_history::{
    Addressed, DropRefused, ForkRefused, LandRefused, PairPrepareRefused, PairStep, PlaceRefused,
    PrepareRefused, Prepared, Recorded,
};

// Makes the move of a plan, where it has this record and this region.
pub fn remake<T: Mrdt, A: Address>(
    recorded: &mut Recorded<T, A>,
    plan: Plan<T::Op>,
    next: &Record,
    bytes: &[u8],
) -> Result<bool, Memory>
    requires settled { recorded.old.pending ≡ [] }
    requires there { HasPlan (store_of recorded.old.terms.origin recorded.old.written) plan }
    ensures remade { IfOk result
        (Remade (fix T.meaning recorded.old.terms A.address) recorded.old recorded.new
        (step_for recorded.old.terms recorded.old.written plan) next.now bytes.now) }
{
    match prepared(recorded, plan)? {
        Some(prepared) => land(recorded, prepared, next, bytes),
        None => Ok(false),
    }
}

// What a plan lands on the newest head of its branch; nothing where the machine makes no move of it.
fn prepared<T: Mrdt, A: Address>(
    recorded: &mut Recorded<T, A>,
    plan: Plan<T::Op>,
) -> Result<Option<Prepared<T>>, Memory>
    requires settled { recorded.old.pending ≡ [] }
    requires there { HasPlan (store_of recorded.old.terms.origin recorded.old.written) plan }
    ensures some { IfOk result (λ found. IfSome found (λ p. (p.seen.history ≡ recorded.old.written)
        × (p.seen.terms ≡ recorded.old.terms)
        × (step_of {Q = T.Query} p.seen p.work
        ≡ step_for recorded.old.terms recorded.old.written plan))) }
    ensures none { IfOk result (λ found. IsNone found
        → (full_turn (fix T.meaning recorded.old.terms A.address) recorded.old.written
        (step_for recorded.old.terms recorded.old.written plan)).made ≡ []) }
    ensures same { recorded.new ≡ recorded.old }
{
    match plan {
        Plan::Operation { branch, op } => prepared_operation(recorded, branch, op),
        Plan::Merge { branch, commit } => prepared_merge(recorded, branch, commit),
        Plan::Join { branch, commits } => prepared_join(recorded, branch, &commits),
    }
}

// An operation on the newest head of a branch.
fn prepared_operation<T: Mrdt, A: Address>(
    recorded: &Recorded<T, A>,
    branch: u32,
    op: T::Op,
) -> Result<Option<Prepared<T>>, Memory>
    requires settled { recorded.now.pending ≡ [] }
    requires there { HasBranch (store_of recorded.now.terms.origin recorded.now.written) branch }
    ensures some { IfOk result (λ found. IfSome found (λ p. (p.seen.history ≡ recorded.now.written)
        × (p.seen.terms ≡ recorded.now.terms)
        × (step_of {Q = T.Query} p.seen p.work
        ≡ machine.Land branch
        (head_of (store_of recorded.now.terms.origin recorded.now.written).branches branch) op))) }
    ensures none { IfOk result (λ found. IsNone found
        → (full_turn (fix T.meaning recorded.now.terms A.address) recorded.now.written
        (machine.Land branch
        (head_of (store_of recorded.now.terms.origin recorded.now.written).branches branch)
        op)).made ≡ []) }
{
    let seen = look_at(recorded, branch)?;
    match seen.prepare(op) {
        Ok(prepared) => Ok(Some(prepared)),
        Err(PrepareRefused::Exhausted { .. }) => Ok(None),
        Err(PrepareRefused::ValueTooLarge { .. }) => Ok(None),
        Err(PrepareRefused::Memory) => Err(Memory),
    }
}

// A commit merged into the newest head of a branch.
fn prepared_merge<T: Mrdt, A: Address>(
    recorded: &mut Recorded<T, A>,
    branch: u32,
    commit: u32,
) -> Result<Option<Prepared<T>>, Memory>
    requires settled { recorded.old.pending ≡ [] }
    requires branch { HasBranch (store_of recorded.old.terms.origin recorded.old.written) branch }
    requires commit { HasCommit (store_of recorded.old.terms.origin recorded.old.written) commit }
    ensures some { IfOk result (λ found. IfSome found (λ p. (p.seen.history ≡ recorded.old.written)
        × (p.seen.terms ≡ recorded.old.terms)
        × (step_of {Q = T.Query} p.seen p.work
        ≡ machine.Merge branch
        (head_of (store_of recorded.old.terms.origin recorded.old.written).branches branch)
        (commit ∷ [])))) }
    ensures none { IfOk result (λ found. IsNone found
        → (full_turn (fix T.meaning recorded.old.terms A.address) recorded.old.written
        (machine.Merge branch
        (head_of (store_of recorded.old.terms.origin recorded.old.written).branches branch)
        (commit ∷ []))).made ≡ []) }
    ensures same { recorded.new ≡ recorded.old }
{
    let seen = look_at(recorded, branch)?;
    match recorded.prepare_at(&seen, commit) {
        Ok(PairStep::Same) => Ok(None),
        Ok(PairStep::Land(prepared)) => Ok(Some(prepared)),
        Err(PairPrepareRefused::ValueTooLarge { .. }) => Ok(None),
        Err(PairPrepareRefused::Memory) => Err(Memory),
    }
}

// Several commits joined to the newest head of a branch.
fn prepared_join<T: Mrdt, A: Address>(
    recorded: &mut Recorded<T, A>,
    branch: u32,
    commits: &Joined,
) -> Result<Option<Prepared<T>>, Memory>
    requires settled { recorded.old.pending ≡ [] }
    requires branch { HasBranch (store_of recorded.old.terms.origin recorded.old.written) branch }
    requires joined { AreJoined (store_of recorded.old.terms.origin recorded.old.written) branch
        commits.now }
    ensures some { IfOk result (λ found. IfSome found (λ p. (p.seen.history ≡ recorded.old.written)
        × (p.seen.terms ≡ recorded.old.terms)
        × (step_of {Q = T.Query} p.seen p.work
        ≡ machine.Merge branch
        (head_of (store_of recorded.old.terms.origin recorded.old.written).branches branch)
        commits.now))) }
    ensures none { IfOk result (λ found. IsNone found
        → (full_turn (fix T.meaning recorded.old.terms A.address) recorded.old.written
        (machine.Merge branch
        (head_of (store_of recorded.old.terms.origin recorded.old.written).branches branch)
        commits.now)).made ≡ []) }
    ensures same { recorded.new ≡ recorded.old }
{
    let seen = look_at(recorded, branch)?;
    match recorded.prepare_all_at(&seen, commits.as_slice()) {
        Ok(PairStep::Same) => Ok(None),
        Ok(PairStep::Land(prepared)) => Ok(Some(prepared)),
        Err(PairPrepareRefused::ValueTooLarge { .. }) => Ok(None),
        Err(PairPrepareRefused::Memory) => Err(Memory),
    }
}

// Lands what was prepared, where its move has this record and this region.
fn land<T: Mrdt, A: Address>(
    recorded: &mut Recorded<T, A>,
    prepared: Prepared<T>,
    next: &Record,
    bytes: &[u8],
) -> Result<bool, Memory>
    requires settled { recorded.old.pending ≡ [] }
    requires history { prepared.seen.history ≡ recorded.old.written }
    requires terms { prepared.seen.terms ≡ recorded.old.terms }
    ensures { IfOk result
        (Remade (fix T.meaning recorded.old.terms A.address) recorded.old recorded.new
        (step_of prepared.seen prepared.work) next.now bytes.now) }
{
    match recorded.land(Addressed::later(prepared)) {
        Ok(made) => {
            let _moves = recorded.moves();
            Ok(keep_if_same(recorded, &made.record, next, bytes))
        }
        Err(LandRefused::Memory) => Err(Memory),
        Err(LandRefused::Dropped { .. }) => Ok(false),
        Err(LandRefused::Stale { .. }) => Ok(false),
        Err(LandRefused::FullCommits { .. }) => Ok(false),
        Err(LandRefused::FullMoves { .. }) => Ok(false),
        Err(LandRefused::Collision { .. }) => Ok(false),
    }
}

// Forks a branch from another, where its move has this record.
pub fn fork<T: Mrdt, A: Address>(
    recorded: &mut Recorded<T, A>,
    name: Name,
    from: u32,
    next: &Record,
) -> Result<bool, Memory>
    requires settled { recorded.old.pending ≡ [] }
    requires there { HasBranch (store_of recorded.old.terms.origin recorded.old.written) from }
    ensures { IfOk result (λ same. (source : List ℕ)
        × (branch_named (store_of recorded.old.terms.origin recorded.old.written).branches source
        ≡ Some from) × Remade (fix T.meaning recorded.old.terms A.address) recorded.old recorded.new
        (machine.Fork name source) next.now [] same) }
{
    let (source, _head) = branch_at(recorded, from);
    match recorded.fork(name, &source) {
        Ok(branched) => {
            let _moves = recorded.moves();
            Ok(keep_if_same(recorded, &branched.record, next, &[]))
        }
        Err(ForkRefused::Memory) => Err(Memory),
        Err(ForkRefused::UnknownBranch { .. }) => Ok(false),
        Err(ForkRefused::NameTaken { .. }) => Ok(false),
        Err(ForkRefused::FullBranches { .. }) => Ok(false),
        Err(ForkRefused::FullMoves { .. }) => Ok(false),
    }
}

// Places a branch at a commit, where its move has this record.
pub fn place<T: Mrdt, A: Address>(
    recorded: &mut Recorded<T, A>,
    name: Name,
    commit: u32,
    next: &Record,
) -> Result<bool, Memory>
    requires settled { recorded.old.pending ≡ [] }
    requires there { HasCommit (store_of recorded.old.terms.origin recorded.old.written) commit }
    ensures { IfOk result
        (Remade (fix T.meaning recorded.old.terms A.address) recorded.old recorded.new
        (machine.Place name commit) next.now []) }
{
    match recorded.place(name, commit) {
        Ok(placed) => {
            let _moves = recorded.moves();
            Ok(keep_if_same(recorded, &placed.record, next, &[]))
        }
        Err(PlaceRefused::Memory) => Err(Memory),
        Err(PlaceRefused::NameTaken { .. }) => Ok(false),
        Err(PlaceRefused::FullBranches { .. }) => Ok(false),
        Err(PlaceRefused::FullMoves { .. }) => Ok(false),
    }
}

// Drops a branch from its newest head, where its move has this record.
pub fn drop_branch<T: Mrdt, A: Address>(
    recorded: &mut Recorded<T, A>,
    branch: u32,
    next: &Record,
) -> Result<bool, Memory>
    requires settled { recorded.old.pending ≡ [] }
    requires there { HasBranch (store_of recorded.old.terms.origin recorded.old.written) branch }
    ensures { IfOk result
        (Remade (fix T.meaning recorded.old.terms A.address) recorded.old recorded.new
        (machine.Drop branch
        (head_of (store_of recorded.old.terms.origin recorded.old.written).branches branch))
        next.now []) }
{
    let seen = look_at(recorded, branch)?;
    match recorded.drop_branch(&seen) {
        Ok(dropped) => {
            let _moves = recorded.moves();
            Ok(keep_if_same(recorded, &dropped.record, next, &[]))
        }
        Err(DropRefused::Memory) => Err(Memory),
        Err(DropRefused::Dropped { .. }) => Ok(false),
        Err(DropRefused::KeepsMain) => Ok(false),
        Err(DropRefused::Stale { .. }) => Ok(false),
        Err(DropRefused::FullMoves { .. }) => Ok(false),
    }
}

// Settles the pending move where it has the record and the region that stand in the files, and else undoes it.
pub fn keep_if_same<T: Mrdt, A: Address>(
    recorded: &mut Recorded<T, A>,
    own: &Record,
    next: &Record,
    bytes: &[u8],
) -> bool
    ensures { (made : SpecMove T.Op T.Reply) → recorded.old.pending ≡ made ∷ []
        → own.now ≡ record_of (fix T.meaning recorded.old.terms A.address) recorded.old.written made
        → IsKeptIfSame (fix T.meaning recorded.old.terms A.address) recorded.old recorded.new made
        next.now bytes.now result }
{
    let same = *own == *next && recorded.region() == bytes;
    if same {
        recorded.settle();
    } else {
        recorded.undo();
    }
    same
}
