// Moves made again, one after the other, on a new store.
ghost use Rattle.std.specs.Prelude.{◌≡◌, ◌≢◌, ◌<◌, ◌∷◌, [], length, IfOk, IfErr, OnOk, Result, Ok, Err, Some, false};
ghost use Rattle.std.specs.Option.{ForSome};
ghost use Rattle.branch_io.specs.Causes.{HasCauseOf};
ghost use Rattle.branch_disk.specs.Disk.{Files, LeavesOnly};
ghost use Rattle.branch_names.specs.Heads.{name_of, head_of, IsKeptBranch};
ghost use Rattle.branch_history.specs.declared.moves.Move.TheVariants as move;
ghost use Rattle.branch_history.specs.History.{store_of};
ghost use Rattle.branch_history.specs.Steps as machine;
ghost use Rattle.branch_machine.specs.Fixed.{fix};
ghost use Rattle.branch_renewal.specs.Laws.{Repeats, RepeatsAll};
ghost use Rattle.store_seen.specs.Turns.{at_head};
ghost use Rattle.store_core.specs.Images.{AllStand};
ghost use Rattle.branch_machine.specs.Validity.{IsFullyValid};
ghost use Rattle.store_core.specs.Inits.{IsEmpty};
ghost use Rattle.store_core.specs.Turns.{step_made};
ghost use Rattle.store_core.specs.Views.{held};
ghost use Rattle.moves_again.specs.Again.{MakesOne, MakesSo, LeavesOne, LeavesSo, MakesAll, RepeatsSome, StandsWithSome, NoneOrSome, AllMade, MakeRefusedAs, stopped};

use crate::answers::{MakeRefused, MoveRefused};
use branch_address::Address;
use branch_disk::Disk;
use branch_history::Move;
use branch_names::{Name, Terms};
use mrdt_model::{Listing, Memory, Mrdt};
use std::alloc::Global;
use store_core::{Core, LookRefused, PairStep, Prepared, Seen};

// A look at the branch of this number, which was not dropped.
fn look_at<T: Mrdt, D: Disk + Drop, A: Address>(
    core: &Core<T, D, A>,
    branch: u32,
) -> Result<Seen<T>, Memory>
    requires { IsKeptBranch (store_of core.now.terms.origin core.now.history).branches branch }
    ensures { let head = head_of (store_of core.now.terms.origin core.now.history).branches
        branch in
        IfOk result (λ seen. seen ≡ at_head (held core.now) branch head) }
{
    let (name, _) = core.branch(branch).unwrap();
    match core.look(&name) {
        Ok(seen) => Ok(seen),
        Err(LookRefused::UnknownBranch { .. }) => unreachable!(),
        Err(LookRefused::Memory) => Err(Memory),
    }
}

// Lands what was prepared on the newest history.
fn land_again<T: Mrdt, D: Disk + Drop, A: Address>(
    core: &mut Core<T, D, A>,
    prepared: Prepared<T>,
) -> Result<(), MoveRefused>
    requires working { core.old.failed ≡ false }
    requires history { prepared.seen.history ≡ core.old.history }
    requires terms { prepared.seen.terms ≡ core.old.terms }
    requires repeats { let fixed = fix T.meaning core.old.terms A.address in
        RepeatsSome fixed core.old.history (step_made prepared) }
    ensures made { let fixed = fix T.meaning core.old.terms A.address in
        MakesSo fixed (step_made prepared) core.old core.new result }
    ensures moments { let fixed = fix T.meaning core.old.terms A.address in
        LeavesSo D.Disk fixed (step_made prepared) core.old core.new }
    ensures cause { HasCauseOf MoveRefused.DiskFault
        (D.faults core.old.disk) (D.faults core.new.disk) result }
{
    match core.land(prepared) {
        Ok(_) => Ok(()),
        Err(refused) => Err(MoveRefused::from(refused)),
    }
}

// Forks a new branch from the branch of this number, which was not dropped.
fn fork_again<T: Mrdt, D: Disk + Drop, A: Address>(
    core: &mut Core<T, D, A>,
    name: Name,
    from: u32,
) -> Result<(), MoveRefused>
    requires working { core.old.failed ≡ false }
    requires kept { IsKeptBranch (store_of core.old.terms.origin core.old.history).branches from }
    requires repeats { let fixed = fix T.meaning core.old.terms A.address in
        let named = name_of (store_of core.old.terms.origin core.old.history).branches from in
        RepeatsSome fixed core.old.history (machine.Fork name named) }
    ensures made { let fixed = fix T.meaning core.old.terms A.address in
        let named = name_of (store_of core.old.terms.origin core.old.history).branches from in
        MakesSo fixed (machine.Fork name named) core.old core.new result }
    ensures moments { let fixed = fix T.meaning core.old.terms A.address in
        let named = name_of (store_of core.old.terms.origin core.old.history).branches from in
        LeavesSo D.Disk fixed (machine.Fork name named) core.old core.new }
    ensures cause { HasCauseOf MoveRefused.DiskFault
        (D.faults core.old.disk) (D.faults core.new.disk) result }
{
    let (from, _) = core.branch(from).unwrap();
    match core.fork(name, &from) {
        Ok(_) => Ok(()),
        Err(refused) => Err(MoveRefused::from(refused)),
    }
}

// Lands an operation on the head of the branch of this number, which was not dropped.
fn operation_again<T: Mrdt, D: Disk + Drop, A: Address>(
    core: &mut Core<T, D, A>,
    branch: u32,
    op: T::Op,
) -> Result<(), MoveRefused>
    requires working { core.old.failed ≡ false }
    requires kept { IsKeptBranch (store_of core.old.terms.origin core.old.history).branches branch }
    requires repeats { let fixed = fix T.meaning core.old.terms A.address in
        let head = head_of (store_of core.old.terms.origin core.old.history).branches branch in
        RepeatsSome fixed core.old.history (machine.Land branch head op) }
    ensures made { let fixed = fix T.meaning core.old.terms A.address in
        let head = head_of (store_of core.old.terms.origin core.old.history).branches branch in
        MakesSo fixed (machine.Land branch head op) core.old core.new result }
    ensures moments { let fixed = fix T.meaning core.old.terms A.address in
        let head = head_of (store_of core.old.terms.origin core.old.history).branches branch in
        LeavesSo D.Disk fixed (machine.Land branch head op) core.old core.new }
    ensures cause { HasCauseOf MoveRefused.DiskFault
        (D.faults core.old.disk) (D.faults core.new.disk) result }
{
    let Ok(seen) = look_at(core, branch) else {
        return Err(MoveRefused::Memory);
    };
    match seen.prepare(op) {
        Ok(prepared) => land_again(core, prepared),
        Err(refused) => Err(MoveRefused::from(refused)),
    }
}

// Makes the merge of a commit into the head of the branch of this number, which was not dropped, ready to land.
fn merge_at<T: Mrdt, D: Disk + Drop, A: Address>(
    core: &Core<T, D, A>,
    branch: u32,
    commit: u32,
) -> Result<Prepared<T>, MoveRefused>
    requires kept { IsKeptBranch (store_of core.now.terms.origin core.now.history).branches branch }
    requires repeats { let fixed = fix T.meaning core.now.terms A.address in
        let head = head_of (store_of core.now.terms.origin core.now.history).branches branch in
        RepeatsSome fixed core.now.history (machine.Merge branch head (commit ∷ [])) }
    ensures prepared { let head = head_of (store_of core.now.terms.origin core.now.history).branches
        branch in
        IfOk result (λ made. (made.seen ≡ at_head (held core.now) branch head)
        × (step_made {Q = T.Query} made ≡ machine.Merge branch head (commit ∷ []))) }
    ensures refused { let fixed = fix T.meaning core.now.terms A.address in
        let head = head_of (store_of core.now.terms.origin core.now.history).branches branch in
        IfErr result (λ e. (e ≢ MoveRefused.DiskFault)
        × MakesSo fixed (machine.Merge branch head (commit ∷ [])) core.now core.now (Err e)) }
{
    let Ok(seen) = look_at(core, branch) else {
        return Err(MoveRefused::Memory);
    };
    let Ok(pair) = core.pair_at(&seen, commit) else {
        return Err(MoveRefused::Memory);
    };
    match pair.prepare() {
        Ok(PairStep::Same) => unreachable!(),
        Ok(PairStep::Land(prepared)) => Ok(prepared),
        Err(refused) => Err(MoveRefused::from(refused)),
    }
}

// Merges a commit into the head of the branch of this number, which was not dropped, or moves that head up to it.
fn merge_again<T: Mrdt, D: Disk + Drop, A: Address>(
    core: &mut Core<T, D, A>,
    branch: u32,
    commit: u32,
) -> Result<(), MoveRefused>
    requires working { core.old.failed ≡ false }
    requires kept { IsKeptBranch (store_of core.old.terms.origin core.old.history).branches branch }
    requires repeats { let fixed = fix T.meaning core.old.terms A.address in
        let head = head_of (store_of core.old.terms.origin core.old.history).branches branch in
        RepeatsSome fixed core.old.history (machine.Merge branch head (commit ∷ [])) }
    ensures made { let fixed = fix T.meaning core.old.terms A.address in
        let head = head_of (store_of core.old.terms.origin core.old.history).branches branch in
        MakesSo fixed (machine.Merge branch head (commit ∷ [])) core.old core.new result }
    ensures moments { let fixed = fix T.meaning core.old.terms A.address in
        let head = head_of (store_of core.old.terms.origin core.old.history).branches branch in
        LeavesSo D.Disk fixed (machine.Merge branch head (commit ∷ [])) core.old core.new }
    ensures cause { HasCauseOf MoveRefused.DiskFault
        (D.faults core.old.disk) (D.faults core.new.disk) result }
{
    match merge_at(core, branch, commit) {
        Ok(prepared) => land_again(core, prepared),
        Err(refused) => Err(refused),
    }
}

// Makes one move again.
fn make_one<T: Mrdt, D: Disk + Drop, A: Address>(
    core: &mut Core<T, D, A>,
    made: Move<T::Op, T::Reply>,
) -> Result<(), MoveRefused>
    requires working { core.old.failed ≡ false }
    requires repeats { Repeats (fix T.meaning core.old.terms A.address) core.old.history made }
    ensures made { let fixed = fix T.meaning core.old.terms A.address in
        MakesOne fixed made core.old core.new result }
    ensures moments { let fixed = fix T.meaning core.old.terms A.address in
        LeavesOne D.Disk fixed made core.old core.new }
    ensures cause { HasCauseOf MoveRefused.DiskFault
        (D.faults core.old.disk) (D.faults core.new.disk) result }
{
    match made {
        Move::Fork { name, from, .. } => fork_again(core, name, from),
        Move::Operation { branch, op, .. } => operation_again(core, branch, op),
        Move::Merge { branch, commit } => merge_again(core, branch, commit),
        Move::Forward { branch, commit } => merge_again(core, branch, commit),
        Move::Join { .. } => unreachable!(),
        Move::Received { .. } => unreachable!(),
        Move::Place { .. } => unreachable!(),
        Move::Drop { .. } => unreachable!(),
    }
}

// Makes more moves again, one after the other, until one of them is not made.
fn make_all<T: Mrdt, D: Disk + Drop, A: Address>(
    core: &mut Core<T, D, A>,
    moves: Vec<Move<T::Op, T::Reply>>,
) -> Result<(), MoveRefused>
    requires working { core.old.failed ≡ false }
    requires repeats { let fixed = fix T.meaning core.old.terms A.address in
        RepeatsAll fixed core.old.history moves.items }
    ensures made { let fixed = fix T.meaning core.old.terms A.address in
        MakesAll fixed moves.items core.old core.new result }
    ensures moments { let fixed = fix T.meaning core.old.terms A.address in
        LeavesOnly D.moment D.left_since core.old.disk core.new.disk
        (StandsWithSome fixed core.old.history moves.items) }
    ensures cause { HasCauseOf MoveRefused.DiskFault
        (D.faults core.old.disk) (D.faults core.new.disk) result }
{
    let _ = core.moves();
    for made in moves {
        match make_one(core, made) {
            Ok(()) => {}
            Err(refused) => return Err(refused),
        }
        let _ = core.moves();
    }
    Ok(())
}

// The disk of a store, with what making its moves came to.
fn finish<T: Mrdt, D: Disk + Drop, A: Address>(
    core: Core<T, D, A>,
    made: Result<(), MoveRefused>,
) -> Result<(u64, D), (MakeRefused, D)>
    ensures ok { OnOk made (result ≡ Ok (length core.history, core.disk)) }
    ensures err { let commits = (store_of core.terms.origin core.history).commits in
        IfErr made (λ e. result ≡ Err (stopped (length commits) e, core.disk)) }
    ensures valid { IsFullyValid (fix T.meaning core.terms A.address) core.history }
    ensures stands { core.failed ≡ false
        → AllStand (fix T.meaning core.terms A.address) core.history (D.may_leave core.disk) }
{
    let commits = core.commits();
    let moves = core.moves();
    let disk = core.close();
    match made {
        Ok(()) => Ok((moves, disk)),
        Err(MoveRefused::Refused) => Err((MakeRefused::Refused { number: commits }, disk)),
        Err(MoveRefused::DiskFault) => Err((MakeRefused::DiskFault, disk)),
        Err(MoveRefused::Memory) => Err((MakeRefused::Memory, disk)),
    }
}

/// Makes moves again as a store of an empty disk, each by the step that makes it. The machine makes each, or refuses it for
/// what its new value or a new object is: `Refused` comes exactly where it refuses one, names that commit, and leaves
/// those before it on the disk. `NotEmpty` comes exactly where the disk has a byte, and then nothing is written.
///
/// At each moment a crash leaves a disk that is no store, or has some first ones of the moves, where each image was
/// empty at the start. Says how many moves there are, and hands the disk back.
pub fn make_again<T: Mrdt, D: Disk + Drop, A: Address>(
    alloc: Global,
    disk: D,
    terms: Terms,
    moves: Listing<Move<T::Op, T::Reply>>,
) -> Result<(u64, D), (MakeRefused, D)>
    requires repeats { RepeatsAll (fix T.meaning terms A.address) [] moves }
    ensures made { let fixed = fix T.meaning terms A.address in
        IfOk result (λ r. AllMade fixed moves r.0 (D.may_leave r.1)) }
    ensures empty { OnOk result (ForSome (D.contents disk) IsEmpty) }
    ensures refused { let fixed = fix T.meaning terms A.address in
        IfErr result (λ e.
        MakeRefusedAs fixed moves (D.contents disk) (D.contents e.1) (D.may_leave e.1) e.0) }
    ensures moments { let fixed = fix T.meaning terms A.address in
        ((c : Files) → D.may_leave disk c → IsEmpty c)
        → IfOk result (λ r. LeavesOnly D.moment D.left_since disk r.1 (NoneOrSome fixed moves)) }
    ensures moments_err { let fixed = fix T.meaning terms A.address in
        ((c : Files) → D.may_leave disk c → IsEmpty c)
        → IfErr result (λ e. LeavesOnly D.moment D.left_since disk e.1 (NoneOrSome fixed moves)) }
    ensures kept { IfErr result (λ e. (f : Files) → D.contents disk ≡ Some f → ¬ IsEmpty f
        → LeavesOnly D.moment D.left_since disk e.1 (D.may_leave disk)) }
    ensures no_cause { IfOk result (λ r. D.faults r.1 ≡ D.faults disk) }
    ensures cause { IfErr result (λ e. HasCauseOf {T = Unit {0}} MakeRefused.DiskFault
        (D.faults disk) (D.faults e.1) (Err e.0)) }
{
    let mut core = match Core::<T, D, A>::init(alloc, disk, terms) {
        Ok(core) => core,
        Err((refused, disk)) => return Err((MakeRefused::from(refused), disk)),
    };
    let made = make_all(&mut core, moves.into_vec());
    finish(core, made)
}
