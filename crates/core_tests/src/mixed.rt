// Batches of unlike jobs, each of which is answered behind the jobs before it.
ghost use Rattle.std.specs.Prelude.{◌≡◌, All, length, IfOk};
ghost use mathlib.Core.List.{IsPrefix};

use crate::batches::additions;
use crate::stores::{Numbered, addition, fork_all, fresh, named, terms_from};
use crate::told::{Told, told_all};
use branch_address::{Address, Sha256Address, WeakAddress};
use branch_disk::MemoryDisk;
use branch_names::{Layout, Limits, Terms};
use mrdt_counter::Sum;
use mrdt_model::Mrdt;
use std::alloc::Global;
use std::process::Abort;
use std::test::Fail;
use store_core::{Core, PairStep, Prepared};

// Terms for 5 commits, with commit 0, and 12 moves.
fn small(rt: &impl Abort) -> Terms {
    let limits = Limits::new(100, 5, 10, 100, 12).expect(rt, "limits");
    Terms::new(limits, 0, 0, Layout::Whole).expect(rt, "terms")
}

// Lands an addition to what a branch has now.
fn land_one<T: Numbered, A: Address>(rt: &impl Abort, core: &mut Core<T, MemoryDisk, A>, branch: u8)
    ensures history { IsPrefix core.old.history core.new.history }
    ensures terms { core.new.terms ≡ core.old.terms }
{
    let job = addition(rt, core, &named(rt, branch), 5);
    assert!(rt; core.land(job).is_ok());
}

// Drops a branch at what it has now.
fn drop_branch<T: Mrdt, A: Address>(rt: &impl Abort, core: &mut Core<T, MemoryDisk, A>, branch: u8)
    ensures history { IsPrefix core.old.history core.new.history }
    ensures terms { core.new.terms ≡ core.old.terms }
{
    let Ok(seen) = core.look(&named(rt, branch)) else {
        panic!(rt; "no branch")
    };
    assert!(rt; core.drop_branch(&seen).is_ok());
}

// A merge of what `q` has now into a branch, or its move up to that.
fn merge<T: Mrdt, A: Address>(
    rt: &impl Abort,
    core: &Core<T, MemoryDisk, A>,
    branch: u8,
) -> Prepared<T>
    ensures history { IsPrefix result.seen.history core.now.history }
    ensures terms { result.seen.terms ≡ core.now.terms }
{
    let Ok(seen) = core.look(&named(rt, branch)) else {
        panic!(rt; "no branch")
    };
    match core.group(&seen, &[named(rt, b'q')]) {
        Ok(group) => match group.prepare() {
            Ok(PairStep::Land(job)) => job,
            _ => panic!(rt; "nothing to merge"),
        },
        Err(_) => panic!(rt; "no branch"),
    }
}

// Two additions to what `p` has, and one to what `u` has, prepared before `q` and `r` had theirs and `u` was dropped; then
// a merge of `q` into `r`, an addition to what `t` has, and moves of `s` and `t` up to `q`.
fn unlike_jobs<T: Numbered, A: Address>(
    rt: &impl Abort,
    alloc: Global,
    core: &mut Core<T, MemoryDisk, A>,
) -> Result<Vec<Prepared<T>>, Fail>
    ensures many { IfOk result (λ jobs. length jobs.items ≡ 7) }
    ensures history { IfOk result (λ jobs.
        All (λ job. IsPrefix job.seen.history core.new.history) jobs.items) }
    ensures terms { IfOk result (λ jobs. All (λ job. job.seen.terms ≡ core.new.terms) jobs.items) }
{
    let early = [(b'p', 5), (b'p', 7), (b'u', 5)];
    let mut jobs = additions(rt, alloc, core, &early)?;
    land_one(rt, core, b'q');
    land_one(rt, core, b'r');
    drop_branch(rt, core, b'u');
    jobs.push(merge(rt, core, b'r'))?;
    jobs.push(addition(rt, core, &named(rt, b't'), 5))?;
    jobs.push(merge(rt, core, b's'))?;
    jobs.push(merge(rt, core, b't'))?;
    Ok(jobs)
}

// What comes of them on a store with the branches `p` to `u`: the second addition finds the first one's commit, that to a
// dropped branch none to land on, the last operation no room for its commit, and the last move up none for a move.
fn land_unlike<T: Numbered, A: Address>(rt: &impl Abort, alloc: Global) -> Result<(), Fail> {
    let mut core = fresh::<T, A>(rt, alloc, Vec::new(alloc), small(rt));
    fork_all(rt, &mut core, b"pqrstu");
    let jobs = unlike_jobs(rt, alloc, &mut core)?;
    let answers = core.land_all(jobs)?;
    let wanted = [
        Told::Operation {
            moves: 10,
            commit: 3,
        },
        Told::Stale { newest: 3 },
        Told::Dropped { branch: 6 },
        Told::Merged {
            moves: 11,
            commit: 4,
        },
        Told::FullCommits { count: 5 },
        Told::Forward {
            moves: 12,
            commit: 1,
        },
        Told::FullMoves { count: 12 },
    ];
    assert!(rt; told_all(alloc, answers.as_slice())?.as_slice() == wanted.as_slice());
    assert_eq!(rt; (core.moves(), core.commits()), (12, 5));
    Ok(())
}

// What comes of additions of 0, 1 and 0 to what `p`, `q` and `r` have: the second job's value collides with that of
// commit 0, of the first length, and the third job's commit with the first one's, of the second length, which the same
// batch stores.
fn land_weak<T: Numbered, A: Address>(
    rt: &impl Abort,
    alloc: Global,
    value: u8,
    commit: u8,
) -> Result<(), Fail> {
    let mut core = fresh::<T, A>(rt, alloc, Vec::new(alloc), terms_from(rt, 0));
    fork_all(rt, &mut core, b"pqr");
    let wanted = [(b'p', 0), (b'q', 1), (b'r', 0)];
    let jobs = additions(rt, alloc, &core, &wanted)?;
    let answers = core.land_all(jobs)?;
    let wanted = [
        Told::Operation {
            moves: 4,
            commit: 1,
        },
        Told::Collision { last: value },
        Told::Collision { last: commit },
    ];
    assert!(rt; told_all(alloc, answers.as_slice())?.as_slice() == wanted.as_slice());
    assert_eq!(rt; (core.moves(), core.commits()), (4, 2));
    Ok(())
}

#[test]
fn a_mixed_batch(rt: HostRuntime) -> Result<(), Fail> {
    land_unlike::<Sum, Sha256Address>(&rt, rt.alloc())
}

// The object of a sum's value has 25 bytes: 9 and 16 of the value. The commit of an addition has 118: 110 and 8 of the
// operation.
#[test]
fn jobs_collide_by_their_length(rt: HostRuntime) -> Result<(), Fail> {
    land_weak::<Sum, WeakAddress>(&rt, rt.alloc(), 25, 118)
}
