// Additions that land in batches, one on each of some branches.
ghost use Rattle.std.specs.Prelude.{◌≡◌, ◌≤◌, All, length, IfOk};
ghost use mathlib.Core.List.{IsPrefix};

use crate::stores::{Numbered, addition, fork_all, fresh, named, opened, terms_from};
use crate::told::{Told, told_all};
use branch_address::{Address, Sha256Address};
use branch_disk::{Fill, MemoryDisk};
use mrdt_counter::Sum;
use mrdt_model::Mrdt;
use std::alloc::Global;
use std::process::Abort;
use std::test::Fail;
use store_core::{Core, Prepared};

// Three branches, each with a character.
const THREE: [u8; 3] = *b"pqr";

// 64 branches, each with a character.
const SIXTY_FOUR: [u8; 64] = *b"ABCDEFGHIJKLMNOPQRSTUVWXYZabcdefghijklmnopqrstuvwxyz0123456789+-";

// The device calls that make a store and so many forks of `main`.
fn made(count: u64) -> u64 {
    count.saturating_mul(4).saturating_add(10)
}

// A store with branches at commit 0, of which listed calls fail.
fn forked<T: Mrdt, A: Address>(
    rt: &impl Abort,
    alloc: Global,
    failing: Vec<u64>,
    branches: &[u8],
) -> Core<T, MemoryDisk, A> {
    let mut core = fresh(rt, alloc, failing, terms_from(rt, 0));
    fork_all(rt, &mut core, branches);
    core
}

// Additions, each with its branch and its amount, to what the branches have now.
pub fn additions<T: Numbered, A: Address>(
    rt: &impl Abort,
    alloc: Global,
    core: &Core<T, MemoryDisk, A>,
    wanted: &[(u8, u8)],
) -> Result<Vec<Prepared<T>>, Fail>
    ensures many { IfOk result (λ jobs. length jobs.items ≡ length wanted.now) }
    ensures history { IfOk result (λ jobs.
        All (λ job. IsPrefix job.seen.history core.now.history) jobs.items) }
    ensures terms { IfOk result (λ jobs. All (λ job. job.seen.terms ≡ core.now.terms) jobs.items) }
{
    let mut jobs = Vec::new(alloc);
    for (branch, amount) in wanted {
        jobs.push(addition(rt, core, &named(rt, *branch), *amount))?;
    }
    Ok(jobs)
}

// What comes of an addition to each of these branches, behind the moves that the core has.
fn landed<T: Numbered, A: Address>(
    rt: &impl Abort,
    alloc: Global,
    core: &mut Core<T, MemoryDisk, A>,
    branches: &[u8],
) -> Result<Vec<Told>, Fail>
    requires few { length branches.now ≤ 64 }
{
    let wanted: Vec<(u8, u8)> = branches.iter().map(|branch| (*branch, 5)).collect(alloc)?;
    let jobs = additions(rt, alloc, core, &wanted)?;
    let answers = core.land_all(jobs)?;
    told_all(alloc, answers.as_slice())
}

// Whether each of some jobs made the next commit, behind so many moves of a store of one commit.
fn have_landed(told: &[Told], moves: u64) -> bool {
    let mut commit: u32 = 0;
    let mut moves = moves;
    for one in told {
        commit = commit.saturating_add(1);
        moves = moves.saturating_add(1);
        if *one != (Told::Operation { moves, commit }) {
            return false;
        }
    }
    true
}

// How many moves the history has that a disk opens to.
fn opens_to<T: Mrdt, A: Address>(rt: &impl Abort, alloc: Global, disk: MemoryDisk) -> u64 {
    opened::<T, MemoryDisk, A>(rt, alloc, disk).moves()
}

// How many of some jobs a crash leaves in a call of their batch, from 1 on. It opens no gate before the fifth call, and
// until the last sync, which is the fifth call behind as many as there are jobs, only with a fill that writes open gates.
fn left(count: u64, call: u64, fill: Fill) -> u64 {
    match fill {
        _ if call > count.saturating_add(5) => count,
        Fill::New => call.saturating_sub(4).min(count),
        Fill::Byte(1) => call.saturating_sub(4).min(count),
        _ => 0,
    }
}

// A stop in a call of a batch, with each fill, leaves the first of its jobs.
fn is_stopped<T: Mrdt, A: Address>(
    rt: &impl Abort,
    alloc: Global,
    disk: &MemoryDisk,
    count: u64,
    call: u64,
) -> Result<(), Fail> {
    for fill in [Fill::Old, Fill::New, Fill::Byte(0), Fill::Byte(1)] {
        let calls = made(count).saturating_add(call).saturating_sub(1);
        let image = disk.image(calls, fill)?;
        assert_eq!(rt;
            opens_to::<T, A>(rt, alloc, image),
            left(count, call, fill).saturating_add(count)
        );
    }
    Ok(())
}

// Jobs land in a write of the regions and a sync, one of the records and a sync, a gate of each, and a sync; a stop in
// each of these calls, and one behind them, leaves the first of them.
fn stops<T: Numbered, A: Address>(
    rt: &impl Abort,
    alloc: Global,
    branches: &[u8],
) -> Result<(), Fail>
    requires few { length branches.now ≤ 64 }
{
    let count = branches.len() as u64;
    let mut core = forked::<T, A>(rt, alloc, Vec::new(alloc), branches);
    let told = landed(rt, alloc, &mut core, branches)?;
    assert!(rt; told.len() == branches.len() && have_landed(&told, count));
    let disk = core.close();
    assert_eq!(rt;
        disk.calls(),
        made(count).saturating_add(count.saturating_add(5))
    );
    for call in 1..=count.saturating_add(6) {
        is_stopped::<T, A>(rt, alloc, &disk, count, call)?;
    }
    Ok(())
}

// Of two additions to what one branch has the first one lands alone.
fn lands_once<T: Numbered, A: Address>(rt: &impl Abort, alloc: Global) -> Result<(), Fail> {
    let mut core = forked::<T, A>(rt, alloc, Vec::new(alloc), &THREE);
    let told = landed(rt, alloc, &mut core, b"pp")?;
    let wanted = [
        Told::Operation {
            moves: 4,
            commit: 1,
        },
        Told::Stale { newest: 1 },
    ];
    assert!(rt; told.as_slice() == wanted.as_slice());
    assert_eq!(rt; core.moves(), 4);
    Ok(())
}

// Where a call fails, none of the jobs has landed for the core, which lands nothing any more; on the disk are those
// whose gates were opened.
fn fails<T: Numbered, A: Address>(
    rt: &impl Abort,
    alloc: Global,
    branches: &[u8],
    call: u64,
) -> Result<(), Fail>
    requires few { length branches.now ≤ 64 }
{
    let count = branches.len() as u64;
    let failing = vec![in alloc; made(count).saturating_add(call)]?;
    let mut core = forked::<T, A>(rt, alloc, failing, branches);
    let told = landed(rt, alloc, &mut core, branches)?;
    assert!(rt; told.len() == branches.len() && told.iter().all(|one| *one == Told::DiskFault));
    assert!(rt; core.has_failed() && core.moves() == count);
    let again = landed(rt, alloc, &mut core, b"q")?;
    assert!(rt; again.as_slice() == [Told::Failed { moves: count }].as_slice());
    assert_eq!(rt;
        opens_to::<T, A>(rt, alloc, core.close()),
        count.saturating_add(call.saturating_sub(5).min(count))
    );
    Ok(())
}

#[test]
fn a_branch_takes_one_addition_of_a_batch(rt: HostRuntime) -> Result<(), Fail> {
    lands_once::<Sum, Sha256Address>(&rt, rt.alloc())
}

#[test]
fn a_batch_is_stopped(rt: HostRuntime) -> Result<(), Fail> {
    stops::<Sum, Sha256Address>(&rt, rt.alloc(), &THREE)?;
    stops::<Sum, Sha256Address>(&rt, rt.alloc(), &SIXTY_FOUR)
}

#[test]
fn a_batch_fails_with_its_disk(rt: HostRuntime) -> Result<(), Fail> {
    for call in 1..=8 {
        fails::<Sum, Sha256Address>(&rt, rt.alloc(), &THREE, call)?;
    }
    for call in 1..=69 {
        fails::<Sum, Sha256Address>(&rt, rt.alloc(), &SIXTY_FOUR, call)?;
    }
    Ok(())
}
