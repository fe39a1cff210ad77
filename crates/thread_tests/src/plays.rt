// Clients of a store of documents.
ghost use Rattle.std.specs.Prelude.{◌*◌, ◌<◌, length};
ghost use Rattle.branch_shared.specs.Crashes.{IsSharedAt};
ghost use Rattle.branch_shared.specs.Names.{IsNamed};

use branch_address::Sha256Address;
use branch_disk::{Disk, MemoryDisk};
use branch_doc::Forms;
use branch_names::{Limits, Terms};
use branch_script::{Line, Step, read_line};
use branch_shared::{Blank, Named, Shared};
use mrdt_doc::Doc;
use mrdt_model::Listing;
use parallel_clients::{Gate, Outcome, run_clients};
use std::alloc::Global;
use std::marker::Brand;
use std::process::Abort;
use std::sync::Wait;
use std::test::Fail;
use std::thread::Threads;
use store_core::Core;

/// What became of clients over a new store of documents: of each of them, and the store's moves behind them, whether its
/// disk has failed, and that disk.
#[derive(Drop)]
pub(crate) struct Played {
    pub(crate) outcomes: Listing<Outcome>,
    pub(crate) moves: u64,
    pub(crate) has_failed: bool,
    pub(crate) disk: MemoryDisk,
}

/// The steps of these lines.
pub(crate) fn script(alloc: Global, lines: &[&str]) -> Result<Listing<Step>, Fail> {
    let mut steps = Vec::new(alloc);
    for line in lines {
        if let Some(Line::Step(step)) = read_line(alloc, line.as_bytes())? {
            steps.push(step)?;
        }
    }
    Ok(Listing::from_vec(steps))
}

/// What becomes of a client for each script, over a new store on a disk of which listed calls fail, none of them one that
/// makes the store.
pub(crate) fn play<G: Gate, R: Threads + Wait + Abort + Sync>(
    rt: &R,
    alloc: Global,
    failing: Vec<u64>,
    scripts: &[Listing<Step>],
    gate: &G,
) -> Played {
    play_over::<Doc, G, R>(rt, alloc, failing, scripts, gate)
}

// The same of values of any type.
fn play_over<T: Forms + Send + Sync, G: Gate, R: Threads + Wait + Abort + Sync>(
    rt: &R,
    alloc: Global,
    failing: Vec<u64>,
    scripts: &[Listing<Step>],
    gate: &G,
) -> Played {
    let terms = Terms::under(Limits::default());
    let made = Core::<T, MemoryDisk, Sha256Address>::init(alloc, MemoryDisk::new(failing), terms);
    let Ok(core) = made else {
        panic!(rt; "no store")
    };
    let parts = 2 * scripts.len() as u64 + 1;
    match Blank::new(alloc, core, parts) {
        Ok(blank) => share::<T, Brand, G, R>(rt, alloc, blank, scripts, gate),
        Err(_) => panic!(rt; "memory"),
    }
}

// The same over a store with no name yet.
fn share<
    T: Forms + Send + Sync,
    N: Named<T::Op, T::Reply> + Drop + Send + Sync,
    G: Gate,
    R: Threads + Wait + Abort + Sync,
>(
    rt: &R,
    alloc: Global,
    blank: Blank<T, MemoryDisk, Sha256Address>,
    scripts: &[Listing<Step>],
    gate: &G,
) -> Played
    requires name { IsNamed blank N.table N.queue N.begun N.terms N.parts N.opened }
    requires since { IsSharedAt ⟦<MemoryDisk as Disk>⟧ N.since N.left blank.core }
    requires allowed { (made : _) → N.allows made }
    requires parts { 2 * length scripts.now < blank.parts }
{
    let (shared, mut pass) = Shared::<T, MemoryDisk, Sha256Address, N>::new(blank);
    let Ok(outcomes) = run_clients(rt, alloc, &shared, &mut pass, scripts, gate) else {
        panic!(rt; "memory")
    };
    let closed = shared.close_with(pass);
    assert!(rt; closed.landed == closed.receipts);
    Played {
        outcomes,
        moves: closed.core.moves(),
        has_failed: closed.core.has_failed(),
        disk: closed.core.close(),
    }
}
