// One run of the program, over two disks and streams in memory.
use crate::disks::calls_of;
use crate::failure::Failure;
use crate::step::Run;
use branch_address::Sha256Address;
use branch_disk::MemoryDisk;
use branch_io::{MemorySink, MemorySource};
use branch_program::run_words;
use branch_progress::NoListener;
use std::alloc::Global;
use std::sync::Wait;
use std::thread::Threads;

// How many bytes a source gives at a time, at most.
const PIECE: usize = 16;

/// A disk, and how many calls a run made of it.
#[derive(Drop)]
pub struct Used {
    pub disk: MemoryDisk,
    pub calls: u64,
}

impl Used {
    // A disk that a run hands back.
    fn of(disk: MemoryDisk) -> Used {
        let calls = calls_of(&disk);
        Used { disk, calls }
    }
}

/// How a run ended: its status, what it wrote, and its disks.
#[derive(Drop)]
pub struct Ended {
    pub status: u8,
    pub text: Vec<u8>,
    pub first: Used,
    pub second: Used,
}

/// Runs the program: the call that it makes itself.
pub(crate) fn run_over<R: Threads + Wait + Sync>(
    rt: &R,
    alloc: Global,
    of: &Run,
    input: Vec<u8>,
    disk: MemoryDisk,
    second: MemoryDisk,
) -> Result<Ended, Failure> {
    let failing = of.failing.source.as_slice().to_vec(alloc)?;
    let mut source = MemorySource::new(input, PIECE, failing);
    let mut sink = MemorySink::new(of.failing.sink.as_slice().to_vec(alloc)?);
    let (ended, disk, second) = run_words::<_, _, _, Sha256Address, R, _>(
        rt,
        alloc,
        &of.words,
        &mut source,
        &mut sink,
        disk,
        second,
        &mut NoListener,
    );
    Ok(Ended {
        status: ended.status.number(),
        text: sink.bytes().to_vec(alloc)?,
        first: Used::of(disk),
        second: Used::of(second),
    })
}
