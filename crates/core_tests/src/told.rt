// What came of jobs, in short.
use std::alloc::Global;
use std::test::Fail;
use store_core::{Kind, LandRefused, Landed};

// What came of a job. Of a collision there is the last byte of the address.
#[derive(Clone, Copy, PartialEq, Eq)]
pub enum Told {
    Operation { moves: u64, commit: u32 },
    Merged { moves: u64, commit: u32 },
    Joined { moves: u64, commit: u32 },
    Forward { moves: u64, commit: u32 },
    Dropped { branch: u32 },
    Stale { newest: u32 },
    FullCommits { count: u32 },
    FullMoves { count: u64 },
    Collision { last: u8 },
    DiskFault,
    Failed { moves: u64 },
    Memory,
}

// What a job did that landed.
fn what_landed<R>(landed: &Landed<R>) -> Told {
    let moves = landed.moves;
    match landed.kind {
        Kind::Operation { commit, .. } => Told::Operation { moves, commit },
        Kind::Merged { commit } => Told::Merged { moves, commit },
        Kind::Joined { commit } => Told::Joined { moves, commit },
        Kind::Forward { commit } => Told::Forward { moves, commit },
    }
}

// Why a job did not land.
fn what_refused(refused: &LandRefused) -> Told {
    match refused {
        LandRefused::Dropped { branch } => Told::Dropped { branch: *branch },
        LandRefused::Stale { newest } => Told::Stale { newest: *newest },
        LandRefused::FullCommits { count } => Told::FullCommits { count: *count },
        LandRefused::FullMoves { count } => Told::FullMoves { count: *count },
        LandRefused::Collision { address, .. } => Told::Collision { last: address[31] },
        LandRefused::DiskFault => Told::DiskFault,
        LandRefused::Failed { moves } => Told::Failed { moves: *moves },
        LandRefused::Memory => Told::Memory,
    }
}

// What came of a job.
pub fn what_came<R>(answer: &Result<Landed<R>, LandRefused>) -> Told {
    match answer {
        Ok(landed) => what_landed(landed),
        Err(refused) => what_refused(refused),
    }
}

impl Told {
    // Whether the job was an operation that landed.
    pub fn has_landed(&self) -> bool {
        matches!(self, Told::Operation { .. })
    }
}

// What came of each job, in order.
pub fn told_all<R>(
    alloc: Global,
    answers: &[Result<Landed<R>, LandRefused>],
) -> Result<Vec<Told>, Fail> {
    let mut list = Vec::new(alloc);
    for answer in answers {
        list.push(what_came(answer))?;
    }
    Ok(list)
}
