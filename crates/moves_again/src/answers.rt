// Why moves are not made again.
use store_core::{ForkRefused, InitRefused, LandRefused, PairPrepareRefused, PrepareRefused};
use thiserror::Error;

/// Why a move is not made again.
#[derive(Clone, Copy, Debug, PartialEq, Eq, Error)]
pub enum MoveRefused {
    /// The machine refuses it.
    #[error("the machine refuses the move")]
    Refused,
    /// The disk failed.
    #[error("the disk failed")]
    DiskFault,
    /// Want of memory.
    #[error("out of memory")]
    Memory,
}

/// Why moves are not made again on a disk.
#[derive(Clone, Copy, Debug, PartialEq, Eq, Error)]
pub enum MakeRefused {
    /// The disk holds bytes already: so many, or 2^64 - 1 where there are more.
    #[error("the disk holds {length} bytes")]
    NotEmpty { length: u64 },
    /// The machine refuses the move of the commit that would have this number.
    #[error("the move of commit {number} is refused")]
    Refused { number: u32 },
    /// The disk failed.
    #[error("the disk failed")]
    DiskFault,
    /// Want of memory.
    #[error("out of memory")]
    Memory,
}

impl From<InitRefused> for MakeRefused {
    ghost use Rattle.std.specs.Prelude.{◌≡◌};
    ghost use Rattle.moves_again.specs.Again.{init_refused};

    ghost from_gives = { λ refused error. error ≡ init_refused refused };

    fn from(refused: InitRefused) -> MakeRefused {
        match refused {
            InitRefused::NotEmpty { length } => MakeRefused::NotEmpty { length },
            InitRefused::DiskFault => MakeRefused::DiskFault,
            InitRefused::Memory => MakeRefused::Memory,
        }
    }
}

impl From<LandRefused> for MoveRefused {
    ghost use Rattle.std.specs.Prelude.{◌≡◌};
    ghost use Rattle.moves_again.specs.Again.{land_refused};

    ghost from_gives = { λ refused error. error ≡ land_refused refused };

    fn from(refused: LandRefused) -> MoveRefused {
        match refused {
            LandRefused::Dropped { .. } => MoveRefused::Refused,
            LandRefused::Stale { .. } => MoveRefused::Refused,
            LandRefused::FullCommits { .. } => MoveRefused::Refused,
            LandRefused::FullMoves { .. } => MoveRefused::Refused,
            LandRefused::Collision { .. } => MoveRefused::Refused,
            LandRefused::DiskFault => MoveRefused::DiskFault,
            LandRefused::Failed { .. } => MoveRefused::DiskFault,
            LandRefused::Memory => MoveRefused::Memory,
        }
    }
}

impl From<ForkRefused> for MoveRefused {
    ghost use Rattle.std.specs.Prelude.{◌≡◌};
    ghost use Rattle.moves_again.specs.Again.{fork_refused};

    ghost from_gives = { λ refused error. error ≡ fork_refused refused };

    fn from(refused: ForkRefused) -> MoveRefused {
        match refused {
            ForkRefused::UnknownBranch { .. } => MoveRefused::Refused,
            ForkRefused::NameTaken { .. } => MoveRefused::Refused,
            ForkRefused::FullBranches { .. } => MoveRefused::Refused,
            ForkRefused::FullMoves { .. } => MoveRefused::Refused,
            ForkRefused::DiskFault => MoveRefused::DiskFault,
            ForkRefused::Failed { .. } => MoveRefused::DiskFault,
            ForkRefused::Memory => MoveRefused::Memory,
        }
    }
}

impl From<PrepareRefused> for MoveRefused {
    ghost use Rattle.std.specs.Prelude.{◌≡◌};
    ghost use Rattle.moves_again.specs.Again.{prepare_refused};

    ghost from_gives = { λ refused error. error ≡ prepare_refused refused };

    fn from(refused: PrepareRefused) -> MoveRefused {
        match refused {
            PrepareRefused::Exhausted { .. } => MoveRefused::Refused,
            PrepareRefused::ValueTooLarge { .. } => MoveRefused::Refused,
            PrepareRefused::Memory => MoveRefused::Memory,
        }
    }
}

impl From<PairPrepareRefused> for MoveRefused {
    ghost use Rattle.std.specs.Prelude.{◌≡◌};
    ghost use Rattle.moves_again.specs.Again.{merge_refused};

    ghost from_gives = { λ refused error. error ≡ merge_refused refused };

    fn from(refused: PairPrepareRefused) -> MoveRefused {
        match refused {
            PairPrepareRefused::Memory => MoveRefused::Memory,
            PairPrepareRefused::ValueTooLarge { .. } => MoveRefused::Refused,
        }
    }
}
