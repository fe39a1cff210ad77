// Why a store is not upgraded.
use branch_disk::Part;
use moves_again::MakeRefused;
use store_core::OpenRefused;
use thiserror::Error;

/// Why a store is not upgraded.
#[derive(Clone, Copy, Debug, PartialEq, Eq, Error)]
pub enum UpgradeRefused {
    /// The first disk is no store of the first version.
    #[error("not a store of the first version")]
    NotAStore,
    /// Its record of this number, from 1, may not come where it stands.
    #[error("record {number} may not come there")]
    BadRecord { number: u64 },
    /// Its part ends too soon: at `place` something should stand that is not all there.
    #[error("something is cut off at {place}")]
    Truncated { part: Part, place: u64 },
    /// At this place no objects of a move of the record's kind stand.
    #[error("no objects stand at {place}")]
    BadObject { place: u64 },
    /// The commit that would have this number is not made so.
    #[error("commit {number} is not made so")]
    BadCommit { number: u32 },
    /// The second disk holds bytes already: so many, or 2^64 - 1 where there are more.
    #[error("the second disk holds {length} bytes")]
    NotEmpty { length: u64 },
    /// The machine refuses the move of the commit that would have this number, for what its value or an object is.
    #[error("the move of commit {number} is refused")]
    Upgrade { number: u32 },
    /// A disk failed.
    #[error("a disk failed")]
    DiskFault,
    /// Want of memory.
    #[error("out of memory")]
    Memory,
}

impl From<OpenRefused> for UpgradeRefused {
    ghost use Rattle.std.specs.Prelude.{◌≡◌};
    ghost use Rattle.store_upgrade.specs.Upgrades.{open_refused};

    ghost from_gives = { λ refused error. error ≡ open_refused refused };

    fn from(refused: OpenRefused) -> UpgradeRefused {
        match refused {
            OpenRefused::NotAStore => UpgradeRefused::NotAStore,
            OpenRefused::BadRecord { number } => UpgradeRefused::BadRecord { number },
            OpenRefused::Truncated { part, place } => UpgradeRefused::Truncated { part, place },
            OpenRefused::BadObject { place } => UpgradeRefused::BadObject { place },
            OpenRefused::BadCommit { number } => UpgradeRefused::BadCommit { number },
            OpenRefused::DiskFault => UpgradeRefused::DiskFault,
            OpenRefused::Memory => UpgradeRefused::Memory,
        }
    }
}

impl From<MakeRefused> for UpgradeRefused {
    ghost use Rattle.std.specs.Prelude.{◌≡◌};
    ghost use Rattle.store_upgrade.specs.Upgrades.{make_refused};

    ghost from_gives = { λ refused error. error ≡ make_refused refused };

    fn from(refused: MakeRefused) -> UpgradeRefused {
        match refused {
            MakeRefused::NotEmpty { length } => UpgradeRefused::NotEmpty { length },
            MakeRefused::Refused { number } => UpgradeRefused::Upgrade { number },
            MakeRefused::DiskFault => UpgradeRefused::DiskFault,
            MakeRefused::Memory => UpgradeRefused::Memory,
        }
    }
}
