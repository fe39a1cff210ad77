// What receiving a bundle answers.
use mrdt_model::Bytes;
use std::fmt;
use store_core::{PlaceRefused, ReceiveRefused};
use thiserror::Error;

/// A bundle that was received.
#[derive(Clone, Copy, Debug, PartialEq, Eq)]
pub struct Placed {
    /// How many of its commits were new.
    pub count: u64,
    /// The number of the branch that was placed at its tip.
    pub branch: u32,
    /// The number of the tip, which is the head of that branch.
    pub head: u32,
}

/// Why a bundle was not received. The items before the one that is told stand.
#[derive(Drop, Error)]
pub enum NotReceived {
    /// The bytes are those of no bundle of the store's layout, or behind all its items no commit has the address of its
    /// tip.
    #[error("not a bundle")]
    NoBundle,
    /// The item is not the objects of a commit that is made of those here.
    #[error("item {item} is no commit that may stand here")]
    BadBundle {
        item: u64,
    },
    /// The item has the origin of a branch of this store.
    #[error("item {item} has an origin of this store")]
    OwnOrigin {
        item: u64,
    },
    /// A commit here is another operation of the same time.
    #[error("item {item} has the time of commit #{number}, which is another operation")]
    TimeClash {
        item: u64,
        number: u32,
    },
    /// The clock of the operation's parent is this, the greatest that a commit may have.
    #[error("the clock has its limit of {clock}")]
    Exhausted {
        clock: u64,
    },
    /// The spellings of the value, and of an operation and its reply, have so many bytes, more than they may.
    #[error("the value is spelled in {length} bytes")]
    ValueTooLarge {
        length: u64,
    },
    /// The store holds this many commits, and may not hold more.
    #[error("the store holds its limit of {count} commits")]
    FullCommits {
        count: u32,
    },
    /// An item, or the branch, has no room: the history has this many moves, and may not have more.
    #[error("the history has its limit of {count} moves")]
    FullMoves {
        count: u64,
    },
    /// An object of the item has the address of another one with other bytes.
    #[error("two objects have one address")]
    Collision {
        /// The address of both.
        address: [u8; 32],
        /// The bytes of the one that is stored, or is the other one of the item.
        stored: Bytes,
        /// The bytes of the one that was to be stored.
        fresh: Bytes,
    },
    /// The branch of this number has the name.
    #[error("branch {number} has this name")]
    NameTaken {
        number: u32,
    },
    /// The store holds this many branches, and may not hold more.
    #[error("the store holds its limit of {count} branches")]
    FullBranches {
        count: u32,
    },
    /// The disk failed. The last move may be there or not, and the store has failed.
    #[error("the disk failed")]
    DiskFault,
    /// Want of memory.
    #[error("out of memory")]
    Memory,
}

impl fmt::Debug for NotReceived {
    fn fmt<W: fmt::Write>(&self, f: &mut fmt::Formatter<W>) -> fmt::Result {
        match self {
            NotReceived::NoBundle => write!(f, "NoBundle"),
            NotReceived::BadBundle { item } => write!(f, "BadBundle({item})"),
            NotReceived::OwnOrigin { item } => write!(f, "OwnOrigin({item})"),
            NotReceived::TimeClash { item, number } => write!(f, "TimeClash({item}, {number})"),
            NotReceived::Exhausted { clock } => write!(f, "Exhausted({clock})"),
            NotReceived::ValueTooLarge { length } => write!(f, "ValueTooLarge({length})"),
            NotReceived::FullCommits { count } => write!(f, "FullCommits({count})"),
            NotReceived::FullMoves { count } => write!(f, "FullMoves({count})"),
            NotReceived::Collision { address, .. } => write!(f, "Collision({address:?})"),
            NotReceived::NameTaken { number } => write!(f, "NameTaken({number})"),
            NotReceived::FullBranches { count } => write!(f, "FullBranches({count})"),
            NotReceived::DiskFault => write!(f, "DiskFault"),
            NotReceived::Memory => write!(f, "Memory"),
        }
    }
}

impl From<PlaceRefused> for NotReceived {
    ghost use Rattle.std.specs.Prelude.{◌≡◌};
    ghost use Rattle.store_receive.specs.Received.{place_stopped};

    ghost from_gives = { λ refused error. error ≡ place_stopped refused };

    fn from(refused: PlaceRefused) -> NotReceived {
        match refused {
            PlaceRefused::NameTaken { number } => NotReceived::NameTaken { number },
            PlaceRefused::FullBranches { count } => NotReceived::FullBranches { count },
            PlaceRefused::FullMoves { count } => NotReceived::FullMoves { count },
            PlaceRefused::DiskFault => NotReceived::DiskFault,
            PlaceRefused::Failed { .. } => NotReceived::DiskFault,
            PlaceRefused::Memory => NotReceived::Memory,
        }
    }
}

impl From<ReceiveRefused> for NotReceived {
    ghost use Rattle.std.specs.Prelude.{◌≡◌};
    ghost use Rattle.store_receive.specs.Received.{item_stopped};

    ghost from_gives = { λ refused error. error ≡ item_stopped refused };

    fn from(refused: ReceiveRefused) -> NotReceived {
        match refused {
            ReceiveRefused::Failed { .. } => NotReceived::DiskFault,
            ReceiveRefused::BadBundle { item } => NotReceived::BadBundle { item },
            ReceiveRefused::OwnOrigin { item } => NotReceived::OwnOrigin { item },
            ReceiveRefused::TimeClash { item, number } => NotReceived::TimeClash { item, number },
            ReceiveRefused::Exhausted { clock } => NotReceived::Exhausted { clock },
            ReceiveRefused::ValueTooLarge { length } => NotReceived::ValueTooLarge { length },
            ReceiveRefused::FullCommits { count } => NotReceived::FullCommits { count },
            ReceiveRefused::FullMoves { count } => NotReceived::FullMoves { count },
            ReceiveRefused::Collision {
                address,
                stored,
                fresh,
            } => NotReceived::Collision {
                address,
                stored,
                fresh,
            },
            ReceiveRefused::DiskFault => NotReceived::DiskFault,
            ReceiveRefused::Memory => NotReceived::Memory,
        }
    }
}
