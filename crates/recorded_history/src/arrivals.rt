// What a recorded history answers to an item of a bundle.
use heads_journal::Record;
use mrdt_model::{Bytes, Memory, Unread};
use object_store::StageRefused;
use std::fmt;
use thiserror::Error;

/// A commit of another store that was received.
#[derive(Clone, Copy, Debug, PartialEq, Eq)]
pub enum Arrived {
    /// It is here already, with this number; nothing has changed.
    Here {
        commit: u32,
    },
    /// It is new: its number, how many moves the history then has, and the record of the move.
    New {
        commit: u32,
        moves: u64,
        record: Record,
    },
}

/// Why a commit of another store was not received.
#[derive(Drop, Error)]
pub enum ReceiveRefused {
    /// The bytes are not the two objects of a commit that is made of those here.
    #[error("no commit has these two objects")]
    BadBundle,
    /// The commit has the origin of a branch of this store.
    #[error("the commit has an origin of this store")]
    OwnOrigin,
    /// Another operation of the same time was received as this commit.
    #[error("commit #{number} is another operation of the same time")]
    TimeClash {
        number: u32,
    },
    /// The clock of the operation's parent is this, the greatest that a commit may have.
    #[error("the clock has its limit of {clock}")]
    Exhausted {
        clock: u64,
    },
    /// The spellings of the value, and of an operation and its reply, have so many bytes, more than they may.
    #[error("the value is spelled in {length} bytes")]
    ValueTooLarge {
        length: u64,
    },
    /// The store holds this many commits, and may not hold more.
    #[error("the store holds its limit of {count} commits")]
    FullCommits {
        count: u32,
    },
    /// The history has this many moves, and may not have more.
    #[error("the history has its limit of {count} moves")]
    FullMoves {
        count: u64,
    },
    /// An object of the commit has the address of another one with other bytes.
    #[error("two objects have one address")]
    Collision {
        /// The address of both.
        address: [u8; 32],
        /// The bytes of the one that is stored, or is the other one of the commit.
        stored: Bytes,
        /// The bytes of the one that was to be stored.
        fresh: Bytes,
    },
    /// Want of memory.
    #[error("out of memory")]
    Memory,
}

impl fmt::Debug for ReceiveRefused {
    fn fmt<W: fmt::Write>(&self, f: &mut fmt::Formatter<W>) -> fmt::Result {
        match self {
            ReceiveRefused::BadBundle => write!(f, "BadBundle"),
            ReceiveRefused::OwnOrigin => write!(f, "OwnOrigin"),
            ReceiveRefused::TimeClash { number } => write!(f, "TimeClash({number})"),
            ReceiveRefused::Exhausted { clock } => write!(f, "Exhausted({clock})"),
            ReceiveRefused::ValueTooLarge { length } => write!(f, "ValueTooLarge({length})"),
            ReceiveRefused::FullCommits { count } => write!(f, "FullCommits({count})"),
            ReceiveRefused::FullMoves { count } => write!(f, "FullMoves({count})"),
            ReceiveRefused::Collision { address, .. } => write!(f, "Collision({address:?})"),
            ReceiveRefused::Memory => write!(f, "Memory"),
        }
    }
}

impl From<Memory> for ReceiveRefused {
    ghost use Rattle.std.specs.Prelude.{◌≡◌};
    ghost use Rattle.recorded_history.specs.declared.arrivals.ReceiveRefused.TheVariants as refusal;

    ghost from_gives = { λ _ error. error ≡ refusal.Memory };

    fn from(_: Memory) -> ReceiveRefused {
        ReceiveRefused::Memory
    }
}

impl From<Unread> for ReceiveRefused {
    ghost use Rattle.std.specs.Prelude.{◌≡◌};
    ghost use Rattle.recorded_history.specs.Receives.{unread_item};

    ghost from_gives = { λ why error. error ≡ unread_item why };

    fn from(why: Unread) -> ReceiveRefused {
        match why {
            Unread::NotCanonical => ReceiveRefused::BadBundle,
            Unread::Memory => ReceiveRefused::Memory,
        }
    }
}

impl From<StageRefused> for ReceiveRefused {
    ghost use Rattle.std.specs.Prelude.{◌≡◌};
    ghost use Rattle.recorded_history.specs.Receives.{unstaged_item};

    ghost from_gives = { λ refused error. error ≡ unstaged_item refused };

    fn from(refused: StageRefused) -> ReceiveRefused {
        match refused {
            StageRefused::Collision {
                address,
                stored,
                fresh,
            } => ReceiveRefused::Collision {
                address,
                stored,
                fresh,
            },
            StageRefused::Memory => ReceiveRefused::Memory,
        }
    }
}

impl From<store_seen::ReceiveRefused> for ReceiveRefused {
    ghost use Rattle.std.specs.Prelude.{◌≡◌};
    ghost use Rattle.recorded_history.specs.Receives.{refused_item};

    ghost from_gives = { λ refused error. error ≡ refused_item refused };

    fn from(refused: store_seen::ReceiveRefused) -> ReceiveRefused {
        match refused {
            store_seen::ReceiveRefused::OwnOrigin => ReceiveRefused::OwnOrigin,
            store_seen::ReceiveRefused::TimeClash { number } => ReceiveRefused::TimeClash {
                number,
            },
            store_seen::ReceiveRefused::Exhausted { clock } => ReceiveRefused::Exhausted { clock },
            store_seen::ReceiveRefused::ValueTooLarge { length } => {
                ReceiveRefused::ValueTooLarge { length }
            }
            store_seen::ReceiveRefused::FullCommits { count } => {
                ReceiveRefused::FullCommits { count }
            }
            store_seen::ReceiveRefused::FullMoves { count } => ReceiveRefused::FullMoves { count },
            store_seen::ReceiveRefused::Memory => ReceiveRefused::Memory,
        }
    }
}
