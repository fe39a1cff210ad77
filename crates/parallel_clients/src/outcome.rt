// What a client comes to.
use branch_names::Name;
use mrdt_model::{Bytes, Listing, Memory};
use std::fmt;
use thiserror::Error;

/// What became of a client. The places are the lengths of the history at which its moves landed, in order.
#[derive(Drop)]
pub enum Outcome {
    /// It did all its steps.
    Done {
        places: Listing<u64>,
    },
    /// A refusal ended it at the step that has so many before it.
    Refused {
        step: u64,
        refusal: ClientRefusal,
        places: Listing<u64>,
    },
    /// The step that has so many before it names a session that has not looked.
    Unseen {
        step: u64,
        places: Listing<u64>,
    },
}

/// Why a step of a client was refused. A landing that is stale and a fork whose name is taken end no client.
#[derive(Drop, Error)]
pub enum ClientRefusal {
    /// No branch has the name.
    #[error("no branch has this name")]
    UnknownBranch {
        name: Name,
    },
    /// The session's branch was dropped.
    #[error("branch {branch} was dropped")]
    Dropped {
        branch: u32,
    },
    /// The session's branch is the first one, which stays.
    #[error("the first branch stays")]
    KeepsMain,
    /// The clock of the commit that was seen is at the limit.
    #[error("the clock is at its limit, {clock}")]
    Exhausted {
        clock: u64,
    },
    /// The store holds this many commits, and may not hold more.
    #[error("the store holds its limit of {count} commits")]
    FullCommits {
        count: u32,
    },
    /// The store holds this many branches, and may not hold more.
    #[error("the store holds its limit of {count} branches")]
    FullBranches {
        count: u32,
    },
    /// The history has this many moves, and may not have more.
    #[error("the history has its limit of {count} moves")]
    FullMoves {
        count: u64,
    },
    /// The spellings of the new value, and of the operation and the reply where there are some, have together this
    /// many bytes, more than the limit.
    #[error("{length} bytes are too many")]
    ValueTooLarge {
        length: u64,
    },
    /// An object has the address of another one with other bytes.
    #[error("two objects have one address")]
    Collision {
        /// The address of both.
        address: [u8; 32],
        /// The bytes of the one that is stored, or comes earlier in the move.
        stored: Bytes,
        /// The bytes of the one that was to be stored.
        fresh: Bytes,
    },
    /// The step is on a sequence, and the store has none.
    #[error("the store has no sequences")]
    NoSequences,
    /// The disk failed in the step.
    #[error("the disk failed")]
    DiskFault,
    /// The disk failed in an earlier call; the history has this many moves.
    #[error("the disk has failed behind {moves} moves")]
    Failed {
        moves: u64,
    },
    /// Want of memory.
    #[error("out of memory")]
    Memory,
}

impl fmt::Debug for ClientRefusal {
    fn fmt<W: fmt::Write>(&self, f: &mut fmt::Formatter<W>) -> fmt::Result {
        match self {
            ClientRefusal::UnknownBranch { .. } => write!(f, "UnknownBranch"),
            ClientRefusal::Dropped { branch } => write!(f, "Dropped({branch})"),
            ClientRefusal::KeepsMain => write!(f, "KeepsMain"),
            ClientRefusal::Exhausted { clock } => write!(f, "Exhausted({clock})"),
            ClientRefusal::FullCommits { count } => write!(f, "FullCommits({count})"),
            ClientRefusal::FullBranches { count } => write!(f, "FullBranches({count})"),
            ClientRefusal::FullMoves { count } => write!(f, "FullMoves({count})"),
            ClientRefusal::ValueTooLarge { length } => write!(f, "ValueTooLarge({length})"),
            ClientRefusal::Collision { address, .. } => write!(f, "Collision({address:?})"),
            ClientRefusal::NoSequences => write!(f, "NoSequences"),
            ClientRefusal::DiskFault => write!(f, "DiskFault"),
            ClientRefusal::Failed { moves } => write!(f, "Failed({moves})"),
            ClientRefusal::Memory => write!(f, "Memory"),
        }
    }
}

impl From<Memory> for ClientRefusal {
    ghost use Rattle.std.specs.Prelude.{◌≡◌};
    ghost use Rattle.parallel_clients.specs.declared.outcome.ClientRefusal.TheVariants as refusal;

    ghost from_gives = { λ _ error. error ≡ refusal.Memory };

    fn from(_: Memory) -> ClientRefusal {
        ClientRefusal::Memory
    }
}
