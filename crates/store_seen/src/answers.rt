// What the calls of a core answer.
use branch_names::Name;
use mrdt_model::{Memory, Time};
use std::alloc::AllocError;
use thiserror::Error;

/// Why a look was refused.
#[derive(Clone, Copy, Debug, PartialEq, Eq, Error)]
pub enum LookRefused {
    /// No branch has the name.
    #[error("no branch has this name")]
    UnknownBranch { name: Name },
    /// Want of memory.
    #[error("out of memory")]
    Memory,
}

/// Why an operation was not prepared.
#[derive(Clone, Copy, Debug, PartialEq, Eq, Error)]
pub enum PrepareRefused {
    /// The clock of the commit that was seen is at the limit.
    #[error("the clock is at its limit, {clock}")]
    Exhausted { clock: u64 },
    /// The spellings of the new value, the operation and the reply have together this many bytes, more than
    /// the limit.
    #[error("{length} bytes are too many")]
    ValueTooLarge { length: u64 },
    /// Want of memory.
    #[error("out of memory")]
    Memory,
}

/// Why a look was not paired with another branch, or grouped with others.
#[derive(Clone, Copy, Debug, PartialEq, Eq, Error)]
pub enum PairRefused {
    /// No branch has the name; of several, the first that no branch has.
    #[error("no branch has this name")]
    UnknownBranch { name: Name },
    /// Want of memory.
    #[error("out of memory")]
    Memory,
}

/// Why a merge was not prepared.
#[derive(Clone, Copy, Debug, PartialEq, Eq, Error)]
pub enum PairPrepareRefused {
    /// The spelling of the merged value has this many bytes, more than the limit.
    #[error("{length} bytes are too many")]
    ValueTooLarge { length: u64 },
    /// Want of memory.
    #[error("out of memory")]
    Memory,
}

/// Why what was prepared did not land.
#[derive(Clone, Copy, Debug, PartialEq, Eq, Error)]
pub enum LandRefused {
    /// The branch of this number was dropped.
    #[error("branch {branch} was dropped")]
    Dropped { branch: u32 },
    /// The branch's head is not the commit that was seen, but this newer one.
    #[error("the newest head is #{newest}")]
    Stale { newest: u32 },
    /// The store holds this many commits, and may not hold more.
    #[error("the store holds its limit of {count} commits")]
    FullCommits { count: u32 },
    /// The history has this many moves, and may not have more.
    #[error("the history has its limit of {count} moves")]
    FullMoves { count: u64 },
    /// Want of memory.
    #[error("out of memory")]
    Memory,
}

/// Why a branch was not forked.
#[derive(Clone, Copy, Debug, PartialEq, Eq, Error)]
pub enum ForkRefused {
    /// No branch has the name to fork from.
    #[error("no branch has this name")]
    UnknownBranch { name: Name },
    /// The branch of this number has the new name.
    #[error("branch {number} has this name")]
    NameTaken { number: u32 },
    /// The store holds this many branches, and may not hold more.
    #[error("the store holds its limit of {count} branches")]
    FullBranches { count: u32 },
    /// The history has this many moves, and may not have more.
    #[error("the history has its limit of {count} moves")]
    FullMoves { count: u64 },
    /// Want of memory.
    #[error("out of memory")]
    Memory,
}

/// Why no branch was placed at a commit.
#[derive(Clone, Copy, Debug, PartialEq, Eq, Error)]
pub enum PlaceRefused {
    /// The branch of this number has the name.
    #[error("branch {number} has this name")]
    NameTaken { number: u32 },
    /// The store holds this many branches, and may not hold more.
    #[error("the store holds its limit of {count} branches")]
    FullBranches { count: u32 },
    /// The history has this many moves, and may not have more.
    #[error("the history has its limit of {count} moves")]
    FullMoves { count: u64 },
    /// Want of memory.
    #[error("out of memory")]
    Memory,
}

/// Why a branch was not dropped.
#[derive(Clone, Copy, Debug, PartialEq, Eq, Error)]
pub enum DropRefused {
    /// The branch of this number was dropped before.
    #[error("branch {branch} was dropped")]
    Dropped { branch: u32 },
    /// It is branch 0, which stays.
    #[error("the first branch stays")]
    KeepsMain,
    /// The branch's head is not the commit that was seen, but this newer one.
    #[error("the newest head is #{newest}")]
    Stale { newest: u32 },
    /// The history has this many moves, and may not have more.
    #[error("the history has its limit of {count} moves")]
    FullMoves { count: u64 },
    /// Want of memory.
    #[error("out of memory")]
    Memory,
}

/// Why a merge of another store was not made anew.
#[derive(Clone, Copy, Debug, PartialEq, Eq, Error)]
pub enum RemakeRefused {
    /// No merge has these parents: one of the others is there twice, or lies below the first or another, or it is alone
    /// and lies above the first.
    #[error("no merge has these parents")]
    NotApart,
    /// Want of memory.
    #[error("out of memory")]
    Memory,
}

/// Why a commit of another store was not received.
#[derive(Clone, Copy, Debug, PartialEq, Eq, Error)]
pub enum ReceiveRefused {
    /// It has the origin of a branch that this store has or may have.
    #[error("it has an origin of this store")]
    OwnOrigin,
    /// This commit has another operation of the same time.
    #[error("commit #{number} has its time")]
    TimeClash { number: u32 },
    /// The clock of its parent is at the limit.
    #[error("the clock is at its limit, {clock}")]
    Exhausted { clock: u64 },
    /// The spellings of the new value and, of an operation, of the operation and the reply have together this many
    /// bytes, more than the limit.
    #[error("{length} bytes are too many")]
    ValueTooLarge { length: u64 },
    /// The store holds this many commits, and may not hold more.
    #[error("the store holds its limit of {count} commits")]
    FullCommits { count: u32 },
    /// The history has this many moves, and may not have more.
    #[error("the history has its limit of {count} moves")]
    FullMoves { count: u64 },
    /// Want of memory.
    #[error("out of memory")]
    Memory,
}

/// What was landed.
#[derive(Drop)]
pub enum Kind<R> {
    /// An operation: the number of its commit, its time and its reply.
    Operation { commit: u32, time: Time, reply: R },
    /// A merge: the number of its commit.
    Merged { commit: u32 },
    /// A join: the number of its commit.
    Joined { commit: u32 },
    /// A branch that moved up to a commit that stood before.
    Forward { commit: u32 },
}

/// A landing that was accepted.
#[derive(Drop)]
pub struct Landed<R> {
    /// The length of the history after the move.
    pub moves: u64,
    /// What it was: an operation with its reply, a merge, a join, or a move up to a commit that stood before.
    pub kind: Kind<R>,
}

/// A fork that was accepted, or a branch that was placed at a commit.
#[derive(Clone, Copy, Debug, PartialEq, Eq)]
pub struct Forked {
    /// The length of the history after the move.
    pub moves: u64,
    /// The number of the new branch.
    pub number: u32,
    /// The commit that is its head.
    pub head: u32,
}

/// A commit of another store that was received.
#[derive(Clone, Copy, Debug, PartialEq, Eq)]
pub struct Received {
    /// The length of the history after the move.
    pub moves: u64,
    /// The number of the commit.
    pub commit: u32,
}

impl From<Memory> for LookRefused {
    ghost use Rattle.std.specs.Prelude.{◌≡◌};
    ghost use Rattle.store_seen.specs.declared.answers.LookRefused.TheVariants as refusal;

    ghost from_gives = { λ _ error. error ≡ refusal.Memory };

    fn from(_: Memory) -> LookRefused {
        LookRefused::Memory
    }
}

impl From<Memory> for PrepareRefused {
    ghost use Rattle.std.specs.Prelude.{◌≡◌};
    ghost use Rattle.store_seen.specs.declared.answers.PrepareRefused.TheVariants as refusal;

    ghost from_gives = { λ _ error. error ≡ refusal.Memory };

    fn from(_: Memory) -> PrepareRefused {
        PrepareRefused::Memory
    }
}

impl From<Memory> for PairRefused {
    ghost use Rattle.std.specs.Prelude.{◌≡◌};
    ghost use Rattle.store_seen.specs.declared.answers.PairRefused.TheVariants as refusal;

    ghost from_gives = { λ _ error. error ≡ refusal.Memory };

    fn from(_: Memory) -> PairRefused {
        PairRefused::Memory
    }
}

impl From<AllocError> for PairRefused {
    ghost use Rattle.std.specs.Prelude.{◌≡◌};
    ghost use Rattle.store_seen.specs.declared.answers.PairRefused.TheVariants as refusal;

    ghost from_gives = { λ _ error. error ≡ refusal.Memory };

    fn from(_: AllocError) -> PairRefused {
        PairRefused::Memory
    }
}

impl From<Memory> for PairPrepareRefused {
    ghost use Rattle.std.specs.Prelude.{◌≡◌};
    ghost use Rattle.store_seen.specs.declared.answers.PairPrepareRefused.TheVariants as refusal;

    ghost from_gives = { λ _ error. error ≡ refusal.Memory };

    fn from(_: Memory) -> PairPrepareRefused {
        PairPrepareRefused::Memory
    }
}

impl From<Memory> for LandRefused {
    ghost use Rattle.std.specs.Prelude.{◌≡◌};
    ghost use Rattle.store_seen.specs.declared.answers.LandRefused.TheVariants as refusal;

    ghost from_gives = { λ _ error. error ≡ refusal.Memory };

    fn from(_: Memory) -> LandRefused {
        LandRefused::Memory
    }
}

impl From<AllocError> for LandRefused {
    ghost use Rattle.std.specs.Prelude.{◌≡◌};
    ghost use Rattle.store_seen.specs.declared.answers.LandRefused.TheVariants as refusal;

    ghost from_gives = { λ _ error. error ≡ refusal.Memory };

    fn from(_: AllocError) -> LandRefused {
        LandRefused::Memory
    }
}

impl From<Memory> for ForkRefused {
    ghost use Rattle.std.specs.Prelude.{◌≡◌};
    ghost use Rattle.store_seen.specs.declared.answers.ForkRefused.TheVariants as refusal;

    ghost from_gives = { λ _ error. error ≡ refusal.Memory };

    fn from(_: Memory) -> ForkRefused {
        ForkRefused::Memory
    }
}

impl From<Memory> for PlaceRefused {
    ghost use Rattle.std.specs.Prelude.{◌≡◌};
    ghost use Rattle.store_seen.specs.declared.answers.PlaceRefused.TheVariants as refusal;

    ghost from_gives = { λ _ error. error ≡ refusal.Memory };

    fn from(_: Memory) -> PlaceRefused {
        PlaceRefused::Memory
    }
}

impl From<Memory> for DropRefused {
    ghost use Rattle.std.specs.Prelude.{◌≡◌};
    ghost use Rattle.store_seen.specs.declared.answers.DropRefused.TheVariants as refusal;

    ghost from_gives = { λ _ error. error ≡ refusal.Memory };

    fn from(_: Memory) -> DropRefused {
        DropRefused::Memory
    }
}

impl From<Memory> for RemakeRefused {
    ghost use Rattle.std.specs.Prelude.{◌≡◌};
    ghost use Rattle.store_seen.specs.declared.answers.RemakeRefused.TheVariants as refusal;

    ghost from_gives = { λ _ error. error ≡ refusal.Memory };

    fn from(_: Memory) -> RemakeRefused {
        RemakeRefused::Memory
    }
}

impl From<Memory> for ReceiveRefused {
    ghost use Rattle.std.specs.Prelude.{◌≡◌};
    ghost use Rattle.store_seen.specs.declared.answers.ReceiveRefused.TheVariants as refusal;

    ghost from_gives = { λ _ error. error ≡ refusal.Memory };

    fn from(_: Memory) -> ReceiveRefused {
        ReceiveRefused::Memory
    }
}
