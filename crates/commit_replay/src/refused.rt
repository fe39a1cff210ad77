// Why records and objects are not those of a history.
use branch_disk::Part;
use mrdt_model::Memory;
use thiserror::Error;

/// Why records and objects were not replayed.
#[derive(Clone, Copy, Debug, PartialEq, Eq, Error)]
pub enum ReplayRefused {
    /// The objects do not begin with those of a new store.
    #[error("not a store")]
    NotAStore,
    /// The record of this number, from 1, may not come where it stands.
    #[error("record {number} may not come there")]
    BadRecord { number: u64 },
    /// The part ends too soon: at `place` something should stand that is not all there.
    #[error("something is cut off at {place}")]
    Truncated { part: Part, place: u64 },
    /// At this place no objects of a move of the record's kind stand.
    #[error("no objects stand at {place}")]
    BadObject { place: u64 },
    /// The commit that would have this number is not made so.
    #[error("commit {number} is not made so")]
    BadCommit { number: u32 },
    /// Want of memory.
    #[error("out of memory")]
    Memory,
}

impl From<Memory> for ReplayRefused {
    ghost use Rattle.std.specs.Prelude.{◌≡◌};
    ghost use Rattle.commit_replay.specs.declared.refused.ReplayRefused.TheVariants as refusal;

    ghost from_gives = { λ _ error. error ≡ refusal.Memory };

    fn from(_: Memory) -> ReplayRefused {
        ReplayRefused::Memory
    }
}
