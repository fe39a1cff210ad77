// Why a call gives no value.
use std::alloc::{AllocError, AllocFailed};
use thiserror::Error;

/// Want of memory: an allocation was refused.
#[derive(Clone, Copy, Debug, PartialEq, Eq, Error)]
#[error("out of memory")]
pub struct Memory;

impl From<AllocError> for Memory {
    fn from(_: AllocError) -> Memory {
        Memory
    }
}

impl<T: Drop> From<AllocFailed<T>> for Memory {
    fn from(_: AllocFailed<T>) -> Memory {
        Memory
    }
}

/// Why bytes were not read as a value.
#[derive(Clone, Copy, Debug, PartialEq, Eq, Error)]
pub enum Unread {
    /// The bytes are outside the type's grammar.
    #[error("not a canonical spelling")]
    NotCanonical,
    /// Want of memory.
    #[error("out of memory")]
    Memory,
}

impl From<Memory> for Unread {
    ghost use Rattle.std.specs.Prelude.{◌≡◌};
    ghost use Rattle.mrdt_model.specs.declared.errors.Unread.TheVariants as unread;

    ghost from_gives = { λ _ error. error ≡ unread.Memory };

    fn from(_: Memory) -> Unread {
        Unread::Memory
    }
}

impl From<AllocError> for Unread {
    ghost use Rattle.std.specs.Prelude.{◌≡◌};
    ghost use Rattle.mrdt_model.specs.declared.errors.Unread.TheVariants as unread;

    ghost from_gives = { λ _ error. error ≡ unread.Memory };

    fn from(_: AllocError) -> Unread {
        Unread::Memory
    }
}
