// Why a line was not told to its end.
use mrdt_model::Memory;
use thiserror::Error;

/// Why a line was not told to its end.
#[derive(Clone, Copy, Debug, PartialEq, Eq, Error)]
pub enum TellRefused {
    /// The disk failed in this call, and the store has failed with it.
    #[error("the disk failed")]
    DiskFault,
    /// Want of memory.
    #[error("out of memory")]
    Memory,
}

impl From<Memory> for TellRefused {
    ghost use Rattle.std.specs.Prelude.{◌≡◌};
    ghost use Rattle.branch_engine.specs.declared.refused.TellRefused.TheVariants as refusal;

    ghost from_gives = { λ _ error. error ≡ refusal.Memory };

    fn from(_: Memory) -> TellRefused {
        TellRefused::Memory
    }
}
