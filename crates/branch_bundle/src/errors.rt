// Why bytes were not read as a bundle.
use mrdt_model::{Memory, Unread};
use thiserror::Error;

/// Why bytes were not read as a bundle.
#[derive(Clone, Copy, Debug, PartialEq, Eq, Error)]
pub enum BundleRefused {
    /// The bytes are not those of a bundle.
    #[error("not a bundle")]
    BadBundle {
        /// The number of an item, or 0 for the bundle itself.
        item: u64,
    },
    /// Want of memory.
    #[error("out of memory")]
    Memory,
}

impl From<Unread> for BundleRefused {
    ghost use Rattle.std.specs.Prelude.{◌≡◌};
    ghost use Rattle.branch_bundle.specs.Refusals.{bundle_refused};

    ghost from_gives = { λ unread error. error ≡ bundle_refused unread };

    fn from(unread: Unread) -> BundleRefused {
        match unread {
            Unread::NotCanonical => BundleRefused::BadBundle { item: 0 },
            Unread::Memory => BundleRefused::Memory,
        }
    }
}
