//! Compaction: from the store on the current one of two disks, the store of its compact history is written on the
//! other, and then that one is current.
//!
//! Of two disks the first is current exactly where its heads have at least 65 bytes of which the first is 1, and else
//! the second is. So one byte decides, and it is written when all else is synced.
#![tactic(auto)]

pub mod answers;
mod compacting;
mod copying;
mod files;
mod spelling;
mod switching;
mod writing;

pub use answers::{CompactRefused, Compacted, Which};
pub use compacting::compact;
pub use files::{CompactFiles, compact_files};
pub use switching::{switch_to_first, switch_to_second};
pub use writing::{write_but_first, write_store};
