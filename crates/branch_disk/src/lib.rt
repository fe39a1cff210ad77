//! A disk of two parts, and what a crash may leave of it.
//!
//! A disk is two files of bytes. What was written to a part is sure once a sync of that part has returned; until
//! then a crash may leave any bytes in the ranges that were written. `MemoryDisk` keeps both parts in memory,
//! with listed calls that fail, and makes the disk that a crash leaves at any of its calls. `FileDisk` works on
//! two files, and tells nothing of what they hold.
#![tactic(auto)]

mod call;
mod disk;
mod file;
mod fill;
mod image;
pub mod laws;
mod memory;
mod part;
mod patch;
mod whole;

pub use disk::{Disk, DiskFailed};
pub use file::{FileDisk, LockFile};
pub use fill::Fill;
pub use memory::MemoryDisk;
pub use part::Part;
pub use whole::{ReadRefused, read_whole, settle};
