//! The journal of head moves: a header and records in the heads of a disk.
//!
//! The heads file is a header of 64 bytes and records of 64 bytes, each behind a gate of one byte that is part of
//! it: 1 is open, and every other byte is closed. A record counts once its gate is open. `Journal` adds records so
//! that at every moment a crash leaves those before, or those and the new one; `read_all` reads them.
#![tactic(auto)]

mod batch;
mod block;
mod fields;
mod header;
mod joined;
mod journal;
mod kinds;
pub mod laws;
mod names;
mod reading;
mod record;
mod spelling;

pub use joined::Joined;
pub use journal::{AppendRefused, Journal};
pub use kinds::{KindRefused, kind};
pub use reading::{ReadAllRefused, Stop, read_all};
pub use record::Record;
pub use spelling::{put_header, put_record};
