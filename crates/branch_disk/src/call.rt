// The calls that a disk in memory has done.

use crate::Part;

// What a call was to do: to look, which changes nothing; to write bytes at a place; or to sync.
#[derive(Debug, Drop)]
pub enum What {
    Look,
    Write(Part, u64, Vec<u8>),
    Sync(Part),
}

// A call, and whether it failed.
#[derive(Debug, Drop)]
pub struct Call {
    pub what: What,
    pub failed: bool,
}
