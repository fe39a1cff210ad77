//! Tests of disks, of the heads file and of the objects file. They stand in a crate of their own, since a crate with
//! tests is proved twice.
#![tactic(auto)]

#[cfg(test)]
mod disk;
#[cfg(test)]
mod journal;
#[cfg(test)]
mod objects;
#[cfg(test)]
mod shaky;
