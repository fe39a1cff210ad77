//! Tests of bases of sums, through public calls alone. They stand in a crate of their own, since a crate with tests is
//! proved twice.
#![tactic(auto)]

#[cfg(test)]
mod bases;
