//! Tests of the crates of bytes and of commits: streams, addresses, objects and graphs. They stand in a crate of their
//! own, since a crate with tests is proved twice.
#![tactic(auto)]

#[cfg(test)]
mod addresses;
#[cfg(test)]
mod codec;
#[cfg(test)]
mod graphs;
#[cfg(test)]
mod streams;
