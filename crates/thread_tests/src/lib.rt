//! Tests of what threads share: a store, and clients of one. They stand in a crate of their own, since a crate with tests
//! is proved twice.
#![tactic(auto)]

#[cfg(test)]
mod batches;
#[cfg(test)]
mod calls;
#[cfg(test)]
mod clients;
#[cfg(test)]
mod crashes;
#[cfg(test)]
mod meeting;
#[cfg(test)]
mod plays;
#[cfg(test)]
mod rows;
