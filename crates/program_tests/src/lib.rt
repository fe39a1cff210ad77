//! Tests of what no case of `run_cases` can say: addresses that collide, clients side by side, and files. They stand in a
//! crate of their own, since a crate with tests is proved twice.
#![tactic(auto)]

#[cfg(test)]
mod clients;
#[cfg(test)]
mod collisions;
#[cfg(test)]
mod runs;
