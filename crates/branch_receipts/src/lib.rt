//! What a store has behind a bundle that it received, and what it answers to one that another store sent.
//!
//! The rules stand in `specs/`, the laws over them are the contracts of the functions of `laws`.
#![tactic(auto)]

pub mod laws;
