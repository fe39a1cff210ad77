//! Renewals of a mergeable type: what it is that a new type takes over the operations of an old one, and replies and
//! answers to them as before. The definitions and their laws stand in `specs/`.
#![tactic(auto)]

pub mod laws;
