//! What a store answers a step of the machine: said once, for every layer that hands the answer up.
//!
//! The definitions stand in `specs/`, the law over them is the contract of the function of `laws`.
#![tactic(auto)]

pub mod laws;
