//! A history whose operations are renewed: operation by operation those of another type that means the same. It
//! has the same branches and commits, the same answers, and makes the same turns.
#![tactic(auto)]

pub mod laws;
