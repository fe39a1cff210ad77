//! Worked rows of the files of a store of documents, byte for byte, and of what the machine answers: collisions, joins,
//! commits received, and branches dropped.
//!
//! The rows stand in `specs/`, written by hand and not by the definitions that they are rows of. They are the
//! contracts of the functions of `laws`.
#![tactic(auto)]

pub mod laws;
