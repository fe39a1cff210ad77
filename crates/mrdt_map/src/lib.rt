//! A map from keys, which are lists of bytes, to values of a type that merges: what is said of a key is what the
//! values' type says over the operations on that key.
#![tactic(auto)]

mod inner;
pub mod map;
mod slot;
mod table;
mod tables;

pub use map::{Map, MapAnswer, MapQuery, OnKey};
