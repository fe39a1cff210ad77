//! A type of one's own, on public crates alone: a tally board, which has for each of the candidates 0 to 63 the greatest
//! number that was ever set. `docs/EXTENDING.md` leads through it.
#![tactic(auto)]

pub mod board;

pub use board::{Board, BoardQuery, Raise, Standing};
