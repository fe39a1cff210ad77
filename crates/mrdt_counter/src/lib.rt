//! A counter that merges: operations add to it, and a reset takes away all that it has seen. Beside it the sum, a
//! counter without resets, which keeps its number alone.
#![tactic(auto)]

pub mod counter;
pub mod sum;

pub use counter::{Counter, CounterOp, CounterQuery};
pub use sum::{Sum, SumOp};
