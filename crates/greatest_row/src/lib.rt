//! Rows that keep the greatest number of each place, for types whose operations raise a number at a place.
//!
//! A type of that kind is a struct round a `Row`. It says of its operations at which place they raise which number
//! (`Marks`), and what a row answers to its queries; its meaning is then `row_meaning`, and its laws are `row_laws`.
#![tactic(auto)]

pub mod laws;
pub mod mark;
pub mod row;

pub use mark::Mark;
pub use row::Row;
