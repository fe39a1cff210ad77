//! Tests of copies of operations, of the first steps of a client and of the texts of help; the cases of `run_cases` have
//! the rest. They stand in a crate of their own, since a crate with tests is proved twice.
#![tactic(auto)]

#[cfg(test)]
mod copies;
#[cfg(test)]
mod generated;
#[cfg(test)]
mod help;
#[cfg(test)]
mod replies;
