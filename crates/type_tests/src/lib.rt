//! Tests of lists that versions share, of live sets and of sequences. The cases of `run_cases` have the other types.
#![tactic(auto)]

#[cfg(test)]
mod lists;
#[cfg(test)]
mod live;
#[cfg(test)]
mod sequence;
#[cfg(test)]
mod steps;
