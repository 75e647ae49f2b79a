//! Examples of page stores, run.
#![tactic(auto)]

#[cfg(test)]
mod array;
#[cfg(test)]
mod cache;
mod pile;

pub use pile::tested_through_a_pile;
