//! The class of sets: nozzles that a head can carry.
#![tactic(auto)]

mod class;
mod key;
mod members;
mod shown;
mod words;

pub use key::{SetKey, SetQuery};
pub use members::Members;
