//! A page store in plain memory.
#![tactic(auto)]

mod calls;
mod groups;
mod store;

pub use store::ArrayStore;
