//! A write-back cache over any page store, itself a page store.
#![tactic(auto)]

mod cache;
mod calls;
mod places;
mod slot;
mod table;

pub use cache::Cache;
