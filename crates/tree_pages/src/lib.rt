//! Trees on the pages of a store: how a tree lies there, and its nodes read and written.
#![tactic(auto)]

mod levels;
mod nodes;
mod root;

pub use levels::{MOST_LEVELS, least_pages};
pub use nodes::{least_growth, load, save};
pub use root::Root;
