//! Page stores: numbered pages of 64 words, each free or held.
#![tactic(auto)]

mod compound;
mod refusal;
mod store;

pub use compound::{self_test, take_with};
pub use refusal::StoreRefusal;
pub use store::PageStore;
