//! Nodes on pages: 64 words as a node and back, and work on a node's entries.
#![tactic(auto)]

mod edit;
mod entry;
mod header;
mod memory;
mod pool;
mod reading;
mod refusal;
mod row;

pub use entry::Entry;
pub use memory::{Node, Pool};
pub use refusal::NodeRefusal;
