//! A removal from a tree on pages: down into every entry that covers the key, in order; on the way up a thin node is
//! joined to a partner. Every page is written or given back at most once.
#![tactic(auto)]

mod leaf;
mod mend;
mod paged;
mod refusal;
mod under;
mod whole;

pub use refusal::RemoveRefusal;
pub use whole::remove;
