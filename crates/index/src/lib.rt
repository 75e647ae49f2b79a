//! An index over any key class on any page store.
//!
//! An [`Index`] owns its store. A search moves it into a [`Search`], and ending the search moves it back, so that nothing
//! is inserted while a search is open, and nothing is asked of a search that has ended: neither compiles.
#![tactic(auto)]

mod calls;
mod index;
mod search;
mod searching;
mod shape;

pub use cursor::Found;
pub use index::Index;
pub use insertion::InsertRefusal;
pub use removal::RemoveRefusal;
pub use search::Search;
