//! A cursor over the records of a tree on pages that match a query: it stops at each, and goes on when it is asked to.
#![tactic(auto)]

mod cursor;
mod found;
mod looking;
mod place;
mod way;
mod way_steps;

pub use cursor::Cursor;
pub use found::Found;
