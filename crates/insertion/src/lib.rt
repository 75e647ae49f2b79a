//! An insert into a tree on pages: down by the least growth, every page read once; splits on the way up, every page
//! written once. What would be refused is asked at the leaf, before the first change.
#![tactic(auto)]

mod above;
mod change;
mod fill;
mod refusal;
mod under;
mod whole;

pub use refusal::InsertRefusal;
pub use whole::insert;
