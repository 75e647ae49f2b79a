//! Key classes: what can be indexed, and the laws that it must keep.
#![tactic(auto)]

mod class;
mod groups;
mod joined;
mod keys;
mod quadratic;
mod refusal;
mod span;

pub use class::{Key, KeyClass};
pub use joined::union_of;
pub use quadratic::quadratic_split;
pub use refusal::{KeyRefusal, check_unused};
pub use span::Span;
