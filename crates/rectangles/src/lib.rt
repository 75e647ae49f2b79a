//! The class of rectangles: areas of a board.
#![tactic(auto)]

mod class;
mod rectangle;

pub use rectangle::{Rectangle, RectangleQuery};
