ghost use Rattle.std.specs.Prelude.{◌^◌, ◌<◌, ◌≤ℤ◌};
ghost use Rattle.std.specs.Int.Signed.{mag};

use std::fmt;

/// A rectangle in whole micrometres, its edges in it.
#[derive(Clone, Copy, PartialEq, Eq, Debug)]
pub struct Rectangle {
    pub left: i32,
    pub bottom: i32,
    pub right: i32,
    pub top: i32,
    ghost across: { left ≤ℤ right },
    ghost upward: { bottom ≤ℤ top },
    ghost west: { mag left < 2 ^ 31 },
    ghost south: { mag bottom < 2 ^ 31 },
    ghost east: { mag right < 2 ^ 31 },
    ghost north: { mag top < 2 ^ 31 },
}

impl fmt::Display for Rectangle {
    fn fmt<W: fmt::Write>(&self, f: &mut fmt::Formatter<W>) -> fmt::Result {
        let Rectangle {
            left,
            bottom,
            right,
            top,
        } = *self;
        write!(f, "({left}, {bottom}) to ({right}, {top})")
    }
}

/// A question about rectangles.
#[derive(Clone, Copy)]
pub enum RectangleQuery {
    /// Which rectangles share a point with this one?
    Meets(Rectangle),
    /// Which rectangles lie in this one?
    Inside(Rectangle),
    /// Which rectangles hold this point, across and up?
    HoldsPoint(i32, i32),
}
