ghost use Rattle.std.specs.Prelude.{◌≤◌};

use std::fmt;

/// The numbers from `low` to `high`, both ends in it.
#[derive(Clone, Copy, PartialEq, Eq, Debug)]
pub struct Interval {
    pub low: u32,
    pub high: u32,
    ghost ordered: { low ≤ high },
}

impl fmt::Display for Interval {
    fn fmt<W: fmt::Write>(&self, f: &mut fmt::Formatter<W>) -> fmt::Result {
        let Interval { low, high } = *self;
        write!(f, "{low} to {high}")
    }
}

/// A question about intervals.
#[derive(Clone, Copy)]
pub enum IntervalQuery {
    /// Which intervals share a point with this one?
    Meets(Interval),
    /// Which intervals lie in this one?
    Inside(Interval),
}
