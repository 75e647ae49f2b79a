ghost use Rattle.std.specs.Prelude.{◌≡◌};
ghost use Rattle.intervals.specs.Intervals.{read_interval};

use intervals::Interval;
use key_class::KeyRefusal;
use std::fmt;

/// A reel: the slot that it is in, and the range of its resistor values in ohms.
#[derive(Clone, Copy, PartialEq, Eq, Debug)]
pub struct Reel {
    pub slot: u32,
    pub low: u32,
    pub high: u32,
}

impl Reel {
    /// The values on the reel as a key.
    pub fn range(&self) -> Result<Interval, KeyRefusal>
        ensures { result ≡ read_interval self.now.low self.now.high 0 0 }
    {
        Interval::try_from([self.low, self.high, 0, 0])
    }
}

impl fmt::Display for Reel {
    fn fmt<W: fmt::Write>(&self, f: &mut fmt::Formatter<W>) -> fmt::Result {
        let Reel { slot, low, high } = *self;
        write!(f, "slot {slot}, {low} to {high} ohm")
    }
}
