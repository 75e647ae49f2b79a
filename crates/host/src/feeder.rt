ghost use Rattle.std.specs.Prelude.{◌≡◌};
ghost use Rattle.host.specs.Feeders.{lies_on, feeder_on};

use reels::Reel;
use std::fmt;

/// A feeder of the machine: its reel, and the parts left on it.
#[derive(Clone, Copy)]
pub struct Feeder {
    pub reel: Reel,
    pub parts: u32,
}

/// A page with the feeder's data.
impl From<Feeder> for [u32; 64] {
    ghost from_gives = { lies_on };

    fn from(feeder: Feeder) -> [u32; 64] {
        let mut words = [0; 64];
        words[0] = feeder.reel.slot;
        words[1] = feeder.reel.low;
        words[2] = feeder.reel.high;
        words[3] = feeder.parts;
        words
    }
}

/// The feeder whose data a page has.
impl From<&[u32; 64]> for Feeder {
    ghost from_gives = { λ words feeder. feeder ≡ feeder_on words.now };

    fn from(words: &[u32; 64]) -> Feeder {
        let [slot, low, high, parts, ..] = *words;
        Feeder {
            reel: Reel { slot, low, high },
            parts,
        }
    }
}

impl fmt::Display for Feeder {
    fn fmt<W: fmt::Write>(&self, f: &mut fmt::Formatter<W>) -> fmt::Result {
        let Feeder { reel, parts } = *self;
        write!(f, "{reel}, {parts} parts")
    }
}
