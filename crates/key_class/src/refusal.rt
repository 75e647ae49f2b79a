ghost use Rattle.std.specs.Prelude.{◌≡◌, Ok};
ghost use Rattle.key_class.specs.Refusals.{number_of, if_unused};

use thiserror::Error;

/// Why four words are no key, or no question. A place is that of a word, from 0 to 3.
#[derive(Clone, Copy, PartialEq, Eq, Debug, Error)]
pub enum KeyRefusal {
    /// The place is that of the first such low end.
    #[error("refused {}: the low end in word {} is above its high end", self.number(), .0)]
    LowAboveHigh(usize),
    /// The place is that of the first such word.
    #[error("refused {}: the unused word {} is not zero", self.number(), .0)]
    UnusedNotZero(usize),
    #[error("refused {}: the set has no member", self.number())]
    NoMember,
}

impl KeyRefusal {
    /// The number that users see.
    pub fn number(self) -> u32
        ensures { result ≡ number_of self }
    {
        match self {
            KeyRefusal::LowAboveHigh(_) => 21,
            KeyRefusal::UnusedNotZero(_) => 22,
            KeyRefusal::NoMember => 23,
        }
    }
}

/// Whether the last two of four words, which are not used, are zero.
pub fn check_unused(third: u32, fourth: u32) -> Result<(), KeyRefusal>
    ensures { result ≡ if_unused third fourth (Ok tt) }
{
    if third != 0 {
        return Err(KeyRefusal::UnusedNotZero(2));
    }
    if fourth != 0 {
        return Err(KeyRefusal::UnusedNotZero(3));
    }
    Ok(())
}
