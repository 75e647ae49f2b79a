ghost use Rattle.std.specs.Prelude.{◌≡◌};
ghost use Rattle.insertion.specs.Refusals.{number_of};

use thiserror::Error;

/// Why an insert is not done.
#[derive(Clone, Copy, PartialEq, Eq, Debug, Error)]
pub enum InsertRefusal {
    /// All record numbers are used up.
    #[error("refused 31: no record number is left")]
    NoNumberLeft,
    /// The tree has seven levels, and every page on the way of the key is full.
    #[error("refused 32: the tree would have eight levels")]
    TooManyLevels,
    /// Fewer pages are free than the insert needs.
    #[error("refused 33: {needed} pages are needed, {free} are free")]
    TooFewPages { needed: u32, free: u32 },
    /// No index answers this: that there is a tree is part of its type.
    #[error("the pages form no tree")]
    NotATree,
}

impl InsertRefusal {
    /// The number that users see.
    pub fn number(self) -> Option<u32>
        ensures { result ≡ number_of self }
    {
        match self {
            InsertRefusal::NoNumberLeft => Some(31),
            InsertRefusal::TooManyLevels => Some(32),
            InsertRefusal::TooFewPages { needed: _, free: _ } => Some(33),
            InsertRefusal::NotATree => None,
        }
    }
}
