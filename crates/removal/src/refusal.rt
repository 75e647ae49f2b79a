ghost use Rattle.std.specs.Prelude.{◌≡◌};
ghost use Rattle.removal.specs.Refusals.{number_of};

use thiserror::Error;

/// Why a removal is not done.
#[derive(Clone, Copy, PartialEq, Eq, Debug, Error)]
pub enum RemoveRefusal {
    /// The tree has no record of this key and number.
    #[error("refused 34: no such record")]
    NoSuchRecord,
    /// No index answers this: that there is a tree is part of its type.
    #[error("the pages form no tree")]
    NotATree,
}

impl RemoveRefusal {
    /// The number that users see.
    pub fn number(self) -> Option<u32>
        ensures { result ≡ number_of self }
    {
        match self {
            RemoveRefusal::NoSuchRecord => Some(34),
            RemoveRefusal::NotATree => None,
        }
    }
}
