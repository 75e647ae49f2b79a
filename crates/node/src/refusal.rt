ghost use Rattle.std.specs.Prelude.{◌≡◌};
ghost use Rattle.node.specs.Reading.{number_of};

use thiserror::Error;

/// Why 64 words are no node.
#[derive(Clone, Copy, PartialEq, Eq, Debug, Error)]
pub enum NodeRefusal {
    #[error("refused {}: the level is not 1 to 7", self.number())]
    BadLevel = 51,
    #[error("refused {}: the count of entries is not 1 to 12", self.number())]
    BadCount = 52,
    /// Word 2, word 3 or a word of an unused entry is not zero.
    #[error("refused {}: an unused word is not zero", self.number())]
    NotZero = 53,
    #[error("refused {}: a key does not unsqueeze", self.number())]
    BadKey = 54,
    #[error("refused {}: a record number is 0, or a page number is 4096 or more", self.number())]
    BadLink = 55,
}

impl NodeRefusal {
    /// The number that users see.
    pub fn number(self) -> u32
        ensures { result ≡ number_of self }
    {
        self as u32
    }
}
