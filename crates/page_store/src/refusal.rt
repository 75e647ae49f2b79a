ghost use Rattle.std.specs.Prelude.{◌≡◌};
ghost use Rattle.page_store.specs.Refusals.{number_of};

use thiserror::Error;

/// Why a page store says no. Each layer has refusals of its own, with numbers of their own.
#[derive(Clone, Copy, PartialEq, Eq, Debug, Error)]
pub enum StoreRefusal {
    #[error("refused {}: the page number is not below the size", self.number())]
    OutOfRange = 41,
    #[error("refused {}: the page is free", self.number())]
    NotHeld = 42,
    #[error("refused {}: no page is free", self.number())]
    NoFreePage = 43,
}

impl StoreRefusal {
    /// The number that users see.
    pub fn number(self) -> u32
        ensures { result ≡ number_of self }
    {
        self as u32
    }
}
