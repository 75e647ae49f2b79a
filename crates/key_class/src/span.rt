ghost use Rattle.std.specs.Prelude.{◌≡◌};
ghost use Rattle.key_class.specs.Span.{holds, contains, meets};

/// The values from `low` to `high`, both ends in it. It is meant for a `low` that is not above `high`, which the keys that
/// have spans see to.
#[derive(Clone, Copy)]
pub struct Span<T> {
    pub low: T,
    pub high: T,
}

impl<T: PartialOrd> Span<T> {
    /// Whether the value is one of these.
    pub fn holds(&self, value: &T) -> bool
        ensures { result ≡ holds T.partial_cmp self.now value.now }
    {
        self.low <= *value && *value <= self.high
    }

    /// Whether all values of `other` are among these.
    pub fn contains(&self, other: &Span<T>) -> bool
        ensures { result ≡ contains T.partial_cmp self.now other.now }
    {
        self.low <= other.low && other.high <= self.high
    }

    /// Whether the two have a value in common.
    pub fn meets(&self, other: &Span<T>) -> bool
        ensures { result ≡ meets T.partial_cmp self.now other.now }
    {
        self.low <= other.high && other.low <= self.high
    }
}
