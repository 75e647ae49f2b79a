ghost use Rattle.std.specs.Prelude.{◌≡◌};
ghost use Rattle.key_class.specs.Class.{Growing, Coded, Class, Lawful, Picks};

/// What the quadratic split uses of a key.
pub trait Key: Copy {
    ghost growing: { Growing Self };

    /// The least key that covers both.
    fn union(&self, other: &Self) -> Self
        ensures { result ≡ growing.union self.now other.now };

    /// What it costs to put `other` under this key.
    fn growth(&self, other: &Self) -> u64
        ensures { result ≡ growing.growth self.now other.now };

    /// The words that stand for the key on a page.
    fn squeeze(&self) -> [u32; 4]
        ensures { result ≡ growing.squeeze self.now };

    /// The key that the words stand for.
    fn unsqueeze(words: &[u32; 4]) -> Option<Self>
        ensures { result ≡ growing.unsqueeze words.now };

    ghost coded: { Coded growing };
}

/// Keys that can be indexed, with their own kind of question.
pub trait KeyClass: Key {
    type Query: Drop;

    ghost class: { Class Self Self.Query };

    /// Whether this key covers `other`.
    fn covers(&self, other: &Self) -> bool
        ensures { result ≡ class.covers self.now other.now };

    /// Whether a record with this key fulfils the question.
    fn matches(&self, query: &Self::Query) -> bool
        ensures { result ≡ class.matches self.now query.now };

    /// Whether a page with this key may lead to a match.
    fn may_hold(&self, query: &Self::Query) -> bool
        ensures { result ≡ class.may_hold self.now query.now };

    /// Of 13 to 15 squeezed keys, in order: which go to a new page. As many of the marks count as there are keys; an array,
    /// so that whoever answers or is answered needs no type but the language's own.
    fn pick_split(words: &[[u32; 4]]) -> [bool; 15]
        ensures { Picks class.growing class.split words.now result };

    ghost tied: { class.growing ≡ Self.Key.growing };

    ghost lawful: { Lawful class };
}
