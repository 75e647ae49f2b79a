ghost use Rattle.std.specs.Prelude.{◌≡◌};
ghost use Rattle.std.specs.List.{slice_get};
ghost use Rattle.std.specs.Option.{option_map};
ghost use Rattle.node.specs.Reading.{level_in, count_in, rows};
ghost use Rattle.node.specs.InMemory.{words_in};

use crate::memory::Node;
use crate::row::{Row, rows};

impl Node {
    /// The 64 words of the node's page.
    pub fn words(&self) -> &[u32; 64]
        ensures { result.now ≡ words_in self.now }
    {
        &self.words
    }

    /// The level: 1 for a leaf, and one more for each level above.
    pub fn level(&self) -> u32
        ensures { result ≡ level_in (words_in self.now) }
    {
        self.words[0]
    }

    /// The number of entries.
    pub fn count(&self) -> usize
        ensures { result ≡ count_in (words_in self.now) }
    {
        self.words[1] as usize
    }

    // The entries, as they stand on the page.
    pub(crate) fn rows(&self) -> &[Row]
        ensures { result.now ≡ rows (words_in self.now) }
    {
        rows(&self.words)
    }

    // The words of entry `i`.
    pub(crate) fn row(&self, i: usize) -> Option<&Row>
        ensures { option_map (λ r. r.now) result ≡ slice_get (rows (words_in self.now)) i }
    {
        self.rows().get(i)
    }
}
