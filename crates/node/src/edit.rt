ghost use Rattle.std.specs.Prelude.{◌≡◌, ℕ, ◌+◌, ◌<◌, List, [], ◌∷◌, ◌++◌, length, set, if◌then◌else◌, nat_le, nat_lt};
ghost use Rattle.std.specs.Option.{option_map};
ghost use Rattle.std.specs.List.{slice_get};
ghost use Rattle.key_class.specs.Joined.{joined};
ghost use Rattle.node.specs.Nodes.{Entry, keys, without};
ghost use Rattle.node.specs.Reading.{count_in};
ghost use Rattle.node.specs.InMemory.{words_in, with_row, pushed_row, Stands};

use crate::entry::Entry;
use crate::memory::Node;
use crate::row::{ROW, Row, key_words, squeezed, start, unsqueezed};
use key_class::Key;

// The class is a parameter of each method and not of the node, so each says what it does to a node that stands for entries.
// A type of nodes of one class could be made only by unsqueezing all keys of a page whenever it is read.
impl Node {
    // Writes the words of entry `i`.
    fn put(&mut self, i: usize, row: &Row)
        requires { i < 12 }
        ensures { words_in self.new ≡ with_row (words_in self.old) i row.now }
    {
        let at = start(i);
        // In two parts: a copy of five words is made by way of the stack.
        self.words[at..at + ROW - 1].copy_from_slice(&key_words(*row));
        self.words[at + ROW - 1] = row[ROW - 1];
    }

    // Puts the words of an entry behind the others; false where there are twelve, and nothing changes.
    pub(crate) fn push_row(&mut self, row: &Row) -> bool
        ensures full { result ≡ nat_lt (count_in (words_in self.old)) 12 }
        ensures words { words_in self.new ≡ (if result then pushed_row (words_in self.old) row.now else words_in self.old) }
    {
        let count = self.count();
        if count >= Node::CAPACITY {
            return false;
        }
        self.put(count, row);
        self.words[1] += 1;
        true
    }

    /// A node with no entry yet.
    pub fn new<K: Key>(level: u32) -> Node
        ensures { Stands K.growing result level [] }
    {
        let mut words = [0; 64];
        words[0] = level;
        Node { words }
    }

    /// The key at place `i`.
    pub fn key<K: Key>(&self, i: usize) -> Option<K>
        ensures { (level : ℕ) (es : List (Entry K ℕ)) → Stands K.growing self.now level es → result ≡ option_map (λ e. e.key) (slice_get es i) }
    {
        K::unsqueeze(&key_words(*self.row(i)?))
    }

    /// The record number or the page at place `i`.
    pub fn link<K: Key>(&self, i: usize) -> Option<u32>
        ensures { (level : ℕ) (es : List (Entry K ℕ)) → Stands K.growing self.now level es → result ≡ option_map (λ e. e.link) (slice_get es i) }
    {
        let [.., link] = *self.row(i)?;
        Some(link)
    }

    /// The entry at place `i`.
    pub fn entry<K: Key>(&self, i: usize) -> Option<Entry<K, u32>>
        ensures { (level : ℕ) (es : List (Entry K ℕ)) → Stands K.growing self.now level es → result ≡ slice_get es i }
    {
        unsqueezed(self.row(i)?)
    }

    /// Puts an entry behind the others; false where there are twelve, and nothing changes.
    pub fn push<K: Key>(&mut self, entry: &Entry<K, u32>) -> bool
        ensures { (level : ℕ) (es : List (Entry K ℕ)) → Stands K.growing self.old level es
            → (result ≡ nat_lt (length es) 12) × Stands K.growing self.new level (if result then es ++ entry.now ∷ [] else es) }
    {
        self.push_row(&squeezed(entry))
    }

    /// Puts the entries of another node behind the others; false where they would be more than 12, and nothing changes.
    pub fn append<K: Key>(&mut self, other: &Node) -> bool
        ensures { (level other_level : ℕ) (es fs : List (Entry K ℕ)) → Stands K.growing self.old level es → Stands K.growing other.now other_level fs
            → (result ≡ nat_le (length es + length fs) 12) × Stands K.growing self.new level (if result then es ++ fs else es) }
    {
        if self.count() + other.count() > Node::CAPACITY {
            return false;
        }
        for row in other.rows() {
            self.push_row(row);
        }
        true
    }

    /// Replaces the entry at place `i`; false where there is none, and nothing changes.
    pub fn replace<K: Key>(&mut self, i: usize, entry: &Entry<K, u32>) -> bool
        ensures { (level : ℕ) (es : List (Entry K ℕ)) → Stands K.growing self.old level es
            → (result ≡ nat_lt i (length es)) × Stands K.growing self.new level (set es i entry.now) }
    {
        if i >= self.count() {
            return false;
        }
        self.put(i, &squeezed(entry));
        true
    }

    /// Takes the entry at place `i` out, and closes up the places behind it; false where there is none, and nothing changes.
    pub fn remove<K: Key>(&mut self, i: usize) -> bool
        ensures { (level : ℕ) (es : List (Entry K ℕ)) → Stands K.growing self.old level es
            → (result ≡ nat_lt i (length es)) × Stands K.growing self.new level (without es i) }
    {
        if i >= self.count() {
            return false;
        }
        // All places behind it move up, also those with no entry, and the last one is cleared.
        self.words.copy_within(start(i + 1).., start(i));
        self.put(Node::CAPACITY - 1, &[0; ROW]);
        self.words[1] -= 1;
        true
    }

    /// The union of the keys, joined from the first entry to the last; none of no entries.
    pub fn union<K: Key>(&self) -> Option<K>
        ensures { (level : ℕ) (es : List (Entry K ℕ)) → Stands K.growing self.now level es → result ≡ joined K.growing (keys es) }
    {
        let mut union: K = self.key(0)?;
        // By place: the form of this loop is fixed, over the encoded entries with an index.
        for i in 1..self.count() {
            let key: K = self.key(i)?;
            union = union.union(&key);
        }
        Some(union)
    }
}
