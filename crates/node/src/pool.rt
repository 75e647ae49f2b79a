ghost use Rattle.std.specs.Prelude.{◌≡◌, ℕ, ◌+◌, ◌≤◌, List, [], ◌∷◌, ◌++◌, map, length, take, if◌then◌else◌, nat_le, nat_lt};
ghost use Rattle.node.specs.Nodes.{Entry, keys, stay, go};
ghost use Rattle.node.specs.InMemory.{rows_in, Stands, Pooled};

use crate::entry::Entry;
use crate::memory::{Node, Pool};
use crate::row::{ROW, Row, key_words, squeezed};
use key_class::{Key, KeyClass};

impl Pool {
    // Puts the words of an entry behind the others; false where there are 15, and nothing changes.
    fn push_row(&mut self, row: &Row) -> bool
        ensures full { result ≡ nat_lt self.old.count 15 }
        ensures count { self.new.count ≡ (if result then self.old.count + 1 else self.old.count) }
        ensures rows { rows_in self.new ≡ (if result then rows_in self.old ++ row.now ∷ [] else rows_in self.old) }
    {
        let at = self.count;
        if at >= Pool::CAPACITY {
            return false;
        }
        self.rows[at] = *row;
        self.count += 1;
        true
    }

    /// A pool with no entries yet.
    pub fn new<K: Key>() -> Pool
        ensures { Pooled K.growing result [] }
    {
        Pool {
            rows: [[0; ROW]; Pool::CAPACITY],
            count: 0,
        }
    }

    /// Puts an entry behind the others; false where there are 15, and nothing changes.
    pub fn push<K: Key>(&mut self, entry: &Entry<K, u32>) -> bool
        ensures { (es : List (Entry K ℕ)) → Pooled K.growing self.old es
            → (result ≡ nat_lt (length es) 15) × Pooled K.growing self.new (if result then es ++ entry.now ∷ [] else es) }
    {
        self.push_row(&squeezed(entry))
    }

    /// Puts the entries of a node behind the others; false where they would be more than 15, and nothing changes.
    pub fn push_all<K: Key>(&mut self, node: &Node) -> bool
        ensures { (level : ℕ) (es fs : List (Entry K ℕ)) → Pooled K.growing self.old es → Stands K.growing node.now level fs
            → (result ≡ nat_le (length es + length fs) 15) × Pooled K.growing self.new (if result then es ++ fs else es) }
    {
        if self.count + node.count() > Pool::CAPACITY {
            return false;
        }
        for row in node.rows() {
            self.push_row(row);
        }
        true
    }

    // The words of the keys, at places with no entry too.
    fn keys(&self) -> [[u32; 4]; Pool::CAPACITY]
        ensures { result ≡ map (take 4) self.now.rows }
    {
        self.rows.map(key_words)
    }

    /// Two nodes of this level: the entries that stay, and those that go, as the class splits them.
    pub fn split<K: KeyClass>(&self, level: u32) -> (Node, Node)
        ensures { (es : List (Entry K ℕ)) → Pooled K.Key.growing self.now es → 13 ≤ length es → length es ≤ 15
            → Stands K.Key.growing result.0 level (stay (K.class.split (keys es)) es) × Stands K.Key.growing result.1 level (go (K.class.split (keys es)) es) }
    {
        let goes = K::pick_split(&self.keys()[..self.count]);
        let mut stay = Node::new::<K>(level);
        let mut go = Node::new::<K>(level);
        for (row, goes) in self.rows[..self.count].iter().zip(&goes) {
            if *goes {
                go.push_row(row);
            } else {
                stay.push_row(row);
            }
        }
        (stay, go)
    }
}
