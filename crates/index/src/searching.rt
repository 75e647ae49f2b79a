ghost use Rattle.std.specs.Prelude.{◌≡◌};
ghost use Rattle.cursor.specs.Awaits.{Falls};
ghost use Rattle.index.specs.Parts.{store_in, shape_in};
ghost use Rattle.index.specs.Searching.{index_in, query_in, cursor_in, Begins, Nexts};

use crate::index::Index;
use crate::search::Search;
use cursor::{Cursor, Found};
use key_class::KeyClass;
use page_store::PageStore;

impl<K: KeyClass, S: PageStore> Index<K, S> {
    /// Begins a search. Until it ends, the index is out of reach.
    pub fn begin(self, query: K::Query) -> Search<K, S>
        ensures index { index_in result ≡ self }
        ensures query { query_in result ≡ query }
        ensures begins { Begins K.class (S.meaning (store_in self)) (shape_in self) result }
    {
        let cursor = Cursor::start::<K>(self.shape.root);
        Search {
            index: self,
            query,
            cursor,
        }
    }
}

impl<K: KeyClass, S: PageStore> Search<K, S> {
    /// The next record that matches; none, for ever, when there is none left.
    #[tactic(auto, using(crate::proofs::Standing::stands_still))]
    pub fn next(&mut self) -> Option<Found<K>>
        ensures kept { S.meaning (store_in (index_in self.new)) ≡ S.meaning (store_in (index_in self.old)) }
        ensures same { (shape_in (index_in self.new) ≡ shape_in (index_in self.old)) × (query_in self.new ≡ query_in self.old) }
        ensures falls { Falls (cursor_in self.old) (cursor_in self.new) result }
        ensures nexts { Nexts K.class (S.meaning (store_in (index_in self.old))) self.old self.new result }
    {
        self.cursor.next::<K, S>(&mut self.index.store, &self.query)
    }

    /// Hands the index back, with the pages and numbers that it had at the begin.
    pub fn end(self) -> Index<K, S>
        ensures { result ≡ index_in self }
    {
        let Search {
            index,
            query: _,
            cursor: _,
        } = self;
        index
    }
}
