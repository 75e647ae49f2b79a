ghost use Rattle.std.specs.Prelude.{◌≡◌, ◌≢◌, Err};
ghost use Rattle.gist.specs.Tree.{empty};
ghost use Rattle.index.specs.Parts.{store_in, shape_in};
ghost use Rattle.index.specs.Standing.{last_number, StandsFor};
ghost use Rattle.index.specs.Inserting.{Inserts};
ghost use Rattle.index.specs.Removing.{Removes};

use crate::index::Index;
use crate::shape::Shape;
use insertion::{InsertRefusal, insert};
use key_class::KeyClass;
use node::Entry;
use page_store::PageStore;
use removal::{RemoveRefusal, remove};
use std::marker::PhantomData;

impl<K: KeyClass, S: PageStore> Index<K, S> {
    /// An index with no record, on a store that may hold any pages.
    pub fn new(store: S) -> Self
        ensures store { store_in result ≡ store }
        ensures number { last_number (shape_in result) ≡ 0 }
        ensures empty { StandsFor K.class.growing (S.meaning store) (S.meaning (store_in result)) (shape_in result) empty }
    {
        let shape = Shape {
            root: None,
            last: 0,
            records: 0,
            spare: store.free_count(),
        };
        Index {
            store,
            shape,
            keys: PhantomData,
        }
    }

    /// Hands the store back, with its pages as they are.
    pub fn dismantle(self) -> S
        ensures { result ≡ store_in self }
    {
        let Index {
            store,
            shape: _,
            keys: _,
        } = self;
        store
    }

    /// Adds a record with this key, and answers its number: the nth insert that is done answers n.
    pub fn insert(&mut self, key: &K) -> Result<u32, InsertRefusal>
        ensures inserts { Inserts K.class (S.meaning (store_in self.old)) (S.meaning (store_in self.new)) (shape_in self.old) (shape_in self.new) key.now result }
        ensures tree { result ≢ Err InsertRefusal.NotATree }
    {
        let number = self
            .shape
            .last
            .checked_add(1)
            .ok_or(InsertRefusal::NoNumberLeft)?;
        let record = Entry {
            key: *key,
            link: number,
        };
        let root = insert(&mut self.store, self.shape.root, &record)?;
        self.shape.root = Some(root);
        self.shape.last = number;
        self.shape.records = self.shape.records.saturating_add(1);
        Ok(number)
    }

    /// Takes out the record with this number and this key.
    pub fn remove(&mut self, number: u32, key: &K) -> Result<(), RemoveRefusal>
        ensures removes { Removes K.class (S.meaning (store_in self.old)) (S.meaning (store_in self.new)) (shape_in self.old) (shape_in self.new) key.now number result }
        ensures tree { result ≢ Err RemoveRefusal.NotATree }
    {
        let record = Entry {
            key: *key,
            link: number,
        };
        self.shape.root = remove(&mut self.store, self.shape.root, &record)?;
        self.shape.records = self.shape.records.saturating_sub(1);
        Ok(())
    }
}
