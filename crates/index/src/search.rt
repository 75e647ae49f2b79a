use crate::index::Index;
use cursor::Cursor;
use key_class::KeyClass;
use page_store::PageStore;

/// A search under way. It holds the index until it is ended.
pub struct Search<K: KeyClass, S: PageStore> {
    pub(crate) index: Index<K, S>,
    pub(crate) query: K::Query,
    pub(crate) cursor: Cursor,
}
