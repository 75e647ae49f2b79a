ghost use Rattle.page_cache.specs.Over.{Tied};

use crate::table::Table;
use page_store::PageStore;

/// A page store that keeps four pages of the store below.
///
/// It is not `Drop`: only `end` lets go of it, once what is changed is written below.
pub struct Cache<S: PageStore> {
    pub(crate) below: S,
    pub(crate) table: Table,
    ghost tied: { Tied (S.meaning below) table.slots },
}
