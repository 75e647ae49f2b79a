ghost use Rattle.removal.specs.Mending.{SavesNode};

use key_class::Key;
use node::{Entry, Node};
use page_store::PageStore;
use tree_pages::save;

/// A node, and the page that it lies on.
#[derive(Clone, Copy)]
pub(crate) struct PagedNode {
    pub page: u32,
    pub node: Node,
}

impl PagedNode {
    // Writes the node to its page, and answers the entry that leads to it.
    pub(crate) fn save<K: Key, S: PageStore>(&self, store: &mut S) -> Option<Entry<K, u32>>
        ensures { SavesNode K.growing (S.meaning store.old) (S.meaning store.new) self.now result }
    {
        let key = save(store, self.page, &self.node)?;
        Some(Entry {
            key,
            link: self.page,
        })
    }
}
