ghost use Rattle.removal.specs.Under.{RemovesUnder};

use crate::leaf::take_out;
use crate::mend::mend;
use crate::paged::PagedNode;
use crate::refusal::RemoveRefusal;
use key_class::KeyClass;
use node::{Entry, Node};
use page_store::PageStore;
use tree_pages::load;

// The node of this level on this page without the record, which is below it. Its page is not written yet: the caller
// writes it, or joins the node to another.
pub(crate) fn remove_under<K: KeyClass, S: PageStore>(
    store: &mut S,
    page: u32,
    level: u32,
    entry: &Entry<K, u32>,
) -> Result<Node, RemoveRefusal>
    ensures { RemovesUnder K.class (S.meaning store.old) (S.meaning store.new) page level entry.now.key entry.now.link result }
{
    let node = load(store, page).ok_or(RemoveRefusal::NotATree)?;
    if level <= 1 {
        return take_out(node, entry).ok_or(RemoveRefusal::NoSuchRecord);
    }
    // By place: what comes of a child is put in its place.
    for i in 0..node.count() {
        let child: Entry<K, u32> = node.entry(i).ok_or(RemoveRefusal::NotATree)?;
        if !child.key.covers(&entry.key) {
            continue;
        }
        match remove_under(store, child.link, level - 1, entry) {
            Ok(changed) => {
                let child = PagedNode {
                    page: child.link,
                    node: changed,
                };
                return mend::<K, S>(store, node, i, &child).ok_or(RemoveRefusal::NotATree);
            }
            Err(RemoveRefusal::NoSuchRecord) => {}
            Err(RemoveRefusal::NotATree) => return Err(RemoveRefusal::NotATree),
        }
    }
    Err(RemoveRefusal::NoSuchRecord)
}
