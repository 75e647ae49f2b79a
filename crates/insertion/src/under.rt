ghost use Rattle.std.specs.Prelude.{◌≡◌};
ghost use Rattle.insertion.specs.Under.{InsertsUnder};

use crate::above::{Above, is_full};
use crate::change::Change;
use crate::fill::{add, regrow};
use crate::refusal::InsertRefusal;
use key_class::KeyClass;
use node::Entry;
use page_store::PageStore;
use tree_pages::{least_growth, load};

// Puts a record under the node of this level on this page.
pub(crate) fn insert_under<K: KeyClass, S: PageStore>(
    store: &mut S,
    page: u32,
    level: u32,
    above: Above,
    entry: &Entry<K, u32>,
) -> Result<Change<K>, InsertRefusal>
    ensures { InsertsUnder K.class (S.meaning store.old) (S.meaning store.new) page level above entry.now.key entry.now.link result }
{
    let node = load(store, page).ok_or(InsertRefusal::NotATree)?;
    if level <= 1 {
        if is_full(&node) {
            above.ask(store)?;
        }
        return add(store, page, node, entry).ok_or(InsertRefusal::NotATree);
    }
    let i = least_growth(&node, &entry.key).ok_or(InsertRefusal::NotATree)?;
    let child = node.link::<K>(i).ok_or(InsertRefusal::NotATree)?;
    let change = insert_under(store, child, level - 1, above.child_of(&node), entry)?;
    regrow(store, page, node, i, child, change).ok_or(InsertRefusal::NotATree)
}
