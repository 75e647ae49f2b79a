ghost use Rattle.std.specs.Prelude.{◌≡◌};
ghost use Rattle.insertion.specs.Filling.{Adds, Regrows, Shares};

use crate::change::Change;
use key_class::KeyClass;
use node::{Entry, Node, Pool};
use page_store::{PageStore, take_with};
use tree_pages::save;

// Writes the entries that go to a new page, and those that stay to theirs.
fn share_out<K: KeyClass, S: PageStore>(
    store: &mut S,
    page: u32,
    stay: &Node,
    go: &Node,
) -> Option<Change<K>>
    ensures { Shares K.Key.growing (S.meaning store.old) (S.meaning store.new) page stay.now go.now result }
{
    let new_page = take_with(store, go.words()).ok()?;
    let new = Entry {
        key: go.union()?,
        link: new_page,
    };
    let key = save(store, page, stay)?;
    Some(Change {
        key,
        split_off: Some(new),
    })
}

// Page and node are apart here, since the node is taken apart at once: its entries go to one page or two.

// Writes a node with one entry more to its page, or to its page and a new one; none where the pages form no tree.
pub(crate) fn add<K: KeyClass, S: PageStore>(
    store: &mut S,
    page: u32,
    mut node: Node,
    entry: &Entry<K, u32>,
) -> Option<Change<K>>
    ensures { Adds K.Key.growing K.class (S.meaning store.old) (S.meaning store.new) page node entry.now result }
{
    if node.push(entry) {
        let key = save(store, page, &node)?;
        return Some(Change::unsplit(key));
    }
    let mut pool = Pool::new::<K>();
    pool.push_all::<K>(&node);
    pool.push(entry);
    let (stay, go) = pool.split::<K>(node.level());
    share_out(store, page, &stay, &go)
}

// Writes a node whose child at place `i` has changed.
pub(crate) fn regrow<K: KeyClass, S: PageStore>(
    store: &mut S,
    page: u32,
    mut node: Node,
    i: usize,
    child: u32,
    change: Change<K>,
) -> Option<Change<K>>
    ensures { Regrows K.Key.growing K.class (S.meaning store.old) (S.meaning store.new) page node i child change result }
{
    let entry = Entry {
        key: change.key,
        link: child,
    };
    node.replace(i, &entry);
    match change.split_off {
        Some(new) => add(store, page, node, &new),
        None => {
            let key: K = save(store, page, &node)?;
            Some(Change::unsplit(key))
        }
    }
}
