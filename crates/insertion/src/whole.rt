ghost use Rattle.std.specs.Prelude.{◌≡◌};
ghost use Rattle.insertion.specs.Whole.{Plants, Raises, InsertsInto};

use crate::above::Above;
use crate::change::Change;
use crate::refusal::InsertRefusal;
use crate::under::insert_under;
use key_class::KeyClass;
use node::{Entry, Node};
use page_store::{PageStore, take_with};
use tree_pages::Root;

// The first record of a tree, on a leaf of its own.
fn plant<K: KeyClass, S: PageStore>(
    store: &mut S,
    entry: &Entry<K, u32>,
) -> Result<Root, InsertRefusal>
    ensures { Plants K.Key.growing (S.meaning store.old) (S.meaning store.new) entry.now result }
{
    let mut leaf = Node::new::<K>(1);
    leaf.push(entry);
    let page = take_with(store, leaf.words()).map_err(|_| InsertRefusal::TooFewPages {
        needed: 1,
        free: 0,
    })?;
    Ok(Root { page, levels: 1 })
}

// A new root of this level above the two parts of a root that was split; none where no page is free.
fn raise<K: KeyClass, S: PageStore>(
    store: &mut S,
    levels: u32,
    first: &Entry<K, u32>,
    second: &Entry<K, u32>,
) -> Option<Root>
    ensures { Raises K.Key.growing (S.meaning store.old) (S.meaning store.new) levels first.now second.now result }
{
    let mut node = Node::new::<K>(levels);
    node.push(first);
    node.push(second);
    let page = take_with(store, node.words()).ok()?;
    Some(Root { page, levels })
}

/// Puts a record, an entry whose link is its number, into the tree, and answers where the tree starts then.
pub fn insert<K: KeyClass, S: PageStore>(
    store: &mut S,
    root: Option<Root>,
    entry: &Entry<K, u32>,
) -> Result<Root, InsertRefusal>
    ensures { InsertsInto K.class (S.meaning store.old) (S.meaning store.new) root entry.now.key entry.now.link result }
{
    let Some(root) = root else {
        return plant(store, entry);
    };
    let above = Above {
        run: 0,
        levels: root.levels,
    };
    let Change { key, split_off } = insert_under(store, root.page, root.levels, above, entry)?;
    let Some(new) = split_off else {
        return Ok(root);
    };
    let old = Entry {
        key,
        link: root.page,
    };
    let levels = root.levels.saturating_add(1);
    raise(store, levels, &old, &new).ok_or(InsertRefusal::NotATree)
}
