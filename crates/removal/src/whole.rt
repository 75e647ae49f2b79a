ghost use Rattle.std.specs.Prelude.{◌≡◌, ℕ, suc};
ghost use Rattle.gist.specs.Rules.{root_least};
ghost use Rattle.removal.specs.Whole.{Settles, RemovesFrom};

use crate::refusal::RemoveRefusal;
use crate::under::remove_under;
use key_class::{Key, KeyClass};
use node::{Entry, Node};
use page_store::PageStore;
use tree_pages::Root;

// The fewest entries of a root in a tree of so many levels.
fn root_least(levels: u32) -> usize
    ensures { (h : ℕ) → levels ≡ suc h → result ≡ root_least h }
{
    if levels > 1 { 2 } else { 1 }
}

// Writes the root, or gives its page back: a leaf with no entry, or a node above that gives way to its one child.
fn settle<K: Key, S: PageStore>(
    store: &mut S,
    root: Root,
    node: &Node,
) -> Result<Option<Root>, RemoveRefusal>
    ensures { Settles K.growing (S.meaning store.old) (S.meaning store.new) root node.now result }
{
    if node.count() >= root_least(root.levels) {
        store
            .write(root.page, node.words())
            .map_err(|_| RemoveRefusal::NotATree)?;
        return Ok(Some(root));
    }
    store
        .give_back(root.page)
        .map_err(|_| RemoveRefusal::NotATree)?;
    if root.levels <= 1 {
        return Ok(None);
    }
    let page = node.link::<K>(0).ok_or(RemoveRefusal::NotATree)?;
    Ok(Some(Root {
        page,
        levels: root.levels - 1,
    }))
}

/// Takes a record out of the tree, and answers where it starts then: nowhere where it has become empty.
pub fn remove<K: KeyClass, S: PageStore>(
    store: &mut S,
    root: Option<Root>,
    entry: &Entry<K, u32>,
) -> Result<Option<Root>, RemoveRefusal>
    ensures { RemovesFrom K.class (S.meaning store.old) (S.meaning store.new) root entry.now.key entry.now.link result }
{
    // By let .. else, since the root is none in a tree that is empty, which is no fault.
    let Some(root) = root else {
        return Err(RemoveRefusal::NoSuchRecord);
    };
    let node = remove_under(store, root.page, root.levels, entry)?;
    settle::<K, S>(store, root, &node)
}
