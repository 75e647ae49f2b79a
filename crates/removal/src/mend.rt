ghost use Rattle.removal.specs.Mending.{Merges, Shares, Joins, Mends};

use crate::paged::PagedNode;
use key_class::KeyClass;
use node::{Entry, Node, Pool};
use page_store::PageStore;
use tree_pages::{least_growth, load};

// Partner and child go together through two steps that share no more than that.

// Puts the entries of the child behind those of its partner, on the partner's page, and gives the page of the child back.
fn merge<K: KeyClass, S: PageStore>(
    store: &mut S,
    mut partner: PagedNode,
    child: &PagedNode,
) -> Option<Entry<K, u32>>
    ensures { Merges K.Key.growing (S.meaning store.old) (S.meaning store.new) partner child.now result }
{
    partner.node.append::<K>(&child.node);
    let joined = partner.save(store)?;
    store.give_back(child.page).ok()?;
    Some(joined)
}

// Shares out the entries of the child and its partner anew: those that stay go to the partner's page, the others to the
// page of the child.
fn share_out<K: KeyClass, S: PageStore>(
    store: &mut S,
    partner: &PagedNode,
    child: &PagedNode,
) -> Option<(Entry<K, u32>, Entry<K, u32>)>
    ensures { Shares K.Key.growing K.class (S.meaning store.old) (S.meaning store.new) partner.now child.now result }
{
    let mut pool = Pool::new::<K>();
    pool.push_all::<K>(&partner.node);
    pool.push_all::<K>(&child.node);
    let (stay, go) = pool.split::<K>(child.node.level());
    let stay = PagedNode {
        page: partner.page,
        node: stay,
    };
    let go = PagedNode {
        page: child.page,
        node: go,
    };
    Some((stay.save(store)?, go.save(store)?))
}

// Joins the thin child, at place `i`, to the one of the others whose key grows least for its key.
fn join<K: KeyClass, S: PageStore>(
    store: &mut S,
    mut node: Node,
    i: usize,
    child: &PagedNode,
) -> Option<Node>
    ensures { Joins K.class (S.meaning store.old) (S.meaning store.new) node i child.now result }
{
    let mut others = node;
    others.remove::<K>(i);
    let key: K = child.node.union()?;
    let j = least_growth(&others, &key)?;
    let page = others.link::<K>(j)?;
    let partner = PagedNode {
        page,
        node: load(store, page)?,
    };
    if partner.node.count() + child.node.count() <= Node::CAPACITY {
        let joined = merge::<K, S>(store, partner, child)?;
        others.replace(j, &joined);
        return Some(others);
    }
    let (stay, go) = share_out::<K, S>(store, &partner, child)?;
    let place = if j < i { j } else { j.saturating_add(1) };
    node.replace(place, &stay);
    node.replace(i, &go);
    Some(node)
}

// Writes the child, which stands at place `i` of `node`, or joins it to a partner where it is thin; answers the node with
// the keys formed anew, and none where the pages form no tree.
pub(crate) fn mend<K: KeyClass, S: PageStore>(
    store: &mut S,
    mut node: Node,
    i: usize,
    child: &PagedNode,
) -> Option<Node>
    ensures { Mends K.class (S.meaning store.old) (S.meaning store.new) node i child.now result }
{
    if child.node.count() < 4 {
        return join::<K, S>(store, node, i, child);
    }
    let entry = child.save::<K, S>(store)?;
    node.replace(i, &entry);
    Some(node)
}
