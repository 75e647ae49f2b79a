ghost use Rattle.std.specs.Prelude.{◌≡◌, ℕ, List};
ghost use Rattle.std.specs.Option.{option_map};
ghost use Rattle.node.specs.Nodes.{Entry};
ghost use Rattle.node.specs.InMemory.{words_in, Stands};
ghost use Rattle.tree_pages.specs.OneNode.{loaded, least_place, Saves};

use key_class::Key;
use node::Node;
use page_store::PageStore;

// The store is lent for each call: a struct that held it would be made and taken apart in each. That no page changes is said
// by each call that changes none.

/// The node on a page; none where the page is not held, or has more than 12 entries.
pub fn load<S: PageStore>(store: &mut S, page: u32) -> Option<Node>
    ensures kept { S.meaning store.new ≡ S.meaning store.old }
    ensures node { option_map words_in result ≡ loaded (S.meaning store.old) page }
{
    let mut words = [0; 64];
    store.read(page, &mut words).ok()?;
    Node::adopt(words)
}

/// Writes a node to its page, and answers the union of its keys; none where the page is not held, or the node has no entry.
pub fn save<K: Key, S: PageStore>(store: &mut S, page: u32, node: &Node) -> Option<K>
    ensures { Saves K.growing (S.meaning store.old) (S.meaning store.new) page node.now result }
{
    store.write(page, node.words()).ok()?;
    node.union()
}

/// The place of the entry whose key grows least for `key`, the lowest on a tie; none where there is no entry.
pub fn least_growth<K: Key>(node: &Node, key: &K) -> Option<usize>
    ensures { (level : ℕ) (es : List (Entry K ℕ)) → Stands K.growing node.now level es → result ≡ least_place K.growing key.now es }
{
    let first: K = node.key(0)?;
    let mut best = 0;
    let mut least = first.growth(key);
    // By place, which is the answer.
    for i in 1..node.count() {
        let other: K = node.key(i)?;
        let growth = other.growth(key);
        if growth < least {
            best = i;
            least = growth;
        }
    }
    Some(best)
}
