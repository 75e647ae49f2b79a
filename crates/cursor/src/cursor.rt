ghost use Rattle.std.specs.Prelude.{◌≡◌};
ghost use Rattle.cursor.specs.Awaits.{Starts, Falls, Nexts};
ghost use Rattle.cursor.specs.Looks.{Loads};

use crate::found::Found;
use crate::looking::{Outcome, look};
use crate::way::Way;
use key_class::KeyClass;
use node::Node;
use page_store::PageStore;
use tree_pages::{Root, load};

/// A search under way: its way through the tree, and the node of the page in hand once it is loaded.
///
/// So a page is read once in each visit, and between two calls the store is free.
#[derive(Drop)]
pub struct Cursor {
    way: Way,
    node: Option<Node>,
}

impl Cursor {
    /// Before the first match in the tree with this root; at the end where there is none.
    pub fn start<K: KeyClass>(root: Option<Root>) -> Cursor
        ensures { Starts K.class root result }
    {
        Cursor {
            way: Way::start(root),
            node: None,
        }
    }

    // Loads the node of the page in hand, unless it is held already.
    fn hold<S: PageStore>(&mut self, store: &mut S, page: u32)
        ensures way { self.new.way ≡ self.old.way }
        ensures kept { S.meaning store.new ≡ S.meaning store.old }
        ensures node { Loads (S.meaning store.old) page self.old.node self.new.node }
    {
        if self.node.is_none() {
            self.node = load(store, page);
        }
    }

    /// The next record that matches the query, which is the same in each call; none, for ever, when there is none left.
    pub fn next<K: KeyClass, S: PageStore>(
        &mut self,
        store: &mut S,
        query: &K::Query,
    ) -> Option<Found<K>>
        ensures kept { S.meaning store.new ≡ S.meaning store.old }
        ensures falls { Falls self.old self.new result }
        ensures nexts { Nexts K.class (S.meaning store.old) query.now self.old self.new result }
    {
        while let Some(place) = self.way.here() {
            self.hold(store, place.page);
            let Some(node) = &self.node else {
                self.way.stop();
                return None;
            };
            match look::<K>(&mut self.way, place, node, query) {
                Outcome::Match(found) => return Some(found),
                Outcome::SamePage => {}
                Outcome::OtherPage => self.node = None,
            }
        }
        None
    }
}
