ghost use Rattle.std.specs.Prelude.{Some};
ghost use Rattle.cursor.specs.Ways.{Here};
ghost use Rattle.cursor.specs.Looks.{Looked};

use crate::found::Found;
use crate::place::Place;
use crate::way::Way;
use key_class::KeyClass;
use node::{Entry, Node};

/// What a look at one entry led to.
#[derive(Clone, Copy)]
pub(crate) enum Outcome<K> {
    /// The entry is a record that matches.
    Match(Found<K>),
    /// The next place is on the same page.
    SamePage,
    /// The next place is on the page above or below.
    OtherPage,
}

// Looks at the entry in hand, on a page with this node, and moves on to the next.
pub(crate) fn look<K: KeyClass>(
    way: &mut Way,
    place: Place,
    node: &Node,
    query: &K::Query,
) -> Outcome<K>
    requires { Here way.old (Some place) }
    ensures { Looked K.class query.now node.now way.old way.new result }
{
    let i = place.next as usize;
    if i >= node.count() {
        way.pop();
        return Outcome::OtherPage;
    }
    way.put(Place {
        next: place.next + 1,
        ..place
    });
    let Some(Entry { key, link }) = node.entry::<K>(i) else {
        return Outcome::SamePage;
    };
    if way.on_leaf() {
        if key.matches(query) {
            return Outcome::Match(Found { number: link, key });
        }
    } else if key.may_hold(query) {
        way.push(link);
        return Outcome::OtherPage;
    }
    Outcome::SamePage
}
