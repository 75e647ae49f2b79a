ghost use Rattle.std.specs.Prelude.{◌≡◌, ◌≤◌, [], ◌==◌};
ghost use Rattle.cursor.specs.Ways.{ahead, Started, Here, Put, Pushed, Popped};

use crate::place::Place;
use crate::way::Way;
use arrayvec::ArrayVec;
use tree_pages::Root;

impl Way {
    // To the root of a tree; at its end where there is none, and where it has not 1 to 7 levels, as no tree has.
    pub(crate) fn start(root: Option<Root>) -> Way
        ensures { Started root result }
    {
        let mut places = ArrayVec::new();
        let mut height = 0;
        if let Some(root) = root
            && matches!(root.levels, 1..=7)
        {
            places.push(Place::first_of(root.page));
            height = root.levels - 1;
        }
        Way { places, height }
    }

    // The place in hand; none at the end of the way.
    pub(crate) fn here(&self) -> Option<Place>
        ensures { Here self.now result }
    {
        self.places.last().copied()
    }

    // Whether the page in hand is a leaf.
    pub(crate) fn on_leaf(&self) -> bool
        ensures { result ≡ (self.now.height == 0) }
    {
        self.height == 0
    }

    // Replaces the place in hand.
    pub(crate) fn put(&mut self, place: Place)
        ensures { Put self.old self.new place }
    {
        // Off and on again: what is written through `last_mut` is not known when the loan ends, and by index it needs a lemma.
        if self.places.pop().is_some() {
            self.places.push(place);
        }
    }

    // Goes down to the first entry of a page.
    pub(crate) fn push(&mut self, page: u32)
        requires { 1 ≤ self.old.height }
        ensures { Pushed self.old self.new page }
    {
        self.height -= 1;
        self.places.push(Place::first_of(page));
    }

    // Goes up, back to the page above.
    pub(crate) fn pop(&mut self)
        ensures { Popped self.old self.new }
    {
        if self.places.pop().is_some() {
            self.height += 1;
        }
    }

    // Goes to the end.
    pub(crate) fn stop(&mut self)
        ensures { ahead self.new ≡ [] }
    {
        self.places.clear();
    }
}
