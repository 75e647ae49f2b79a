// Where each page lies: in a group of 65 words, a mark and then the 64 words of the page.
ghost use Rattle.std.specs.Prelude.{◌≡◌, ◌+◌, ◌*◌, ◌/◌, ◌<◌, ◌≤◌, min, is_some, IsSome, Some, None, vec_len, slice_index};
ghost use Rattle.page_store.specs.Pages.{zeros};
ghost use Rattle.array_store.specs.Layout.{cleared};

use std::ops::Range;

const GROUP: usize = 65;

const MOST_PAGES: usize = 4096;

const FREE: u32 = 0;

const HELD: u32 = 1;

// The place of a page's mark.
fn mark(page: u32) -> usize
    ensures { result ≡ 65 * page }
{
    GROUP * page as usize
}

// The places of a page's words.
fn body(page: u32) -> Range<usize>
    ensures start { result.start ≡ 65 * page + 1 }
    ensures end { result.end ≡ 65 * page + 65 }
{
    let start = mark(page) + 1;
    start..start + 64
}

/// The words of a store, in groups. Their number is kept, so that no call divides for it.
///
/// A method that names a page asks that it is below the size: no type of page numbers could be tied to one store's.
#[derive(Drop)]
pub(crate) struct Groups {
    words: Vec<u32>,
    size: u32,
    ghost room: { 65 * size ≤ vec_len words },
}

impl Groups {
    ghost use Rattle.array_store.specs.Groups.{page_in, EditsPage};

    // As many as there are whole groups, at most 4096, each page free.
    #[tactic(auto, unfolding(crate::specs::Layout::cleared))]
    pub(crate) fn new(mut words: Vec<u32>) -> Groups
        ensures size { result.size ≡ min (vec_len words / 65) 4096 }
        ensures words { result.words.items ≡ cleared words.items result.size }
    {
        let size = (words.len() / GROUP).min(MOST_PAGES) as u32;
        // By page number: after a loop over chunks of the vector only its length would be known.
        for page in 0..size {
            words[mark(page)] = FREE;
        }
        Groups { words, size }
    }

    pub(crate) fn size(&self) -> u32
        ensures { result ≡ self.now.size }
    {
        self.size
    }

    pub(crate) fn words(&self) -> &[u32]
        ensures { result.now ≡ self.now.words.items }
    {
        self.words.as_slice()
    }

    pub(crate) fn into_words(self) -> Vec<u32>
        ensures { result ≡ self.words }
    {
        self.words
    }

    pub(crate) fn is_held(&self, page: u32) -> bool
        requires { page < self.now.size }
        ensures { result ≡ is_some (page_in self.now page) }
    {
        self.words[mark(page)] != FREE
    }

    // Copies the words of a held page.
    pub(crate) fn fetch(&self, page: u32, words: &mut [u32; 64])
        requires { page < self.now.size }
        ensures { IsSome (page_in self.now page) → page_in self.now page ≡ Some words.new }
    {
        words.copy_from_slice(&self.words[body(page)]);
    }

    // Makes a page held, all its words zero.
    pub(crate) fn hold(&mut self, page: u32)
        requires { page < self.old.size }
        ensures { EditsPage self.old self.new page (Some zeros) }
    {
        self.words[mark(page)] = HELD;
        self.fill(page, &[0; 64]);
    }

    // Replaces the words of a held page.
    pub(crate) fn fill(&mut self, page: u32, words: &[u32; 64])
        requires { page < self.old.size }
        ensures { IsSome (page_in self.old page) → EditsPage self.old self.new page (Some words.now) }
    {
        self.words[body(page)].copy_from_slice(words);
    }

    // Makes a page free; its first word names the page listed after it.
    pub(crate) fn release(&mut self, page: u32, next: u32)
        requires { page < self.old.size }
        ensures edits { EditsPage self.old self.new page None }
        ensures link { slice_index self.new.words.items (65 * page + 1) ≡ next }
    {
        self.words[mark(page)] = FREE;
        self.words[body(page).start] = next;
    }

    // The page that a listed page names as the next.
    pub(crate) fn next_listed(&self, page: u32) -> u32
        requires { page < self.now.size }
        ensures { result ≡ slice_index self.now.words.items (65 * page + 1) }
    {
        self.words[body(page).start]
    }
}
