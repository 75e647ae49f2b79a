#![tactic(auto, using(crate::proofs::Answered::calls))]

ghost use Rattle.std.specs.Prelude.{◌≡◌, ◌/◌, ◌<◌, min, length, replicate, None, vec_len};
ghost use Rattle.page_store.specs.Pages.{zeros};
ghost use Rattle.page_store.specs.Refusals.{answer};
ghost use Rattle.page_store.specs.Calls.{Took, Takes, Reads, Writes, GivesBack};
ghost use Rattle.array_store.specs.Layout.{cleared};
ghost use Rattle.array_store.specs.Array.{words_in, pages_in, words_past};
ghost use Rattle.array_store.specs.Laws.{few_pages, whole_pages};

use crate::groups::Groups;
use crate::store::ArrayStore;
use page_store::{PageStore, StoreRefusal};

impl ArrayStore {
    /// As many free pages as there are whole groups of 65 words, at most 4096.
    pub fn new(words: Vec<u32>) -> ArrayStore
        ensures size { length (pages_in result) ≡ min (vec_len words / 65) 4096 }
        ensures pages { pages_in result ≡ replicate (length (pages_in result)) None }
        ensures words { words_in result ≡ cleared words.items (length (pages_in result)) }
    {
        ArrayStore {
            groups: Groups::new(words),
            fresh: 0,
            head: 0,
            listed: 0,
        }
    }

    /// The words as they lie.
    pub fn words(&self) -> &[u32]
        ensures { result.now ≡ words_in self.now }
    {
        self.groups.words()
    }

    /// Hands the words back as they lie.
    pub fn into_words(self) -> Vec<u32>
        ensures { result.items ≡ words_in self }
    {
        self.groups.into_words()
    }

    // Whether a call may name `page`.
    #[tactic(auto, using(crate::proofs::Answered::calls), unfolding(page_store::specs::Refusals::answer))]
    fn check(&self, page: u32) -> Result<(), StoreRefusal>
        ensures { result ≡ answer (pages_in self.now) page }
    {
        if page >= self.groups.size() {
            Err(StoreRefusal::OutOfRange)
        } else if !self.groups.is_held(page) {
            Err(StoreRefusal::NotHeld)
        } else {
            Ok(())
        }
    }

    // Takes the page that was given back last.
    fn take_listed(&mut self) -> u32
        requires { 0 < self.old.listed }
        ensures took { Took (pages_in self.old) (pages_in self.new) zeros result }
        ensures past { words_past self.new ≡ words_past self.old }
    {
        let page = self.head;
        self.head = self.groups.next_listed(page);
        self.listed -= 1;
        self.groups.hold(page);
        page
    }

    // Takes the first page that has not been taken yet.
    fn take_fresh(&mut self) -> u32
        requires { self.old.fresh < self.old.groups.size }
        ensures took { Took (pages_in self.old) (pages_in self.new) zeros result }
        ensures past { words_past self.new ≡ words_past self.old }
    {
        let page = self.fresh;
        self.fresh += 1;
        self.groups.hold(page);
        page
    }
}

// Beyond what the interface asks, each call says that the words past the last page stay as they are, and `read` that all do.
impl PageStore for ArrayStore {
    ghost meaning = { pages_in };

    ghost few = { λ s. few_pages (words_in s) s.groups.size s.few };

    ghost whole = { λ s p w e. whole_pages s.groups.words s.groups.size p w s.groups.room e };

    fn size(&self) -> u32 {
        self.groups.size()
    }

    fn free_count(&self) -> u32 {
        self.listed + (self.groups.size() - self.fresh)
    }

    fn take(&mut self) -> Result<u32, StoreRefusal>
        ensures takes { Takes (pages_in self.old) (pages_in self.new) zeros result }
        ensures past { words_past self.new ≡ words_past self.old }
    {
        if self.listed > 0 {
            Ok(self.take_listed())
        } else if self.fresh < self.groups.size() {
            Ok(self.take_fresh())
        } else {
            Err(StoreRefusal::NoFreePage)
        }
    }

    fn read(&mut self, page: u32, words: &mut [u32; 64]) -> Result<(), StoreRefusal>
        ensures reads { Reads (pages_in self.old) (pages_in self.new) page words.old words.new result }
        ensures words { words_in self.new ≡ words_in self.old }
    {
        self.check(page)?;
        self.groups.fetch(page, words);
        Ok(())
    }

    fn write(&mut self, page: u32, words: &[u32; 64]) -> Result<(), StoreRefusal>
        ensures writes { Writes (pages_in self.old) (pages_in self.new) page words.now result }
        ensures past { words_past self.new ≡ words_past self.old }
    {
        self.check(page)?;
        self.groups.fill(page, words);
        Ok(())
    }

    fn give_back(&mut self, page: u32) -> Result<(), StoreRefusal>
        ensures gives { GivesBack (pages_in self.old) (pages_in self.new) page result }
        ensures past { words_past self.new ≡ words_past self.old }
    {
        self.check(page)?;
        self.groups.release(page, self.head);
        self.head = page;
        self.listed += 1;
        Ok(())
    }
}
