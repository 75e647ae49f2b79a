ghost use Rattle.std.specs.Prelude.{◌≡◌, ℕ, ◌≤◌, length, Some};
ghost use Rattle.page_store.specs.Pages.{Pages, Words, at, free_pages, zeros};
ghost use Rattle.page_store.specs.Calls.{Takes, Reads, Writes, GivesBack};

use crate::refusal::StoreRefusal;

/// Numbered pages of 64 words.
///
/// `meaning` is all that callers know of a store. A rule of the store's own belongs into its type, as ghost fields: the
/// making sets it up, and each call keeps it.
pub trait PageStore {
    ghost meaning: { Self → Pages };

    /// The number of pages.
    fn size(&self) -> u32
        ensures { result ≡ length (meaning self.now) };

    /// The number of free pages.
    fn free_count(&self) -> u32
        ensures { result ≡ free_pages (meaning self.now) };

    /// Makes a free page held, all its words zero.
    fn take(&mut self) -> Result<u32, StoreRefusal>
        ensures { Takes (meaning self.old) (meaning self.new) zeros result };

    /// Fills `words` from a held page. A store may keep what it read, so `self` is lent to it whole.
    fn read(&mut self, page: u32, words: &mut [u32; 64]) -> Result<(), StoreRefusal>
        ensures { Reads (meaning self.old) (meaning self.new) page words.old words.new result };

    /// Replaces the words of a held page.
    fn write(&mut self, page: u32, words: &[u32; 64]) -> Result<(), StoreRefusal>
        ensures { Writes (meaning self.old) (meaning self.new) page words.now result };

    /// Makes a held page free.
    fn give_back(&mut self, page: u32) -> Result<(), StoreRefusal>
        ensures { GivesBack (meaning self.old) (meaning self.new) page result };

    ghost few: { (s : Self) → length (meaning s) ≤ 4096 };

    ghost whole: { (s : Self) (p : ℕ) (w : Words) → at (meaning s) p ≡ Some w → length w ≡ 64 };
}
