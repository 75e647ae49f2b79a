ghost use Rattle.std.specs.Prelude.{◌≡◌, ℕ, ◌<◌, true, false, None, Some, is_ok, if◌then◌else◌, slice_set};
ghost use Rattle.page_store.specs.Pages.{zeros};
ghost use Rattle.page_store.specs.Calls.{Takes, Reads, Writes, GivesBack};
ghost use Rattle.page_cache.specs.Slots.{slot_at, kept_in};
ghost use Rattle.page_cache.specs.Policy.{new_table, clean, replaced, filled, after_read, after_write, after_give_back};
ghost use Rattle.page_cache.specs.Over.{Fair};
ghost use Rattle.page_cache.specs.Cached.{cached, places_in};
ghost use Rattle.page_cache.specs.Laws.{few_over, whole_over};

use crate::cache::Cache;
use crate::slot::{Slot, SlotNumber};
use crate::table::Table;
use page_store::{PageStore, StoreRefusal};

impl<S: PageStore> Cache<S> {
    /// A cache over `below`, which is out of reach until the cache is ended.
    pub fn new(below: S) -> Cache<S>
        ensures pages { cached result ≡ S.meaning below }
        ensures table { places_in result ≡ new_table }
    {
        Cache {
            below,
            table: Table::new(),
        }
    }

    // Writes below what a slot keeps, if it is changed.
    fn flush(&mut self, number: SlotNumber)
        ensures pages { cached self.new ≡ cached self.old }
        ensures table { places_in self.new ≡ replaced (places_in self.old) number.index (clean (slot_at self.old.table.slots number.index)) }
    {
        let Some(slot) = self.table.changed(number) else {
            return;
        };
        if self.below.write(slot.page, &slot.words).is_ok() {
            self.table.mark_clean(number);
        }
    }

    // Keeps a page that no slot keeps.
    fn keep(&mut self, slot: Slot)
        requires unkept { kept_in self.old.table.slots slot.page ≡ None }
        requires fair { Fair (cached self.old) slot }
        ensures pages { cached self.new ≡ slice_set (cached self.old) slot.page (Some slot.words) }
        ensures table { places_in self.new ≡ filled (places_in self.old) slot }
    {
        let chosen = self.table.choose();
        self.flush(chosen);
        self.table.put(chosen, slot);
    }

    /// Writes what is changed below, and hands back the store below.
    pub fn end(mut self) -> S
        ensures { S.meaning result ≡ cached self }
    {
        for number in SlotNumber::ALL {
            self.flush(number);
        }
        let Cache { below, table: _ } = self;
        below
    }
}

impl<S: PageStore> PageStore for Cache<S> {
    ghost meaning = { cached };

    ghost few = { λ s. few_over (S.meaning s.below) (kept_in s.table.slots) (S.few s.below) };

    ghost whole = { λ s p w. whole_over (S.meaning s.below) s.table.slots p w s.table.whole (λ v. S.whole s.below p v) };

    fn size(&self) -> u32 {
        self.below.size()
    }

    fn free_count(&self) -> u32 {
        self.below.free_count()
    }

    fn take(&mut self) -> Result<u32, StoreRefusal>
        ensures takes { Takes (cached self.old) (cached self.new) zeros result }
        ensures table { places_in self.new ≡ places_in self.old }
    {
        self.below.take()
    }

    fn read(&mut self, page: u32, words: &mut [u32; 64]) -> Result<(), StoreRefusal>
        ensures reads { Reads (cached self.old) (cached self.new) page words.old words.new result }
        ensures table { places_in self.new ≡ (if is_ok result then after_read (places_in self.old) page words.new else places_in self.old) }
    {
        if let Some(kept) = self.table.words(page) {
            *words = *kept;
            return Ok(());
        }
        self.below.read(page, words)?;
        self.keep(Slot {
            page,
            changed: false,
            words: *words,
        });
        Ok(())
    }

    fn write(&mut self, page: u32, words: &[u32; 64]) -> Result<(), StoreRefusal>
        ensures writes { Writes (cached self.old) (cached self.new) page words.now result }
        ensures table { places_in self.new ≡ (if is_ok result then after_write (places_in self.old) page words.now else places_in self.old) }
    {
        // The slot is made where it is put: a write that is refused copies no page.
        if let Some(number) = self.table.find(page) {
            let slot = Slot {
                page,
                changed: true,
                words: *words,
            };
            self.table.put(number, slot);
            return Ok(());
        }
        // Only the store below knows whether the page is held.
        self.below.read(page, &mut [0; 64])?;
        self.keep(Slot {
            page,
            changed: true,
            words: *words,
        });
        Ok(())
    }

    fn give_back(&mut self, page: u32) -> Result<(), StoreRefusal>
        ensures gives { GivesBack (cached self.old) (cached self.new) page result }
        ensures table { places_in self.new ≡ (if is_ok result then after_give_back (places_in self.old) page else places_in self.old) }
    {
        self.below.give_back(page)?;
        self.table.forget(page);
        Ok(())
    }
}
