ghost use Rattle.std.specs.Prelude.{◌≡◌, ℕ, ◌+◌, ◌%◌, true, false, Some, None, IfSome, IfNone, ◌≢◌};
ghost use Rattle.std.specs.Option.{option_copied};
ghost use Rattle.page_cache.specs.Slots.{keeps, is_changed, slot_at, kept_in};
ghost use Rattle.page_cache.specs.Policy.{slot_of, empty_slot, next_slot, turned, new_table, clean, replaced, after_give_back};
ghost use Rattle.page_cache.specs.Cached.{places, index_of};

use crate::slot::{Slot, SlotNumber};
use crate::table::Table;

impl Table {
    pub(crate) fn new() -> Table
        ensures { places result ≡ new_table }
    {
        Table {
            slots: [None; 4],
            turn: SlotNumber { index: 0 },
        }
    }

    // The slot that keeps `page`.
    pub(crate) fn find(&self, page: u32) -> Option<SlotNumber>
        ensures { index_of result ≡ slot_of (places self.now) page }
    {
        let index = self
            .slots
            .iter()
            .position(|slot| matches!(slot, Some(kept) if kept.page == page))?;
        Some(SlotNumber { index })
    }

    // The lowest empty slot.
    fn find_empty(&self) -> Option<SlotNumber>
        ensures { index_of result ≡ empty_slot (places self.now) }
    {
        let index = self.slots.iter().position(Option::is_none)?;
        Some(SlotNumber { index })
    }

    // The slot to fill next: the lowest empty one, or the one whose turn it is.
    pub(crate) fn choose(&mut self) -> SlotNumber
        ensures slot { result.index ≡ next_slot (places self.old) }
        ensures table { places self.new ≡ turned (places self.old) }
    {
        match self.find_empty() {
            Some(number) => number,
            None => {
                let number = self.turn;
                self.turn = number.next();
                number
            }
        }
    }

    // The words kept of `page`.
    pub(crate) fn words(&self, page: u32) -> Option<&[u32; 64]>
        ensures { option_copied result ≡ kept_in self.now.slots page }
    {
        let number = self.find(page)?;
        self.slots[number.index].as_ref().map(|slot| &slot.words)
    }

    // What a slot keeps, if it has yet to be written below.
    pub(crate) fn changed(&self, number: SlotNumber) -> Option<&Slot>
        ensures none { IfNone result (is_changed (slot_at self.now.slots number.index) ≡ false) }
        ensures some { IfSome result (λ k. (slot_at self.now.slots number.index ≡ Some k.now) × (k.now.changed ≡ true)) }
    {
        self.slots[number.index]
            .as_ref()
            .filter(|slot| slot.changed)
    }

    // Fills a slot with a page that no other slot keeps.
    pub(crate) fn put(&mut self, number: SlotNumber, slot: Slot)
        requires { (j : ℕ) → (j ≢ number.index) → keeps slot.page (slot_at self.old.slots j) ≡ false }
        ensures { places self.new ≡ replaced (places self.old) number.index (Some slot) }
    {
        self.slots[number.index] = Some(slot);
    }

    // Marks what a slot keeps as written below.
    pub(crate) fn mark_clean(&mut self, number: SlotNumber)
        ensures { places self.new ≡ replaced (places self.old) number.index (clean (slot_at self.old.slots number.index)) }
    {
        if let Some(slot) = &mut self.slots[number.index] {
            slot.changed = false;
        }
    }

    // Empties the slot that keeps `page`, if one does.
    pub(crate) fn forget(&mut self, page: u32)
        ensures { places self.new ≡ after_give_back (places self.old) page }
    {
        if let Some(number) = self.find(page) {
            self.slots[number.index] = None;
        }
    }
}
