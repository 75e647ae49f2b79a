ghost use Rattle.std.specs.Prelude.{◌≡◌, length};
ghost use Rattle.page_cache.specs.Slots.{Apart, Whole};

use crate::slot::{Slot, SlotNumber};

/// The pages that a cache keeps, and the slot whose turn it is to be reused.
#[derive(Drop)]
pub struct Table {
    // None is an empty slot.
    pub(crate) slots: [Option<Slot>; 4],
    pub(crate) turn: SlotNumber,
    ghost four: { length slots ≡ 4 },
    ghost apart: { Apart slots },
    ghost whole: { Whole slots },
}
