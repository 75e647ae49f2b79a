ghost use Rattle.std.specs.Prelude.{◌≡◌, ◌+◌, ◌%◌, ◌<◌};

/// A page that a slot keeps.
#[derive(Clone, Copy)]
pub struct Slot {
    pub(crate) page: u32,
    // Whether the words have yet to be written below. If not, the store below has the same.
    pub(crate) changed: bool,
    pub(crate) words: [u32; 64],
}

/// The number of a slot.
#[derive(Clone, Copy)]
pub(crate) struct SlotNumber {
    pub(crate) index: usize,
    ghost within: { index < 4 },
}

impl SlotNumber {
    // In order.
    pub(crate) const ALL: [SlotNumber; 4] = [
        SlotNumber { index: 0 },
        SlotNumber { index: 1 },
        SlotNumber { index: 2 },
        SlotNumber { index: 3 },
    ];

    // The slot whose turn comes after this one's.
    pub(crate) fn next(self) -> SlotNumber
        ensures { result.index ≡ (self.index + 1) % 4 }
    {
        SlotNumber {
            index: (self.index + 1) % 4,
        }
    }
}
