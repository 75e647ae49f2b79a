ghost use Rattle.std.specs.Prelude.{◌≡◌, ◌≤◌, length, slice_index};

use crate::row::Row;

/// A node in memory, as the 64 words of its page; while it is worked on it may have no entry.
#[derive(Clone, Copy)]
pub struct Node {
    pub(crate) words: [u32; 64],
    ghost long: { length words ≡ 64 },
    ghost few: { slice_index words 1 ≤ 12 },
}

/// Up to 15 entries that are to be shared out between two nodes.
///
/// An array and a count, and no `ArrayVec`, so that a pool can be copied as a node can.
#[derive(Clone, Copy)]
pub struct Pool {
    pub(crate) rows: [Row; Pool::CAPACITY],
    pub(crate) count: usize,
    ghost few: { count ≤ 15 },
}

impl Node {
    /// The most entries that a page has.
    pub const CAPACITY: usize = 12;
}

impl Pool {
    pub(crate) const CAPACITY: usize = 15;
}
