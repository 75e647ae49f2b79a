ghost use Rattle.std.specs.Prelude.{◌+◌, ◌≤◌};
ghost use Rattle.arrayvec.specs.ArrayVec.{array_vec_len};

use crate::place::Place;
use arrayvec::ArrayVec;
use tree_pages::MOST_LEVELS;

/// The way from the root to the page in hand: a place for each page, the root's first, that in hand last.
///
/// `height` is that of the page in hand above the leaves.
#[derive(Drop)]
pub(crate) struct Way {
    pub(crate) places: ArrayVec<Place, MOST_LEVELS>,
    pub(crate) height: u32,
    ghost seven: { array_vec_len places + height ≤ 7 },
}
