ghost use Rattle.index.specs.Standing.{HasTree};

use crate::shape::Shape;
use key_class::KeyClass;
use page_store::PageStore;
use std::marker::PhantomData;

/// Records, each a key and a number, in a tree on the pages of a store.
///
/// It is neither copied nor let go: `dismantle` hands the store back.
pub struct Index<K: KeyClass, S: PageStore> {
    pub(crate) store: S,
    pub(crate) shape: Shape,
    pub(crate) keys: PhantomData<K>,
    ghost stands: { ∥ HasTree K.class.growing (S.meaning store) shape ∥₁ },
}
