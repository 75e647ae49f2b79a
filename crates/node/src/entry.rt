/// A key, with a record number on a leaf or a child's page above.
#[derive(Clone, Copy, PartialEq, Eq, Debug)]
pub struct Entry<K, L> {
    pub key: K,
    pub link: L,
}
