use tree_pages::Root;

/// What an index knows of its tree without a look at the pages.
#[derive(Clone, Copy)]
pub struct Shape {
    /// Where the tree starts; none where it is empty.
    pub(crate) root: Option<Root>,
    /// The last record number given.
    pub(crate) last: u32,
    /// The number of records.
    pub(crate) records: u32,
    /// The pages that were free when the index was made: the tree's, and those that are free now.
    pub(crate) spare: u32,
}
