/// Where a tree with a page starts: the page of its root, and how many levels it has.
#[derive(Clone, Copy, PartialEq, Eq, Debug)]
pub struct Root {
    pub page: u32,
    pub levels: u32,
}
