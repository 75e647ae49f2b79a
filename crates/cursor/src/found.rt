/// A record that matches: its number, and its key.
#[derive(Clone, Copy)]
pub struct Found<K> {
    pub number: u32,
    pub key: K,
}
