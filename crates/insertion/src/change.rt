ghost use Rattle.std.specs.Prelude.{◌≡◌, None};

use node::Entry;

/// What an insert made of a node: its key, formed anew, and the entry of the node split off, if one was.
#[derive(Clone, Copy)]
pub(crate) struct Change<K> {
    pub key: K,
    pub split_off: Option<Entry<K, u32>>,
}

impl<K> Change<K> {
    pub(crate) fn unsplit(key: K) -> Change<K>
        ensures { result ≡ record { key = key; split_off = None } }
    {
        Change {
            key,
            split_off: None,
        }
    }
}
