// An entry as it stands on a page.
ghost use Rattle.std.specs.Prelude.{◌≡◌, ◌+◌, ◌*◌, ◌≤◌, take};
ghost use Rattle.node.specs.Nodes.{entry_words};
ghost use Rattle.node.specs.Reading.{count_in, rows, entry_in};

use crate::entry::Entry;
use key_class::Key;

// The words before the first entry.
const HEAD: usize = 4;

// The words of an entry.
pub(crate) const ROW: usize = 5;

// The four words of a key, and a link.
pub(crate) type Row = [u32; ROW];

// Where entry `i` begins.
pub(crate) fn start(i: usize) -> usize
    requires { i ≤ 12 }
    ensures { result ≡ 4 + 5 * i }
{
    HEAD + ROW * i
}

// The entries of a page.
pub(crate) fn rows(words: &[u32; 64]) -> &[Row]
    requires { count_in words.now ≤ 12 }
    ensures { result.now ≡ rows words.now }
{
    let (rows, _) = words[HEAD..].as_chunks();
    &rows[..words[1] as usize]
}

pub(crate) fn key_words(row: Row) -> [u32; 4]
    ensures { result ≡ take 4 row }
{
    let [a, b, c, d, _] = row;
    [a, b, c, d]
}

pub(crate) fn squeezed<K: Key>(entry: &Entry<K, u32>) -> Row
    ensures { result ≡ entry_words K.growing entry.now }
{
    let [a, b, c, d] = entry.key.squeeze();
    [a, b, c, d, entry.link]
}

// None where the words are no key's.
pub(crate) fn unsqueezed<K: Key>(row: &Row) -> Option<Entry<K, u32>>
    ensures { result ≡ entry_in K.growing row.now }
{
    Some(Entry {
        key: K::unsqueeze(&key_words(*row))?,
        link: row[4],
    })
}
