ghost use Rattle.std.specs.Prelude.{◌≡◌, ℕ, List};
ghost use Rattle.std.specs.Option.{option_map};
ghost use Rattle.node.specs.Nodes.{Entry, node_words, without};
ghost use Rattle.node.specs.InMemory.{words_in, Stands};
ghost use Rattle.gist.specs.Remove.{is_record, without_first};

use key_class::Key;
use node::{Entry, Node};

// Whether an entry has this number and these key words.
fn is_record<K: Key>(entry: &Entry<K, u32>, number: u32, words: &[u32; 4]) -> bool
    ensures { (k : K) → words.now ≡ K.growing.squeeze k → result ≡ is_record K.growing k number entry.now }
{
    entry.link == number && entry.key.squeeze() == *words
}

// The place of the first entry with this number and these key words.
fn place_of<K: Key>(leaf: &Node, entry: &Entry<K, u32>) -> Option<usize>
    ensures { (level : ℕ) (es : List (Entry K ℕ)) → Stands K.growing leaf.now level es
        → option_map (without es) result ≡ without_first (is_record K.growing entry.now.key entry.now.link) es }
{
    let words = entry.key.squeeze();
    (0..leaf.count()).find(|&i| {
        leaf.entry::<K>(i)
            .is_some_and(|other| is_record(&other, entry.link, &words))
    })
}

// Takes the record out of a leaf; none where the leaf has none.
pub(crate) fn take_out<K: Key>(mut leaf: Node, entry: &Entry<K, u32>) -> Option<Node>
    ensures { (level : ℕ) (es : List (Entry K ℕ)) → Stands K.growing leaf level es
        → option_map words_in result ≡ option_map (node_words K.growing level) (without_first (is_record K.growing entry.now.key entry.now.link) es) }
{
    let place = place_of(&leaf, entry)?;
    leaf.remove::<K>(place);
    Some(leaf)
}
