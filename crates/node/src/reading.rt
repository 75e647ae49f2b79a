ghost use Rattle.std.specs.Prelude.{◌≡◌, ℕ, ◌≤◌, true, List, is_ok, IfOk, if◌then◌else◌, Some, None, nat_le, nat_eq};
ghost use Rattle.std.specs.List.{list_all};
ghost use Rattle.std.specs.Option.{option_map};
ghost use Rattle.std.specs.Result.{result_err};
ghost use Rattle.node.specs.Nodes.{Entry, IsNode, node_words, link_fits};
ghost use Rattle.node.specs.Reading.{level_in, count_in, rows, rest_is_zero, keys_fit, links_fit, refusal_of, entries_in};
ghost use Rattle.node.specs.InMemory.{words_in, Stands};

use crate::memory::Node;
use crate::refusal::NodeRefusal;
use crate::row::{key_words, rows, start};
use key_class::Key;

// What is asked of words that are no node yet; that there are at most 12 entries is asked first.
fn are_zero(words: &[u32]) -> bool
    ensures { result ≡ list_all (λ x. nat_eq x 0) words.now }
{
    words.iter().all(|word| *word == 0)
}

// Whether words 2 and 3 and those of unused entries are zero.
fn rest_is_zero(words: &[u32; 64]) -> bool
    requires { count_in words.now ≤ 12 }
    ensures { result ≡ rest_is_zero words.now }
{
    words[2] == 0 && words[3] == 0 && are_zero(&words[start(words[1] as usize)..])
}

// Whether the key words of each entry are a key's.
fn keys_fit<K: Key>(words: &[u32; 64]) -> bool
    requires { count_in words.now ≤ 12 }
    ensures { result ≡ keys_fit K.growing words.now }
{
    rows(words)
        .iter()
        .all(|row| K::unsqueeze(&key_words(*row)).is_some())
}

// Whether a link on a page of this level is a record number, on a leaf, or a page number, above.
fn link_fits(level: u32, link: u32) -> bool
    ensures { result ≡ link_fits level link }
{
    if level == 1 { link > 0 } else { link < 4096 }
}

// Whether each link fits the level.
fn links_fit(words: &[u32; 64]) -> bool
    requires { count_in words.now ≤ 12 }
    ensures { result ≡ links_fit words.now }
{
    rows(words)
        .iter()
        .all(|[.., link]| link_fits(words[0], *link))
}

// The first question that has a no.
fn check<K: Key>(words: &[u32; 64]) -> Result<(), NodeRefusal>
    ensures { result_err result ≡ refusal_of K.growing words.now }
{
    if !(1..=7).contains(&words[0]) {
        Err(NodeRefusal::BadLevel)
    } else if !(1..=Node::CAPACITY).contains(&(words[1] as usize)) {
        Err(NodeRefusal::BadCount)
    } else if !rest_is_zero(words) {
        Err(NodeRefusal::NotZero)
    } else if !keys_fit::<K>(words) {
        Err(NodeRefusal::BadKey)
    } else if !links_fit(words) {
        Err(NodeRefusal::BadLink)
    } else {
        Ok(())
    }
}

impl Node {
    /// The node that the words of a page are, or why they are none.
    pub fn read<K: Key>(words: &[u32; 64]) -> Result<Node, NodeRefusal>
        ensures refusal { result_err result ≡ refusal_of K.growing words.now }
        ensures words { IfOk result (λ n. words_in n ≡ words.now) }
        ensures node { IfOk result (λ n. IsNode (level_in words.now) (entries_in K.growing (rows words.now)) × Stands K.growing n (level_in words.now) (entries_in K.growing (rows words.now))) }
        ensures written { (level : ℕ) (es : List (Entry K ℕ)) → IsNode level es → words.now ≡ node_words K.growing level es → (is_ok result ≡ true) × (entries_in K.growing (rows words.now) ≡ es) }
    {
        check::<K>(words)?;
        Ok(Node { words: *words })
    }

    /// The words of a page that was written from a node, with no look at its entries; none where there would be more than 12.
    pub fn adopt(words: [u32; 64]) -> Option<Node>
        ensures { option_map words_in result ≡ (if nat_le (count_in words) 12 then Some words else None) }
    {
        if words[1] as usize > Node::CAPACITY {
            return None;
        }
        Some(Node { words })
    }
}
