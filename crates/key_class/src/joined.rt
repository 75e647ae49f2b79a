ghost use Rattle.std.specs.Prelude.{◌≡◌, List};
ghost use Rattle.key_class.specs.Class.{Squeezed};
ghost use Rattle.key_class.specs.Joined.{joined};

use crate::class::Key;

/// The union of squeezed keys, joined from the first to the last; none of no keys, and of words of no key.
pub fn union_of<K: Key>(words: &[[u32; 4]]) -> Option<K>
    ensures { (ks : List K) → Squeezed K.growing ks words.now → result ≡ joined K.growing ks }
{
    let (first, rest) = words.split_first()?;
    let mut union = K::unsqueeze(first)?;
    for word in rest {
        let key = K::unsqueeze(word)?;
        union = union.union(&key);
    }
    Some(union)
}
