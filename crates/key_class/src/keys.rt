// Squeezed keys, seen as the list of the keys.
ghost use Rattle.std.specs.Prelude.{◌≡◌, ◌<◌, ◌↔◌, length, IsSome, IfSome, slice_get};
ghost use Rattle.key_class.specs.Words.{AllKeys, keys_of};

use crate::class::Key;
use std::marker::{Model, PhantomData};

#[derive(Drop)]
pub(crate) struct Keys<'a, K: Key> {
    words: &'a [[u32; 4]],
    of: PhantomData<K>,
}

impl<'a, K: Key> Model for Keys<'a, K> {
    ghost use Rattle.std.specs.Prelude.{List};
    ghost use Rattle.key_class.specs.Words.{AllKeys, keys_of};

    ghost Value = { List K };

    ghost view = { λ a. keys_of K.growing a.words.now };

    ghost invariant = { λ a. AllKeys K.growing a.words.now };
}

impl<'a, K: Key> Keys<'a, K> {
    /// None where the words at some place are no key's.
    pub(crate) fn new(words: &'a [[u32; 4]]) -> Option<Keys<'a, K>>
        ensures some { IsSome result ↔ AllKeys K.growing words.now }
        ensures keys { IfSome result (λ ks. ks ≡ keys_of K.growing words.now) }
    {
        if words.iter().all(|w| K::unsqueeze(w).is_some()) {
            Some(Keys {
                words,
                of: PhantomData,
            })
        } else {
            None
        }
    }

    pub(crate) fn len(&self) -> usize
        ensures { result ≡ length self.now }
    {
        self.words.len()
    }

    pub(crate) fn at(&self, i: usize) -> K
        requires { i < length self.now }
        ensures { slice_get self.now i ≡ Some result }
    {
        let words = self.words;
        match K::unsqueeze(&words[i]) {
            Some(key) => key,
            None => unreachable(),
        }
    }
}
