ghost use Rattle.std.specs.Prelude.{◌≡◌, ◌+◌, ◌<◌, ◌≤◌, List, length, take, drop, slice_get, IfSome};
ghost use Rattle.key_class.specs.Class.{Squeezed, Shares, Picks};
ghost use Rattle.key_class.specs.Quadratic.{larger_growth, worst_after, seeds_of, quadratic, FirstWorst, larger_at};

use crate::class::Key;
use crate::groups::{Groups, Seeds};
use crate::keys::Keys;

// The larger growth of two keys, of the one for the other.
fn larger_growth<K: Key>(a: &K, b: &K) -> u64
    ensures { result ≡ larger_growth K.growing a.now b.now }
{
    a.growth(b).max(b.growth(a))
}

impl<'a, K: Key> Keys<'a, K> {
    // The worst pair of the key at `i` and a later one, where it is worse than `worst`.
    fn worst_after(&self, i: usize, mut worst: Seeds) -> Seeds
        requires { i < length self.now }
        ensures { IfSome (slice_get self.now i) (λ a. result ≡ worst_after K.growing a i (i + 1) (drop (i + 1) self.now) worst) }
    {
        let n = self.len();
        let a = self.at(i);
        // By place: the seeds are places, and a key is unsqueezed when its turn comes.
        for j in i + 1..n {
            worst = worst.worse(Seeds {
                first: i,
                second: j,
                growth: larger_growth(&a, &self.at(j)),
            });
        }
        worst
    }

    // The first pair that is worst together.
    fn worst_pair(&self) -> Seeds
        requires { 2 ≤ length self.now }
        ensures value { result ≡ seeds_of K.growing self.now }
        ensures places { (result.first < result.second) × (result.second < length self.now) }
    {
        let mut worst = Seeds {
            first: 0,
            second: 1,
            growth: 0,
        };
        // By place, as above.
        for i in 0..self.len() {
            worst = self.worst_after(i, worst);
        }
        worst
    }

    // Which of two to fifteen keys go.
    fn marks(&self) -> [bool; 15]
        requires { (2 ≤ length self.now) × (length self.now ≤ 15) }
        ensures { take (length self.now) result ≡ quadratic K.growing self.now }
    {
        let n = self.len();
        let seeds = self.worst_pair();
        let mut groups = Groups::new(self.at(seeds.first), self.at(seeds.second), n);
        let mut marks = [false; 15];
        marks[seeds.second] = true;
        // By place: the seeds are passed over.
        for (p, mark) in marks[..n].iter_mut().enumerate() {
            if p != seeds.first && p != seeds.second {
                *mark = groups.place(&self.at(p));
            }
        }
        marks
    }
}

/// Which of 13 to 15 squeezed keys go, by the quadratic split; its seeds are the first worst pair, and four or more
/// keys stay and go.
pub fn quadratic_split<K: Key>(words: &[[u32; 4]]) -> [bool; 15]
    ensures picks { Picks K.growing (quadratic K.growing) words.now result }
    ensures seeds { (d : K) (ks : List K) → Squeezed K.growing ks words.now → 2 ≤ length ks → FirstWorst (larger_at K.growing d ks) (length ks) (seeds_of K.growing ks) }
    ensures shares { (ks : List K) → Squeezed K.growing ks words.now → 13 ≤ length ks → length ks ≤ 15 → Shares (length ks) (quadratic K.growing ks) }
{
    if !(13..=15).contains(&words.len()) {
        return [false; 15];
    }
    let Some(keys) = Keys::<K>::new(words) else {
        return [false; 15];
    };
    keys.marks()
}
