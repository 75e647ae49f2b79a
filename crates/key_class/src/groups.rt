// What the quadratic split keeps in hand.
ghost use Rattle.std.specs.Prelude.{◌≡◌, ◌+◌, ◌<◌, ◌≤◌};
ghost use Rattle.key_class.specs.Quadratic.{worse, one_more, begun, size, goes_next, placed};

use crate::class::Key;

/// Two places, and the larger growth of the keys there, of the one for the other.
#[derive(Clone, Copy)]
pub(crate) struct Seeds {
    pub first: usize,
    pub second: usize,
    pub growth: u64,
}

/// The union of a group's keys, and how many they are.
#[derive(Clone, Copy)]
pub(crate) struct Group<K> {
    pub union: K,
    pub count: usize,
}

/// The two groups, and how many keys are in neither yet.
#[derive(Clone, Copy)]
pub(crate) struct Groups<K> {
    pub stay: Group<K>,
    pub go: Group<K>,
    pub left: usize,
}

impl Seeds {
    /// The worse of the two, and of two that are as bad the first.
    pub(crate) fn worse(self, later: Seeds) -> Seeds
        ensures { result ≡ worse self later }
    {
        if later.growth > self.growth {
            later
        } else {
            self
        }
    }
}

impl<K: Key> Group<K> {
    fn add(&mut self, key: &K)
        requires { self.old.count ≤ 15 }
        ensures { self.new ≡ one_more K.growing self.old key.now }
    {
        self.union = self.union.union(key);
        self.count += 1;
    }
}

impl<K: Key> Groups<K> {
    /// The groups of `n` keys as two seeds begin them.
    pub(crate) fn new(stay: K, go: K, n: usize) -> Groups<K>
        requires { 2 ≤ n }
        ensures { result ≡ begun stay go n }
    {
        Groups {
            stay: Group {
                union: stay,
                count: 1,
            },
            go: Group {
                union: go,
                count: 1,
            },
            left: n - 2,
        }
    }

    // Whether the next key goes.
    fn goes_next(&self, key: &K) -> bool
        requires { size self.now ≤ 15 }
        ensures { result ≡ goes_next K.growing self.now key.now }
    {
        if self.stay.count + self.left == 4 {
            return false;
        }
        if self.go.count + self.left == 4 {
            return true;
        }
        let stay_grows = self.stay.union.growth(key);
        let go_grows = self.go.union.growth(key);
        (go_grows, self.go.count) < (stay_grows, self.stay.count)
    }

    /// Puts the next key into its group, and tells whether it goes.
    pub(crate) fn place(&mut self, key: &K) -> bool
        requires few { size self.old ≤ 15 }
        requires some { 0 < self.old.left }
        ensures goes { result ≡ goes_next K.growing self.old key.now }
        ensures groups { self.new ≡ placed K.growing self.old key.now result }
    {
        let goes = self.goes_next(key);
        if goes {
            self.go.add(key);
        } else {
            self.stay.add(key);
        }
        self.left -= 1;
        goes
    }
}
