// Sets, word by word.
ghost use Rattle.std.specs.Prelude.{◌≡◌, not, ◌&&◌, ◌||◌};
ghost use Rattle.key_class.specs.Words.{of_four};
ghost use Rattle.member_sets.specs.Members.{bit, all_below, some_below, count_below, has_member, contains, shares, lacking};
ghost use Rattle.member_sets.specs.Joining.{members_of, words_of, either};

use crate::members::Members;

// Whether all bits of `b` are in `a`.
fn bits_in(a: u32, b: u32) -> bool
    ensures { result ≡ all_below 32 (λ i. not (bit b i) || bit a i) }
{
    a & b == b
}

// Whether `a` and `b` have a bit in common.
fn bits_meet(a: u32, b: u32) -> bool
    ensures { result ≡ some_below 32 (λ i. bit a i && bit b i) }
{
    a & b != 0
}

// How many bits of `b` are not in `a`.
fn bits_lacking(a: u32, b: u32) -> u32
    ensures { result ≡ count_below 32 (λ i. bit b i && not (bit a i)) }
{
    (b & !a).count_ones()
}

impl From<[u32; 4]> for Members {
    ghost from_gives = { λ words result. result ≡ of_four members_of words };

    fn from(words: [u32; 4]) -> Members {
        let [w0, w1, w2, w3] = words;
        Members { w0, w1, w2, w3 }
    }
}

impl From<Members> for [u32; 4] {
    ghost from_gives = { λ set result. result ≡ words_of set };

    fn from(set: Members) -> [u32; 4] {
        [set.w0, set.w1, set.w2, set.w3]
    }
}

impl Members {
    /// Whether the set has no member.
    pub fn is_empty(&self) -> bool
        ensures { result ≡ not (has_member self.now) }
    {
        let Members { w0, w1, w2, w3 } = *self;
        w0 == 0 && w1 == 0 && w2 == 0 && w3 == 0
    }

    /// Whether every member of `other` is one of this set.
    pub fn contains(&self, other: &Members) -> bool
        ensures { result ≡ contains self.now other.now }
    {
        bits_in(self.w0, other.w0)
            && bits_in(self.w1, other.w1)
            && bits_in(self.w2, other.w2)
            && bits_in(self.w3, other.w3)
    }

    /// Whether the two sets have a member in common.
    pub fn shares(&self, other: &Members) -> bool
        ensures { result ≡ shares self.now other.now }
    {
        bits_meet(self.w0, other.w0)
            || bits_meet(self.w1, other.w1)
            || bits_meet(self.w2, other.w2)
            || bits_meet(self.w3, other.w3)
    }

    /// The members of either.
    pub fn either(&self, other: &Members) -> Members
        ensures { result ≡ either self.now other.now }
    {
        Members {
            w0: self.w0 | other.w0,
            w1: self.w1 | other.w1,
            w2: self.w2 | other.w2,
            w3: self.w3 | other.w3,
        }
    }

    /// How many members of `other` this set lacks.
    pub fn lacking(&self, other: &Members) -> u32
        ensures { result ≡ lacking self.now other.now }
    {
        bits_lacking(self.w0, other.w0)
            + bits_lacking(self.w1, other.w1)
            + bits_lacking(self.w2, other.w2)
            + bits_lacking(self.w3, other.w3)
    }
}
