ghost use Rattle.std.specs.Prelude.{◌≡◌, ◌↔◌, true, IsTrue, refl};
ghost use Rattle.std.specs.Result.{result_map_both};
ghost use Rattle.key_class.specs.Words.{of_four};
ghost use Rattle.intervals.specs.Intervals.{covers, meets, matches, union, read_interval, interval_growing, interval_class};
ghost use Rattle.intervals.specs.Points.{Contains, Fulfils};
ghost use Rattle.intervals.specs.declared.interval.IntervalQuery.TheVariants.{Meets, Inside};
ghost use Rattle.intervals.specs.Laws.{interval_coded, covers_itself, covers_through, union_first, union_second, holds_match, holds_above};
ghost use Rattle.intervals.specs.Ranking.{split_shares};

use crate::interval::{Interval, IntervalQuery};
use crate::ranks::split_by_rank;
use key_class::{Key, KeyClass, KeyRefusal, Span, check_unused};

/// From a low word to a high one; the other two words are not used.
impl TryFrom<[u32; 4]> for Interval {
    type Error = KeyRefusal;

    ghost try_from_gives = { λ words result. result ≡ of_four read_interval words };

    fn try_from(words: [u32; 4]) -> Result<Interval, KeyRefusal> {
        let [low, high, third, fourth] = words;
        if low > high {
            return Err(KeyRefusal::LowAboveHigh(0));
        }
        check_unused(third, fourth)?;
        Ok(Interval { low, high })
    }
}

impl Interval {
    fn span(&self) -> Span<u32>
        ensures { result ≡ record { low = self.now.low; high = self.now.high } }
    {
        Span {
            low: self.low,
            high: self.high,
        }
    }

    fn contains(&self, other: &Interval) -> bool
        ensures { result ≡ covers self.now other.now }
    {
        self.span().contains(&other.span())
    }

    fn meets(&self, other: &Interval) -> bool
        ensures { result ≡ meets self.now other.now }
    {
        self.span().meets(&other.span())
    }
}

impl IntervalQuery {
    /// Which intervals share a point with this one?
    pub fn meets(words: &[u32; 4]) -> Result<IntervalQuery, KeyRefusal>
        ensures { result ≡ result_map_both Meets (λ e. e) (of_four read_interval words.now) }
    {
        Ok(IntervalQuery::Meets(Interval::try_from(*words)?))
    }

    /// Which intervals lie in this one?
    pub fn inside(words: &[u32; 4]) -> Result<IntervalQuery, KeyRefusal>
        ensures { result ≡ result_map_both Inside (λ e. e) (of_four read_interval words.now) }
    {
        Ok(IntervalQuery::Inside(Interval::try_from(*words)?))
    }
}

impl Key for Interval {
    ghost growing = { interval_growing };

    ghost coded = { interval_coded };

    // Beyond the interface: whatever covers both covers the union.
    fn union(&self, other: &Interval) -> Interval
        ensures value { result ≡ union self.now other.now }
        ensures least { (u : Interval) → covers u self.now ≡ true → covers u other.now ≡ true → covers u result ≡ true }
    {
        Interval {
            low: self.low.min(other.low),
            high: self.high.max(other.high),
        }
    }

    fn growth(&self, other: &Interval) -> u64 {
        let union = self.union(other);
        u64::from(union.high - union.low) - u64::from(self.high - self.low)
    }

    fn squeeze(&self) -> [u32; 4] {
        [self.low, self.high, 0, 0]
    }

    fn unsqueeze(words: &[u32; 4]) -> Option<Interval> {
        Interval::try_from(*words).ok()
    }
}

// Each class answers the interface in its own words, so the three implementations look alike.
// Beyond the interface: what covering and matching mean of the points.
impl KeyClass for Interval {
    type Query = IntervalQuery;

    ghost class = { interval_class };

    ghost tied = { refl };

    ghost lawful = { record {
      covers_itself = covers_itself;
      covers_through = covers_through;
      union_covers_first = union_first;
      union_covers_second = union_second;
      may_hold_a_match = holds_match;
      may_hold_above = holds_above;
      splits = split_shares;
    } };

    fn covers(&self, other: &Interval) -> bool
        ensures value { result ≡ covers self.now other.now }
        ensures points { IsTrue result ↔ Contains self.now other.now }
    {
        self.contains(other)
    }

    fn matches(&self, query: &IntervalQuery) -> bool
        ensures value { result ≡ matches self.now query.now }
        ensures points { IsTrue result ↔ Fulfils self.now query.now }
    {
        match query {
            IntervalQuery::Meets(q) => self.meets(q),
            IntervalQuery::Inside(q) => q.contains(self),
        }
    }

    fn may_hold(&self, query: &IntervalQuery) -> bool {
        match query {
            IntervalQuery::Meets(q) => self.meets(q),
            IntervalQuery::Inside(q) => self.meets(q),
        }
    }

    fn pick_split(words: &[[u32; 4]]) -> [bool; 15] {
        if words.len() > 15 {
            return [false; 15];
        }
        split_by_rank(words)
    }
}
