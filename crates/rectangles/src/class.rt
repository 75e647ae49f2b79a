ghost use Rattle.std.specs.Prelude.{◌≡◌, ◌↔◌, true, IsTrue, refl};
ghost use Rattle.std.specs.Result.{result_map_both};
ghost use Rattle.key_class.specs.Words.{of_four};
ghost use Rattle.rectangles.specs.Rectangles.{covers, meets, holds_point, union, area, matches, read_rectangle, read_point, rectangle_growing, rectangle_class};
ghost use Rattle.rectangles.specs.Points.{Contains, Fulfils};
ghost use Rattle.rectangles.specs.declared.rectangle.RectangleQuery.TheVariants.{Meets, Inside};
ghost use Rattle.rectangles.specs.Laws.{rectangle_coded, covers_itself, covers_through, union_first, union_second, holds_match, holds_above};
ghost use Rattle.key_class.proofs.Sharing.{quadratic_shares};

use crate::rectangle::{Rectangle, RectangleQuery};
use key_class::{Key, KeyClass, KeyRefusal, Span, check_unused, quadratic_split};

/// From the words for left, bottom, right and top, in two's complement.
impl TryFrom<[u32; 4]> for Rectangle {
    type Error = KeyRefusal;

    ghost try_from_gives = { λ words result. result ≡ of_four read_rectangle words };

    fn try_from(words: [u32; 4]) -> Result<Rectangle, KeyRefusal> {
        let [left, bottom, right, top] = words;
        let left = left.cast_signed();
        let bottom = bottom.cast_signed();
        let right = right.cast_signed();
        let top = top.cast_signed();
        if left > right {
            return Err(KeyRefusal::LowAboveHigh(0));
        }
        if bottom > top {
            return Err(KeyRefusal::LowAboveHigh(1));
        }
        Ok(Rectangle {
            left,
            bottom,
            right,
            top,
        })
    }
}

impl Rectangle {
    fn across(&self) -> Span<i32>
        ensures { result ≡ record { low = self.now.left; high = self.now.right } }
    {
        Span {
            low: self.left,
            high: self.right,
        }
    }

    fn upward(&self) -> Span<i32>
        ensures { result ≡ record { low = self.now.bottom; high = self.now.top } }
    {
        Span {
            low: self.bottom,
            high: self.top,
        }
    }

    fn contains(&self, other: &Rectangle) -> bool
        ensures { result ≡ covers self.now other.now }
    {
        self.across().contains(&other.across()) && self.upward().contains(&other.upward())
    }

    fn meets(&self, other: &Rectangle) -> bool
        ensures { result ≡ meets self.now other.now }
    {
        self.across().meets(&other.across()) && self.upward().meets(&other.upward())
    }

    fn holds_point(&self, x: i32, y: i32) -> bool
        ensures { result ≡ holds_point self.now x y }
    {
        self.across().holds(&x) && self.upward().holds(&y)
    }

    fn area(&self) -> u64
        ensures { result ≡ area self.now }
    {
        let width = self.right.abs_diff(self.left) as u64;
        let height = self.top.abs_diff(self.bottom) as u64;
        width * height
    }
}

impl RectangleQuery {
    /// Which rectangles share a point with this one?
    pub fn meets(words: &[u32; 4]) -> Result<RectangleQuery, KeyRefusal>
        ensures { result ≡ result_map_both Meets (λ e. e) (of_four read_rectangle words.now) }
    {
        Ok(RectangleQuery::Meets(Rectangle::try_from(*words)?))
    }

    /// Which rectangles lie in this one?
    pub fn inside(words: &[u32; 4]) -> Result<RectangleQuery, KeyRefusal>
        ensures { result ≡ result_map_both Inside (λ e. e) (of_four read_rectangle words.now) }
    {
        Ok(RectangleQuery::Inside(Rectangle::try_from(*words)?))
    }

    /// Which rectangles hold the point whose words across and up come first? The other two words are not used.
    pub fn holds_point(words: &[u32; 4]) -> Result<RectangleQuery, KeyRefusal>
        ensures { result ≡ of_four read_point words.now }
    {
        check_unused(words[2], words[3])?;
        Ok(RectangleQuery::HoldsPoint(words[0].cast_signed(), words[1].cast_signed()))
    }
}

impl Key for Rectangle {
    ghost growing = { rectangle_growing };

    ghost coded = { rectangle_coded };

    // Beyond the interface: whatever covers both covers the union.
    fn union(&self, other: &Rectangle) -> Rectangle
        ensures value { result ≡ union self.now other.now }
        ensures least { (u : Rectangle) → covers u self.now ≡ true → covers u other.now ≡ true → covers u result ≡ true }
    {
        Rectangle {
            left: self.left.min(other.left),
            bottom: self.bottom.min(other.bottom),
            right: self.right.max(other.right),
            top: self.top.max(other.top),
        }
    }

    fn growth(&self, other: &Rectangle) -> u64 {
        self.union(other).area() - self.area()
    }

    fn squeeze(&self) -> [u32; 4] {
        [
            self.left.cast_unsigned(),
            self.bottom.cast_unsigned(),
            self.right.cast_unsigned(),
            self.top.cast_unsigned(),
        ]
    }

    fn unsqueeze(words: &[u32; 4]) -> Option<Rectangle> {
        Rectangle::try_from(*words).ok()
    }
}

// Beyond the interface: what covering and matching mean of the points.
impl KeyClass for Rectangle {
    type Query = RectangleQuery;

    ghost class = { rectangle_class };

    ghost tied = { refl };

    ghost lawful = { record {
      covers_itself = covers_itself;
      covers_through = covers_through;
      union_covers_first = union_first;
      union_covers_second = union_second;
      may_hold_a_match = holds_match;
      may_hold_above = holds_above;
      splits = quadratic_shares rectangle_growing;
    } };

    fn covers(&self, other: &Rectangle) -> bool
        ensures value { result ≡ covers self.now other.now }
        ensures points { IsTrue result ↔ Contains self.now other.now }
    {
        self.contains(other)
    }

    fn matches(&self, query: &RectangleQuery) -> bool
        ensures value { result ≡ matches self.now query.now }
        ensures points { IsTrue result ↔ Fulfils self.now query.now }
    {
        match query {
            RectangleQuery::Meets(q) => self.meets(q),
            RectangleQuery::Inside(q) => q.contains(self),
            RectangleQuery::HoldsPoint(x, y) => self.holds_point(*x, *y),
        }
    }

    fn may_hold(&self, query: &RectangleQuery) -> bool {
        match query {
            RectangleQuery::Meets(q) => self.meets(q),
            RectangleQuery::Inside(q) => self.meets(q),
            RectangleQuery::HoldsPoint(x, y) => self.holds_point(*x, *y),
        }
    }

    fn pick_split(words: &[[u32; 4]]) -> [bool; 15] {
        quadratic_split::<Rectangle>(words)
    }
}
