// Questions by their names: each class has its own, so the three lists look alike.
use intervals::{Interval, IntervalQuery};
use key_class::{KeyClass, KeyRefusal};
use member_sets::{SetKey, SetQuery};
use rectangles::{Rectangle, RectangleQuery};

/// A class whose keys are read from four words, and whose questions have names.
pub trait Asked: KeyClass + TryFrom<[u32; 4], Error = KeyRefusal> {
    /// The question with this name; none where the class has no such question.
    fn question(name: &str, words: &[u32; 4]) -> Option<Result<Self::Query, KeyRefusal>>;
}

impl Asked for Interval {
    fn question(name: &str, words: &[u32; 4]) -> Option<Result<IntervalQuery, KeyRefusal>> {
        match name {
            "meets" => Some(IntervalQuery::meets(words)),
            "inside" => Some(IntervalQuery::inside(words)),
            _ => None,
        }
    }
}

impl Asked for Rectangle {
    fn question(name: &str, words: &[u32; 4]) -> Option<Result<RectangleQuery, KeyRefusal>> {
        match name {
            "meets" => Some(RectangleQuery::meets(words)),
            "inside" => Some(RectangleQuery::inside(words)),
            "point" => Some(RectangleQuery::holds_point(words)),
            _ => None,
        }
    }
}

impl Asked for SetKey {
    fn question(name: &str, words: &[u32; 4]) -> Option<Result<SetQuery, KeyRefusal>> {
        match name {
            "all" => Some(Ok(SetQuery::has_all(words))),
            "shares" => Some(Ok(SetQuery::shares_member(words))),
            "within" => Some(Ok(SetQuery::lies_within(words))),
            _ => None,
        }
    }
}
