//! The class of intervals: the value ranges of feeders.
#![tactic(auto)]

mod class;
mod interval;
mod ranks;

pub use interval::{Interval, IntervalQuery};
