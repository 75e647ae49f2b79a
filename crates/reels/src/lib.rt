//! Reels in the slots of a pick-and-place machine.
#![tactic(auto)]

mod reel;

pub use reel::Reel;
