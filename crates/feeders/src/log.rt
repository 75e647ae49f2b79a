ghost use Rattle.std.specs.Prelude.{◌≡◌, true, [], ◌∷◌, ◌++◌};

use crate::answer::Answer;
use std::alloc::Global;

/// The answers of the index, in their order.
#[derive(Drop)]
pub struct Log {
    pub answers: Vec<Answer>,
    /// Whether there was memory for all of them. A flag and no Result, so that what was noted before is still told.
    pub whole: bool,
}

impl Log {
    pub fn new(heap: Global) -> Log {
        Log {
            answers: Vec::new(heap),
            whole: true,
        }
    }

    pub fn note(&mut self, answer: Answer)
        ensures was { self.new.whole ≡ true → self.old.whole ≡ true }
        ensures noted { self.new.whole ≡ true → self.new.answers.items ≡ self.old.answers.items ++ answer ∷ [] }
    {
        if self.answers.push(answer).is_err() {
            self.whole = false;
        }
    }
}
